ghost use Rattle.std.specs.Prelude.{◌≡◌, option_map};
ghost use Rattle.rnv_manager.specs.Finds.{views, GivesFinds};
ghost use Rattle.rnv_base.specs.Values.{is_quotable};
ghost use Rattle.rnv_cargo.specs.Grammar.{IsRead};
ghost use Rattle.rnv_cargo.specs.Read.{finds_in, file as read_file};

use crate::finding::finds;
use crate::line::spots;
use rnv_base::List;
use rnv_manager::{ExtractError, Found, KeepsEdits, Manager, is_quotable};
use std::alloc::Global;

/// Finds the dependencies in a `Cargo.toml`: the strings of one line at the paths `T NAME` and
/// `T NAME version`, where T is `dependencies`, `dev-dependencies` or `build-dependencies`, also
/// behind `target X`, and at these two with `workspace dependencies` in place of T. A path is the
/// header's keys, then the statement's, then those of inline tables; under `[[KEY]]` and inside
/// arrays no string has one. The place is T or `workspace.dependencies`. The package is the first
/// string of one line at the same table's `NAME package`, and the name where there is none.
/// Keys and values are taken as they stand between their quotes, and finds whose name, package or
/// value has a control character or a backslash are passed over.
/// A file outside the grammar of specs/Grammar is `BadSyntax`.
#[derive(Clone, Copy, Debug)]
pub struct CargoManager;

fn read<'a>(alloc: Global, file: &'a str) -> Result<List<Found<'a>>, ExtractError>
    ensures { GivesFinds views result (option_map finds_in (read_file file.now)) }
{
    let spots = match spots(alloc, file) {
        Ok(spots) => spots,
        Err(e) => return Err(e),
    };
    match finds(alloc, &spots) {
        Ok(found) => Ok(List::new(found)),
        Err(e) => Err(e),
    }
}

impl Manager for CargoManager {
    ghost reads = { λ m file ms. IsRead file ms };

    ghost is_fit = { λ m value. is_quotable value };

    fn extract<'a>(
        &'a self,
        alloc: Global,
        file: &'a str,
    ) -> Result<List<Found<'a>>, ExtractError> {
        read(alloc, file)
    }

    fn fits(&self, value: &str) -> bool {
        is_quotable(value)
    }

    ghost whole = { λ m file ms h. h.whole };
}

impl KeepsEdits for CargoManager {
    fn keeps_edits(&self) {}
}
