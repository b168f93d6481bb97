ghost use Rattle.std.specs.Prelude.{◌≡◌};
ghost use Rattle.rnv_manager.specs.Finds.{views, GivesFinds};
ghost use Rattle.rnv_base.specs.Values.{is_quotable};
ghost use Rattle.rnv_package_json.specs.Grammar.{IsRead};
ghost use Rattle.rnv_package_json.specs.Read.{file as read_file};

use crate::role::Role;
use crate::text::{after_gap, expect};
use crate::value::{Kind, group};
use rnv_base::List;
use rnv_manager::{ExtractError, Found, KeepsEdits, Manager, is_quotable};
use std::alloc::Global;

// So deep the values in the top object may nest; with that object it is 127.
const INNER_DEPTH: u8 = 126;

/// Finds the dependencies in a `package.json`: the members with text values of the top members
/// `dependencies`, `devDependencies`, `optionalDependencies` and `peerDependencies`, which are the
/// places. Name and package are the member's name. Names and values are taken as they stand between
/// their quotes, and those with a control character or a backslash are passed over.
/// A file that is not one object of RFC 8259, nested at most 127 deep, is `BadSyntax`.
#[derive(Clone, Copy, Debug)]
pub struct NpmManager;

#[tactic(auto, unfolding(crate::specs::Read::file))]
fn read<'a>(alloc: Global, file: &'a str) -> Result<List<Found<'a>>, ExtractError>
    ensures { GivesFinds views result (read_file file.now) }
{
    let mut found = Vec::new(alloc);
    let Some(inside) = expect(b'{', after_gap(file.as_bytes())) else {
        return Err(ExtractError::BadSyntax);
    };
    let rest = group(
        file,
        inside,
        Role::Top,
        Kind::Object,
        INNER_DEPTH,
        &mut found,
    )?;
    if !after_gap(rest).is_empty() {
        return Err(ExtractError::BadSyntax);
    }
    Ok(List::new(found))
}

impl Manager for NpmManager {
    ghost reads = { λ m file ms. IsRead file ms };

    ghost is_fit = { λ m value. is_quotable value };

    fn extract<'a>(
        &'a self,
        alloc: Global,
        file: &'a str,
    ) -> Result<List<Found<'a>>, ExtractError> {
        read(alloc, file)
    }

    fn fits(&self, value: &str) -> bool {
        is_quotable(value)
    }

    ghost whole = { λ m file ms h. h.whole };
}

impl KeepsEdits for NpmManager {
    fn keeps_edits(&self) {}
}
