ghost use Rattle.std.specs.Prelude.{◌≡◌, ℕ, List as Items, IfOk, IfErr};
ghost use Rattle.rnv_base.specs.Values.{is_tag_text};
ghost use Rattle.rnv_manager.specs.declared.found.ExtractError.TheVariants.{Memory};
ghost use Rattle.rnv_manager.specs.Edits.{KeepsLaw};
ghost use Rattle.rnv_manager.specs.Finds.{views};
ghost use Rattle.rnv_manager.specs.Marks.{finds_from};
ghost use Rattle.rnv_docker.specs.Grammar.{IsRead, pieces};

use crate::image::is_tag_text;
use crate::reading::finds;
use rnv_base::List;
use rnv_manager::{ExtractError, Found, Manager};
use std::alloc::Global;

/// Finds the tags of images in a Dockerfile: those of the lines `FROM`, perhaps `--platform=P`, IMAGE,
/// and perhaps `AS` NAME, in any case, with spaces, tabs and carriage returns between and around. Empty
/// lines and comments are taken out first. A line that goes on in the next one, by a backslash at its
/// end, is passed over, and so are its continuations; from the first line with `<<` on, as it may begin
/// a here-document, nothing is looked at. The tag stands behind the last colon of IMAGE, with no slash
/// in it. Passed over are `scratch`, the name of an earlier stage, an image with `$` or `@`, one without
/// a tag, and one with a control character or a backslash. Name and package are the image without its
/// tag. The place is `final` for the last line of that form, else `stage`. Every file is read.
#[derive(Clone, Copy, Debug)]
pub struct DockerManager;

fn read<'a>(alloc: Global, file: &'a str) -> Result<List<Found<'a>>, ExtractError>
    ensures ok { IfOk result (λ v. views v ≡ finds_from 0 (pieces file.now)) }
    ensures err { IfErr result (λ e. e ≡ Memory) }
{
    match finds(alloc, file) {
        Ok(found) => Ok(List::new(found)),
        Err(e) => Err(e),
    }
}

impl Manager for DockerManager {
    ghost reads = { λ m file ms. IsRead file ms };

    ghost is_fit = { λ m value. is_tag_text value };

    fn extract<'a>(
        &'a self,
        alloc: Global,
        file: &'a str,
    ) -> Result<List<Found<'a>>, ExtractError> {
        read(alloc, file)
    }

    fn fits(&self, value: &str) -> bool {
        is_tag_text(value)
    }

    ghost whole = { λ m file ms h. h.whole };
}

/// Does nothing: its promises are that each file is read, so that `extract` never answers `BadSyntax`, and
/// the edit law for new values that are tags, so that `edit` never answers `NotReadBack` for them.
pub fn keeps_tags(_manager: &DockerManager)
    ensures every { (file : Items ℕ) → IsRead file (pieces file) }
    ensures law { KeepsLaw IsRead is_tag_text }
{}
