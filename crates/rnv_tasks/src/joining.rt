ghost use Rattle.std.specs.Prelude.{◌≡◌, ◌++◌, flat_map, codes, IfOk, OnOk, string_bytes};
ghost use Rattle.rnv_tasks.specs.Tasks.{joined};

use rnv_base::Text;
use std::alloc::{AllocError, Global};
use std::convert::AsStr;

// Problems in one text, with `; ` between them.
pub(crate) fn joined(alloc: Global, problems: &[Text]) -> Result<Text, AllocError>
    ensures { IfOk result (λ text. text ≡ joined problems.now) }
{
    match problems {
        [] => Ok(Text::new(String::new(alloc))),
        [first, others @ ..] => {
            let mut text = String::from_str(alloc, first.as_str())?;
            add_others(&mut text, others)?;
            Ok(Text::new(text))
        }
    }
}

// Puts each of these problems at the end, behind `; `.
fn add_others(text: &mut String, others: &[Text]) -> Result<(), AllocError>
    ensures { OnOk result (string_bytes text.new ≡ string_bytes text.old ++ flat_map (λ other. codes "; " ++ other) others.now) }
{
    for other in others {
        text.push_str("; ")?;
        text.push_str(other.as_str())?;
    }
    Ok(())
}
