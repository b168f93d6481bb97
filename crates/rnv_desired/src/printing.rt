ghost use Rattle.std.specs.Prelude.{◌≡◌, IfOk};
ghost use Rattle.rnv_desired.specs.Printable.{printable_byte, printable};

use rnv_base::Text;
use std::alloc::{AllocError, Global};

/// A text from outside as it stands in a line: one space for each control character (U+0000 to U+001F,
/// and U+007F). Only memory can fail.
pub(crate) fn printable(alloc: Global, text: &str) -> Result<Text, AllocError>
    ensures { IfOk result (λ line. line ≡ printable text.now) }
{
    let bytes = printable_bytes(alloc, text)?;
    match String::from_utf8(bytes) {
        Ok(line) => Ok(Text::new(line)),
        Err(_) => unreachable!(),
    }
}

// Its bytes.
fn printable_bytes(alloc: Global, text: &str) -> Result<Vec<u8>, AllocError>
    ensures { IfOk result (λ bytes. bytes.items ≡ printable text.now) }
{
    text.as_bytes()
        .iter()
        .map(|byte| printable_byte(*byte))
        .collect(alloc)
}

fn printable_byte(byte: u8) -> u8
    ensures { result ≡ printable_byte byte }
{
    if byte < b' ' || byte == 127 {
        b' '
    } else {
        byte
    }
}
