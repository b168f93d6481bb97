ghost use Rattle.std.specs.Prelude.{◌≡◌, ◌++◌, OnOk};
ghost use Rattle.std.specs.Fmt.{decimal};
ghost use Rattle.rnv_commands.specs.Printing.{shown, shown_byte, with_number, with_text};

use itoa::Buffer;
use std::alloc::AllocError;

/// Puts a text at the end. Only memory can fail.
pub fn add(out: &mut Vec<u8>, text: &str) -> Result<(), AllocError>
    ensures { OnOk result (out.new.items ≡ out.old.items ++ text.now) }
{
    out.extend_from_slice(text.as_bytes())
}

/// Puts a text from outside at the end, each control character as a space. Only memory can fail.
pub fn add_shown(out: &mut Vec<u8>, text: &str) -> Result<(), AllocError>
    ensures { OnOk result (out.new.items ≡ out.old.items ++ shown text.now) }
{
    for byte in text.as_bytes() {
        out.push(shown_byte(*byte))?;
    }
    Ok(())
}

fn shown_byte(byte: u8) -> u8
    ensures { result ≡ shown_byte byte }
{
    if byte < b' ' || byte == 127 {
        b' '
    } else {
        byte
    }
}

/// Puts a number at the end, in decimal digits. Only memory can fail.
pub fn add_number(out: &mut Vec<u8>, n: u64) -> Result<(), AllocError>
    ensures { OnOk result (out.new.items ≡ out.old.items ++ decimal n) }
{
    let mut buffer = Buffer::new();
    out.extend_from_slice(buffer.format(n).as_bytes())
}

// Puts words at the end, and a text from outside behind them.
pub(crate) fn add_text_after(out: &mut Vec<u8>, words: &str, text: &str) -> Result<(), AllocError>
    ensures { OnOk result (out.new.items ≡ out.old.items ++ with_text words.now text.now) }
{
    add(out, words)?;
    add_shown(out, text)
}

// Puts words at the end, and a number behind them.
pub(crate) fn add_number_after(out: &mut Vec<u8>, words: &str, n: u64) -> Result<(), AllocError>
    ensures { OnOk result (out.new.items ≡ out.old.items ++ with_number words.now n) }
{
    add(out, words)?;
    add_number(out, n)
}
