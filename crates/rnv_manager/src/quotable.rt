ghost use Rattle.std.specs.Prelude.{◌≡◌};
ghost use Rattle.rnv_base.specs.Values.{is_quotable_byte, is_quotable};

fn is_quotable_byte(x: u8) -> bool
    ensures { result ≡ is_quotable_byte x }
{
    x >= b' ' && x <= b'~' && x != b'"' && x != b'\'' && x != b'\\'
}

/// Whether a text may stand between quotes as it is: printable ASCII without the quote, the apostrophe
/// and the backslash.
pub fn is_quotable(value: &str) -> bool
    ensures { result ≡ is_quotable value.now }
{
    value.as_bytes().iter().all(|x| is_quotable_byte(*x))
}
