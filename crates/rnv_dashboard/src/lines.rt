ghost use Rattle.std.specs.Prelude.{◌≡◌, ◌++◌, IfOk, OnOk, string_bytes};
ghost use Rattle.rnv_dashboard.specs.Lines.{ended, guarded, spaced};

use std::alloc::{AllocError, Global};

// A text from outside as it stands in a line: a space for each control character (U+0000 to U+001F,
// and U+007F).
pub(crate) fn spaced(alloc: Global, text: &str) -> Result<String, AllocError>
    ensures { IfOk result (λ copy. string_bytes copy ≡ spaced text.now) }
{
    text.chars()
        .map(|c| if c < ' ' || c == '\u{7f}' { ' ' } else { c })
        .collect(alloc)
}

// The same right behind the dash of a line, where a `[` at its start would begin a box: a `\` stands
// before it.
pub(crate) fn guarded(alloc: Global, text: &str) -> Result<String, AllocError>
    ensures { IfOk result (λ copy. string_bytes copy ≡ guarded text.now) }
{
    let copy = spaced(alloc, text)?;
    if text.starts_with('[') {
        let copy = copy.as_str();
        return format!(in alloc; "\\{copy}");
    }
    Ok(copy)
}

// Puts a line at the end.
pub(crate) fn add_line(lines: &mut String, line: &str) -> Result<(), AllocError>
    ensures { OnOk result (string_bytes lines.new ≡ string_bytes lines.old ++ ended line.now) }
{
    lines.push_str(line)?;
    lines.push_str("\n")
}
