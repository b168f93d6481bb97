ghost use Rattle.std.specs.Prelude.{◌≡◌, ◌++◌, ℕ, List, codes, flat_map, OnOk, IfOk};
ghost use Rattle.std.specs.List.{list_any};
ghost use Rattle.rnv_patch.specs.Names.{escape, escaped, is_escaped, name_end, named, octal};

use std::alloc::AllocError;

fn is_escaped(b: u8) -> bool
    ensures { result ≡ is_escaped b }
{
    b < 32 || b >= 127 || b == b'"' || b == b'\\'
}

fn any_escaped(path: &[u8]) -> bool
    ensures { result ≡ list_any is_escaped path.now }
{
    path.iter().any(|b| is_escaped(*b))
}

fn add_octal(out: &mut Vec<u8>, b: u8) -> Result<(), AllocError>
    ensures { OnOk result (out.new.items ≡ out.old.items ++ octal b) }
{
    out.extend_from_slice(&[b'0' + b / 64, b'0' + b / 8 % 8, b'0' + b % 8])
}

// What stands behind the `\` of an escaped byte.
fn add_escape(out: &mut Vec<u8>, b: u8) -> Result<(), AllocError>
    ensures { OnOk result (out.new.items ≡ out.old.items ++ escape b) }
{
    match b {
        b'"' => out.extend_from_slice(b"\""),
        b'\\' => out.extend_from_slice(b"\\"),
        7 => out.extend_from_slice(b"a"),
        8 => out.extend_from_slice(b"b"),
        b'\t' => out.extend_from_slice(b"t"),
        b'\n' => out.extend_from_slice(b"n"),
        11 => out.extend_from_slice(b"v"),
        12 => out.extend_from_slice(b"f"),
        b'\r' => out.extend_from_slice(b"r"),
        _ => add_octal(out, b),
    }
}

fn add_escaped(out: &mut Vec<u8>, b: u8) -> Result<(), AllocError>
    ensures { OnOk result (out.new.items ≡ out.old.items ++ escaped b) }
{
    if is_escaped(b) {
        out.extend_from_slice(b"\\")?;
        return add_escape(out, b);
    }
    out.extend_from_slice(&[b])
}

fn add_all_escaped(out: &mut Vec<u8>, path: &[u8]) -> Result<(), AllocError>
    ensures { OnOk result (out.new.items ≡ out.old.items ++ flat_map escaped path.now) }
{
    for b in path {
        add_escaped(out, *b)?;
    }
    Ok(())
}

// The path behind `a/` or `b/`, as git names it.
pub(crate) fn add_named(out: &mut Vec<u8>, front: &[u8], path: &[u8]) -> Result<(), AllocError>
    ensures { OnOk result (out.new.items ≡ out.old.items ++ named front.now path.now) }
{
    if any_escaped(path) {
        out.extend_from_slice(b"\"")?;
        out.extend_from_slice(front)?;
        add_all_escaped(out, path)?;
        return out.extend_from_slice(b"\"");
    }
    out.extend_from_slice(front)?;
    out.extend_from_slice(path)
}

// What ends a name at the end of a line: a tab, where the name has a space.
pub(crate) fn add_name_end(out: &mut Vec<u8>, path: &[u8]) -> Result<(), AllocError>
    ensures { OnOk result (out.new.items ≡ out.old.items ++ name_end path.now) }
{
    if path.contains(&b' ') {
        return out.extend_from_slice(b"\t");
    }
    Ok(())
}
