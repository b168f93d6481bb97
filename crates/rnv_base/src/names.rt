ghost use Rattle.std.specs.Prelude.{◌≡◌, ◌↔◌, IsTrue, length, All};
ghost use Rattle.rnv_base.specs.Names.{is_name_byte, is_package_byte, IsHalf, IsPackageName, IsPath, IsPrintable, IsRepositoryName, IsSegment, segments};

/// Whether this is a repository name `OWNER/NAME`: each half has 1 to 100 characters of letters,
/// digits, `.`, `_`, `-` and is neither `.` nor `..`. Takes no memory.
pub fn name_ok(name: &str) -> bool
    ensures { IsTrue result ↔ IsRepositoryName name.now }
{
    count_segments(name) == 2 && are_halves(name)
}

/// Whether this is a path: 1 to 1,000 bytes of UTF-8 without control characters, whose segments
/// between `/` are not empty, `.` or `..`. Takes no memory.
pub fn path_ok(path: &str) -> bool
    ensures { IsTrue result ↔ IsPath path.now }
{
    if path.is_empty() || path.len() > 1000 {
        return false;
    }
    are_printable(path.as_bytes()) && are_segments(path)
}

/// Whether this is a package name that may have an index document: 1 to 214 bytes of letters,
/// digits and `-_.@:/`, whose segments between `/` are not empty, `.` or `..`. Takes no memory.
pub fn package_ok(name: &str) -> bool
    ensures { IsTrue result ↔ IsPackageName name.now }
{
    if name.is_empty() || name.len() > 214 {
        return false;
    }
    are_package_bytes(name.as_bytes()) && are_segments(name)
}

// How many parts there are between the slashes.
fn count_segments(text: &str) -> usize
    ensures { result ≡ length (segments text.now) }
{
    text.split('/').count()
}

// Whether each part between the slashes is one of a repository name's.
fn are_halves(text: &str) -> bool
    ensures { IsTrue result ↔ All IsHalf (segments text.now) }
{
    text.split('/').all(|part| is_half(part.as_bytes()))
}

// Whether each part between the slashes stays in its folder.
fn are_segments(text: &str) -> bool
    ensures { IsTrue result ↔ All IsSegment (segments text.now) }
{
    text.split('/').all(|part| is_segment(part.as_bytes()))
}

fn is_segment(part: &[u8]) -> bool
    ensures { IsTrue result ↔ IsSegment part.now }
{
    !part.is_empty() && part != b".".as_slice() && part != b"..".as_slice()
}

fn is_half(part: &[u8]) -> bool
    ensures { IsTrue result ↔ IsHalf part.now }
{
    is_segment(part) && part.len() <= 100 && part.iter().all(|b| is_name_byte(*b))
}

fn are_printable(bytes: &[u8]) -> bool
    ensures { IsTrue result ↔ All IsPrintable bytes.now }
{
    bytes.iter().all(|b| is_printable(*b))
}

fn are_package_bytes(bytes: &[u8]) -> bool
    ensures { IsTrue result ↔ All (λ b. IsTrue (is_package_byte b)) bytes.now }
{
    bytes.iter().all(|b| is_package_byte(*b))
}

fn is_name_byte(b: u8) -> bool
    ensures { result ≡ is_name_byte b }
{
    b.is_ascii_alphanumeric() || b == b'.' || b == b'_' || b == b'-'
}

fn is_package_byte(b: u8) -> bool
    ensures { result ≡ is_package_byte b }
{
    is_name_byte(b) || b == b'@' || b == b':' || b == b'/'
}

fn is_printable(b: u8) -> bool
    ensures { IsTrue result ↔ IsPrintable b }
{
    b >= 32 && b != 127
}
