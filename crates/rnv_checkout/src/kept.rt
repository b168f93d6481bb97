ghost use Rattle.std.specs.Prelude.{◌≡◌, ◌≢◌, ◌↔◌, ◌++◌, ◌≤◌, All, IsTrue, IfSome, IfNone, IfOk, codes, length};
ghost use Rattle.std.specs.Str.{IsUtf8};
ghost use Rattle.rnv_base.specs.Files.{NamedFile, read_of};
ghost use Rattle.rnv_base.specs.Names.{IsPath, segments};
ghost use Rattle.rnv_checkout.specs.Base.{IsAt, IsKept};

use rnv_base::path_ok;

// The most bytes of a file that is kept.
const MOST: usize = 1_048_576;

// Whether a path has no part `.git`.
fn is_visible(path: &str) -> bool
    ensures { IsTrue result ↔ All (λ part. part ≢ codes ".git") (segments path.now) }
{
    path.split('/').all(|part| part != ".git")
}

// Whether a file with this path is kept, if its bytes allow it.
pub(crate) fn is_kept_path(path: &str) -> bool
    ensures { IsTrue result ↔ (IsPath path.now × All (λ part. part ≢ codes ".git") (segments path.now)) }
{
    path_ok(path) && is_visible(path)
}

// Whether a file with these bytes is kept, if its path allows it.
pub(crate) fn are_kept_bytes(bytes: &[u8]) -> bool
    ensures { IsTrue result ↔ ((length bytes.now ≤ 1048576) × IsUtf8 bytes.now) }
{
    bytes.len() <= MOST && std::str::from_utf8(bytes).is_ok()
}
