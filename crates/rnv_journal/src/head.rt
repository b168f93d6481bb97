ghost use Rattle.std.specs.Prelude.{◌≡◌, ◌≢◌, ◌↔◌, ◌++◌, IsTrue, IfSome, IfNone, take};
ghost use Rattle.rnv_journal.specs.File.{IsInMaking, head, made};

// The bytes at the front of a journal.
const HEAD: [u8; 13] = [1, 82, 78, 86, 70, 79, 82, 71, 69, 0, 0, 0, 1];

// What a file without entries has behind its first byte.
pub(crate) const MADE: [u8; 13] = [82, 78, 86, 70, 79, 82, 71, 69, 0, 0, 0, 1, 0];

#[tactic(auto, unfolding(crate::specs::File::made))]
fn is_made(bytes: &[u8]) -> bool
    ensures { IsTrue result ↔ (bytes.now ≡ made) }
{
    bytes == MADE.as_slice()
}

// Whether a stop in the making of a file may have left these bytes.
pub(crate) fn is_in_making(bytes: &[u8]) -> bool
    ensures { IsTrue result ↔ IsInMaking bytes.now }
{
    match bytes {
        [] => true,
        [first, rest @ ..] => {
            rest.is_empty() || *first == 0 && rest.len() <= 13 || *first != 1 && is_made(rest)
        }
    }
}

// The bytes behind the head, if they begin with it.
#[tactic(auto, unfolding(crate::specs::File::head))]
pub(crate) fn behind_head(bytes: &[u8]) -> Option<&[u8]>
    ensures some { IfSome result (λ rest. bytes.now ≡ head ++ rest.now) }
    ensures none { IfNone result (take 13 bytes.now ≢ head) }
{
    bytes.strip_prefix(HEAD.as_slice())
}
