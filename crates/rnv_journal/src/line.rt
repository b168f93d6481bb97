ghost use Rattle.std.specs.Prelude.{◌≡◌, ◌<◌, ◌++◌, ◌+◌, ◌-◌, ◌^◌, ◌∷◌, [], min, length, IfOk};
ghost use Rattle.std.specs.List.{All};
ghost use Rattle.rnv_journal.specs.File.{body, end_of, counted};
ghost use Rattle.rnv_journal.specs.Found.{strings};
ghost use Rattle.rnv_journal.specs.Held.{payloads, IsLine};

use rnv_base::{Bytes, List};
use std::alloc::{AllocError, Global};
use std::collections::VecDeque;
use std::convert::AsSlice;

// A byte string, and what an append of it writes behind the gate at the end: its length, the string, and a closed gate.
#[derive(Drop)]
pub(crate) struct Line {
    pub(crate) payload: Bytes,
    pub(crate) written: Bytes,
}

// A byte string with its line.
fn written_line(alloc: Global, payload: Bytes) -> Result<Line, AllocError>
    requires { length payload.bytes < 4294967296 }
    ensures { IfOk result (λ made. (made.payload.bytes ≡ payload.bytes) × IsLine made) }
{
    let bytes = payload.as_slice();
    let mut written = Vec::with_capacity(alloc, bytes.len() + 5)?;
    written.extend_from_slice((bytes.len() as u32).to_be_bytes().as_slice())?;
    written.extend_from_slice(bytes)?;
    written.push(0)?;
    Ok(Line {
        payload,
        written: Bytes::new(written),
    })
}

// The byte strings with their lines, in order.
pub(crate) fn lines(alloc: Global, list: List<Bytes>) -> Result<VecDeque<Line>, AllocError>
    requires { All (λ b. length b.bytes < 4294967296) list }
    ensures payloads { IfOk result (λ made. payloads made.items ≡ strings list) }
    ensures lines { IfOk result (λ made. All IsLine made.items) }
{
    let mut made = VecDeque::with_capacity(alloc, list.len())?;
    for payload in list.into_inner() {
        made.push_back(written_line(alloc, payload)?)?;
    }
    Ok(made)
}

// The length that the limit counts, after these byte strings behind the end, or 2^64 - 1 where it is greater.
pub(crate) fn length_after(end: u64, list: &[Bytes]) -> u64
    ensures { result ≡ min (end + (end_of (strings list.now) - 13) + 1) (2 ^ 64 - 1) }
{
    let mut length = end.saturating_add(1);
    for payload in list {
        length = length
            .saturating_add(5)
            .saturating_add(payload.as_slice().len() as u64);
    }
    length
}
