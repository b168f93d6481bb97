ghost use Rattle.std.specs.Prelude.{◌≡◌, ◌<◌, ◌≤◌, ◌+◌, [], drop, length, IfOk, OnOk, IsErrOf};
ghost use Rattle.rnv_base.specs.Causes.{FaultsBy};
ghost use Rattle.rnv_wire.specs.declared.reading.ReadError.TheVariants.{Fault, TooLong};

use crate::Source;
use rnv_base::Bytes;
use std::alloc::Global;

/// Why a source was not read to its end.
#[derive(Clone, Copy, Debug, PartialEq, Eq)]
pub enum ReadError {
    /// The source failed, and has counted the fault.
    Fault,
    /// More bytes than the limit were read.
    TooLong,
    /// Want of memory.
    Memory,
}

// So many bytes are read at a time.
const PIECE: usize = 4096;

/// Everything up to the end. `TooLong` exactly where one byte more than the limit was read, which is
/// the last that is taken; `Fault` only where the source's count of faults rose.
pub fn read_all<S: Source>(alloc: Global, source: &mut S, limit: usize) -> Result<Bytes, ReadError>
    ensures bytes { S.tells → IfOk result (λ all. all.bytes ≡ S.left source.old) }
    ensures end { S.tells → OnOk result (S.left source.new ≡ []) }
    ensures short { IfOk result (λ all. length all.bytes ≤ limit) }
    ensures long { S.tells → IsErrOf result TooLong → limit < length (S.left source.old) }
    ensures taken { S.tells → IsErrOf result TooLong → S.left source.new ≡ drop (limit + 1) (S.left source.old) }
    ensures cause { FaultsBy (S.faults source.old) (S.faults source.new) result Fault }
{
    let mut all = Vec::new(alloc);
    let mut buffer = [0; PIECE];
    while all.len() <= limit {
        let most = (limit - all.len()).min(PIECE - 1) + 1;
        let count = match source.read(&mut buffer[..most]) {
            Ok(count) => count,
            Err(_) => return Err(ReadError::Fault),
        };
        if count == 0 {
            return Ok(Bytes::new(all));
        }
        if all.extend_from_slice(&buffer[..count]).is_err() {
            return Err(ReadError::Memory);
        }
    }
    Err(ReadError::TooLong)
}
