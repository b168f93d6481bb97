ghost use Rattle.std.specs.Prelude.{◌≡◌, ◌≢◌, List as Items, Option, IfOk, IfErr, IsErrOf};
ghost use Rattle.rnv_base.specs.Files.{NamedFile};
ghost use Rattle.rnv_checkout.specs.Base.{kept_of, IsWithin};
ghost use Rattle.rnv_checkout.specs.Gathered.{IsGathered};
ghost use Rattle.rnv_checkout.specs.Refusal.{IsWrong};
ghost use Rattle.rnv_checkout.specs.declared.error.BaseError.TheVariants.{FolderFault as fault};

use crate::gathered::Gathered;
use crate::{BaseError, FolderBase};
use rnv_base::{BASE_BYTES, BASE_FILES, Text};
use std::alloc::Global;

// The base of what is gathered, or what is wrong with it.
pub(crate) fn judged(alloc: Global, gathered: Gathered) -> Result<FolderBase, BaseError>
    ensures files { IfOk result (λ base. (outcomes : Items (Option NamedFile)) → IsGathered gathered outcomes → base.files ≡ kept_of outcomes) }
    ensures within { IfOk result (λ base. (outcomes : Items (Option NamedFile)) → IsGathered gathered outcomes → IsWithin (kept_of outcomes)) }
    ensures passed { IfOk result (λ base. base.passed ≡ gathered.passed) }
    ensures wrong { IfErr result (λ error. (outcomes : Items (Option NamedFile)) → IsGathered gathered outcomes → IsWrong error (kept_of outcomes)) }
    ensures told { ¬ IsErrOf result fault }
{
    if gathered.count > BASE_FILES as u64 {
        return Err(BaseError::Limit {
            which: Text::copied(alloc, "files")?,
            number: BASE_FILES as u64,
        });
    }
    if gathered.bytes > BASE_BYTES {
        return Err(BaseError::Limit {
            which: Text::copied(alloc, "base")?,
            number: BASE_BYTES,
        });
    }
    if gathered.count == 0 {
        return Err(BaseError::UnknownRepo);
    }
    Ok(FolderBase {
        files: gathered.files,
        passed: gathered.passed,
    })
}
