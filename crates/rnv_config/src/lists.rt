ghost use Rattle.std.specs.Prelude.{◌≡◌, [], ◌∷◌, ◌++◌, IfOk, OnOk};

use rnv_base::List;
use std::alloc::{AllocError, Global};

// A list of one item.
pub fn one<T: Drop>(alloc: Global, item: T) -> Result<List<T>, AllocError>
    ensures { IfOk result (λ list. list ≡ item ∷ []) }
{
    let mut list = List::empty(alloc);
    list.push(item)?;
    Ok(list)
}

// Puts these items at the end.
pub fn append<T: Drop>(list: &mut List<T>, more: List<T>) -> Result<(), AllocError>
    ensures { OnOk result (list.new ≡ list.old ++ more) }
{
    for item in more.into_inner() {
        list.push(item)?;
    }
    Ok(())
}
