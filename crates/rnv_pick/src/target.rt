use crate::{Dep, DepOptions};

// What candidates are asked for: a dependency with its options, the range that its value is, and the
// version that they have to be above.
#[derive(Clone, Copy)]
pub(crate) struct Target<'a, X, R> {
    pub(crate) dep: &'a Dep,
    pub(crate) options: &'a DepOptions,
    pub(crate) range: &'a R,
    pub(crate) start: &'a X,
}
