ghost use Rattle.std.specs.Prelude.{◌≡◌, ◌↔◌, IsTrue, IfNone, IfSome};
ghost use Rattle.rnv_manager.specs.Finds.{view, views};
ghost use Rattle.rnv_manager.specs.Edits.{IsFirstDifference};

use crate::Found;

fn is_same(a: &Found, b: &Found) -> bool
    ensures { IsTrue result ↔ (view a.now ≡ view b.now) }
{
    a.name == b.name
        && a.package == b.package
        && a.place == b.place
        && a.source == b.source
        && a.value == b.value
        && a.start == b.start
}

// The first index at which the finds differ.
pub fn first_difference(expected: &[Found], actual: &[Found]) -> Option<usize>
    ensures none { IfNone result (views expected.now ≡ views actual.now) }
    ensures some { IfSome result (λ index. IsFirstDifference (views expected.now) (views actual.now) index) }
{
    for (i, wanted) in expected.iter().enumerate() {
        match actual.get(i) {
            Some(found) if is_same(wanted, found) => {}
            _ => return Some(i),
        }
    }
    if expected.len() < actual.len() {
        Some(expected.len())
    } else {
        None
    }
}
