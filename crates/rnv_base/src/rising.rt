ghost use Rattle.std.specs.Prelude.{◌≡◌, ◌↔◌, IsTrue};
ghost use Rattle.rnv_base.specs.Files.{IsRising};

use crate::Text;
use std::cmp::Ordering;

/// Whether each text is below all those after it.
pub fn is_rising(texts: &[Text]) -> bool
    ensures { IsTrue result ↔ IsRising texts.now }
{
    for at in 1..texts.len() {
        match texts[at - 1].cmp(&texts[at]) {
            Ordering::Less => {}
            _ => return false,
        }
    }
    true
}
