ghost use Rattle.std.specs.Prelude.{◌≡◌, ◌≤◌, length, min, option_map};
ghost use Rattle.rnv_schedule.specs.Numbers.{number_of};

// What a number above it is read as.
const LIMIT: u32 = 1_000_000;

// The number that a text writes in decimal, or the limit where it is greater. None where the text is
// not of digits alone, or empty.
pub fn number(text: &[u8]) -> Option<u32>
    ensures value { result ≡ option_map (min LIMIT) (number_of text.now) }
    ensures short { length text.now ≤ 6 → result ≡ number_of text.now }
{
    if text.is_empty() {
        return None;
    }
    let mut number = 0;
    for digit in text {
        if !digit.is_ascii_digit() {
            return None;
        }
        number = (number * 10 + u32::from(*digit - b'0')).min(LIMIT);
    }
    Some(number)
}
