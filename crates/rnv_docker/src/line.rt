ghost use Rattle.std.specs.Prelude.{◌≡◌, ◌+◌, [], ◌∷◌, ◌++◌, length, MatchOption};
ghost use Rattle.rnv_docker.specs.Lines.{is_blank, is_space, is_empty, is_comment, is_left, goes_on, begins_with, has_here};

fn is_blank(x: u8) -> bool
    ensures { result ≡ is_blank x }
{
    x == b' ' || x == b'\t'
}

pub fn is_space(x: u8) -> bool
    ensures { result ≡ is_space x }
{
    is_blank(x) || x == b'\r'
}

fn is_empty(line: &[u8]) -> bool
    ensures { result ≡ is_empty line.now }
{
    line.iter().all(|x| is_space(*x))
}

fn is_comment(line: &[u8]) -> bool
    ensures { result ≡ is_comment line.now }
{
    let mut rest = line;
    while let [x, tail @ ..] = rest {
        if !is_blank(*x) {
            return *x == b'#';
        }
        rest = tail;
    }
    false
}

// Neither empty nor a comment.
pub fn is_left(line: &[u8]) -> bool
    ensures { result ≡ is_left line.now }
{
    !is_empty(line) && !is_comment(line)
}

// The last byte, and what stands before it.
pub fn last_byte(bytes: &[u8]) -> Option<(u8, &[u8])>
    ensures parts { MatchOption result (bytes.now ≡ []) (λ p. bytes.now ≡ p.1.now ++ p.0 ∷ []) }
    ensures shorter { MatchOption result (length bytes.now ≡ 0) (λ p. length p.1.now + 1 ≡ length bytes.now) }
{
    match bytes {
        [] => None,
        [front @ .., x] => Some((*x, front)),
    }
}

// Whether the last byte other than a space, a tab and a carriage return is a backslash.
pub fn goes_on(line: &[u8]) -> bool
    ensures { result ≡ goes_on line.now }
{
    let mut rest = line;
    while let Some((x, front)) = last_byte(rest) {
        if !is_space(x) {
            return x == b'\\';
        }
        rest = front;
    }
    false
}

fn begins_with(byte: u8, bytes: &[u8]) -> bool
    ensures { result ≡ begins_with byte bytes.now }
{
    match bytes {
        [x, ..] => *x == byte,
        [] => false,
    }
}

// Whether `<<` stands in the line.
pub fn has_here(line: &[u8]) -> bool
    ensures { result ≡ has_here line.now }
{
    let mut rest = line;
    while let [x, tail @ ..] = rest {
        if *x == b'<' && begins_with(b'<', tail) {
            return true;
        }
        rest = tail;
    }
    false
}
