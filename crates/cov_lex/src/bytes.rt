ghost use Rattle.std.specs.Prelude.{◌≡◌, ◌≤◌, length, slice_index};
ghost use Rattle.cov_syntax.specs.Tokens as spec;

/// The byte at a place, or 0 past the end.
pub fn byte(text: &[u8], at: usize) -> u8
    ensures value { result ≡ slice_index text.now at }
    ensures past { length text.now ≤ at → result ≡ 0 }
{
    if at < text.len() { text[at] } else { 0 }
}

pub fn is_blank(b: u8) -> bool
    ensures { result ≡ spec.is_blank b }
{
    b == b' ' || b == b'\t' || b == b'\r' || b == b'\n'
}

pub fn begins_name(b: u8) -> bool
    ensures { result ≡ spec.begins_name b }
{
    b.is_ascii_alphabetic() || b == b'_'
}

fn goes_on(b: u8, after: u8) -> bool
    ensures { result ≡ spec.goes_on b after }
{
    begins_name(b)
        || b.is_ascii_digit()
        || b == b'$'
        || b == b'#'
        || (b == b'-' && !(after == b'-' || after == b'>'))
}

/// The bytes from the front on that go on with a name.
pub fn name_len(text: &[u8]) -> usize
    ensures value { result ≡ spec.name_len text.now }
    ensures within { result ≤ length text.now }
{
    let mut n = 0;
    while n < text.len() && goes_on(text[n], byte(text, n + 1)) {
        n += 1;
    }
    n
}

/// The digits at the front.
pub fn number_len(text: &[u8]) -> usize
    ensures value { result ≡ spec.number_len text.now }
    ensures within { result ≤ length text.now }
{
    text.iter().take_while(|b| b.is_ascii_digit()).count()
}

/// The bytes before the next LF or the end.
pub fn line_len(text: &[u8]) -> usize
    ensures value { result ≡ spec.line_len text.now }
    ensures within { result ≤ length text.now }
{
    text.iter().take_while(|b| **b != b'\n').count()
}
