//! The numbers that words are.

ghost use Rattle.std.specs.Prelude.{◌≡◌, Some, None, if◌then◌else◌};
ghost use Rattle.cov_words.specs.Words as spec;

/// The most digits of a number.
const MOST_DIGITS: usize = 9;

/// The number of one to nine decimal digits.
fn number(word: &[u8]) -> Option<u32>
    ensures { result ≡ (if spec.is_number word.now then Some (spec.digits_number 0 word.now) else None) }
{
    if word.is_empty() || word.len() > MOST_DIGITS {
        return None;
    }
    let mut number = 0u32;
    for byte in word {
        if !byte.is_ascii_digit() {
            return None;
        }
        number = number * 10 + u32::from(*byte - b'0');
    }
    Some(number)
}

/// The number of a word, where it is at least 1 and at most this.
pub(crate) fn number_to(most: u32, word: &[u8]) -> Option<u32>
    ensures { result ≡ spec.number_to most word.now }
{
    match number(word) {
        Some(number) if 1 <= number && number <= most => Some(number),
        _ => None,
    }
}
