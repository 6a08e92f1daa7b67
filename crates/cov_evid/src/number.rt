ghost use Rattle.std.specs.Prelude.{◌≡◌, ◌++◌, decimal, if◌then◌else◌, IfSome, IfNone, Some, None, false, true};
ghost use Rattle.cov_evid.specs.FirstFault.{has_number};
ghost use Rattle.cov_evid.specs.Numbers.{digits_number, is_number};
ghost use Rattle.cov_evid.specs.Spelling.{IsNumber};

use crate::front::behind;

/// The most digits of a number.
const MOST_DIGITS: usize = 9;

/// The number of one to nine decimal digits, of which the first is not 0.
fn number(digits: &[u8]) -> Option<u32>
    ensures { result ≡ (if is_number digits.now then Some (digits_number 0 digits.now) else None) }
{
    if digits.is_empty() || digits[0] == b'0' || digits.len() > MOST_DIGITS {
        return None;
    }
    let mut number = 0u32;
    for byte in digits {
        if !byte.is_ascii_digit() {
            return None;
        }
        number = number * 10 + u32::from(*byte - b'0');
    }
    Some(number)
}

/// The number behind a front.
pub(crate) fn number_behind(front: &[u8], line: &[u8]) -> Option<u32>
    ensures some { IfSome result (λ n. IsNumber n × (line.now ≡ front.now ++ decimal n)) }
    ensures none { IfNone result (has_number front.now line.now ≡ false) }
    ensures is { IfSome result (λ n. has_number front.now line.now ≡ true) }
{
    match behind(front, line) {
        Some(digits) => number(digits),
        None => None,
    }
}
