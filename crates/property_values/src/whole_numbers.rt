//! Whole numbers.
ghost use Rattle.std.specs.Prelude.{◌≡◌, Some, None, if◌then◌else◌};
ghost use Rattle.graph_model.specs.WholeNumber.{are_digits, number_of, whole_above, whole_below, whole_of};

/// The most digits that a whole number has.
const MOST_DIGITS: usize = 19;

/// How far below zero the least whole number is; the greatest is one less above zero.
const FARTHEST: u64 = 1 << 63;

/// The whole number that a text writes: an optional `-` and one to nineteen digits, with a value in -2^63 to 2^63 - 1.
///
/// Leading zeros are read, and `-0` is 0. No other text is a whole number, as one with a `+`, a space or a twentieth digit.
pub fn read_whole(text: &str) -> Option<i64>
    ensures { result ≡ whole_of text.now }
{
    match text.as_bytes() {
        [] => None,
        [b'-', digits @ ..] => below_zero(digits),
        digits => above_zero(digits),
    }
}

/// The number that one to nineteen digits write.
fn number(digits: &[u8]) -> Option<u64>
    ensures { result ≡ (if are_digits digits.now then Some (number_of digits.now) else None) }
{
    if digits.is_empty() || digits.len() > MOST_DIGITS {
        return None;
    }
    let mut n = 0u64;
    for digit in digits {
        if !digit.is_ascii_digit() {
            return None;
        }
        n = n * 10 + u64::from(*digit - b'0');
    }
    Some(n)
}

/// The whole number that digits write behind a minus sign.
fn below_zero(digits: &[u8]) -> Option<i64>
    ensures { result ≡ whole_below digits.now }
{
    let n = number(digits)?;
    if n == FARTHEST {
        return Some(i64::MIN);
    }
    if n > FARTHEST {
        return None;
    }
    Some(-(n as i64))
}

/// The whole number that digits write with no sign.
fn above_zero(digits: &[u8]) -> Option<i64>
    ensures { result ≡ whole_above digits.now }
{
    let n = number(digits)?;
    if n >= FARTHEST {
        return None;
    }
    Some(n as i64)
}
