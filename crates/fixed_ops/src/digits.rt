// Runs of decimal digits.
ghost use Rattle.std.specs.Prelude.{◌≡◌, ◌+◌, ◌*◌, ◌^◌, ◌<◌, ◌≤◌, length, min, IfSome};
ghost use Rattle.std.specs.Char.{is_ascii_digit};
ghost use Rattle.std.specs.List.{prefix_len};
ghost use Rattle.fixed_ops.specs.Numerals.{digits_read, is_short};
ghost use Rattle.std.specs.Str.Parse.{AllDigits, digits_value, starts_with_minus as minus_first, without_leading_sign};

/// 2^30 in units of 10^-28. What is not less gives the greatest raw number.
pub(crate) const TOO_GREAT: u128 = 10_737_418_240_000_000_000_000_000_000_000_000_000;

// The text without the sign with which it begins.
#[inline]
pub(crate) fn without_sign(text: &[u8]) -> &[u8]
    ensures { result.now ≡ without_leading_sign text.now }
{
    match text {
        [b'-' | b'+', rest @ ..] => rest,
        _ => text,
    }
}

// Whether the text begins with a minus.
#[inline]
pub(crate) fn starts_with_minus(text: &[u8]) -> bool
    ensures { result ≡ minus_first text.now }
{
    matches!(text, [b'-', ..])
}

// How many digits the text begins with.
#[inline]
pub(crate) fn digit_count(text: &[u8]) -> usize
    ensures value { result ≡ prefix_len is_ascii_digit text.now }
    ensures within { result ≤ length text.now }
{
    for (i, byte) in text.iter().enumerate() {
        if !byte.is_ascii_digit() {
            return i;
        }
    }
    text.len()
}

// The number of at most 19 digits.
#[inline]
pub(crate) fn small_number(digits: &[u8]) -> u64
    requires digits { AllDigits 10 digits.now }
    requires len { length digits.now ≤ 19 }
    ensures { result ≡ digits_value 10 digits.now }
{
    let mut number = 0;
    for digit in digits {
        number = number * 10 + u64::from(*digit - b'0');
    }
    number
}

// The number of the digits after those of `front`, or TOO_GREAT if that is less.
pub(crate) fn number_after(front: u128, digits: &[u8]) -> u128
    requires front { front ≤ TOO_GREAT }
    requires digits { AllDigits 10 digits.now }
    ensures { result ≡ min (front * 10 ^ length digits.now + digits_value 10 digits.now) TOO_GREAT }
{
    let mut number = front;
    let mut rest = digits;
    while rest.len() > 19 {
        let (run, tail) = rest.split_at(19);
        number = number_after_few(number, run);
        rest = tail;
    }
    number_after_few(number, rest)
}

// The same of at most 19 digits.
#[inline]
fn number_after_few(front: u128, digits: &[u8]) -> u128
    requires front { front ≤ TOO_GREAT }
    requires digits { AllDigits 10 digits.now }
    requires len { length digits.now ≤ 19 }
    ensures { result ≡ min (front * 10 ^ length digits.now + digits_value 10 digits.now) TOO_GREAT }
{
    (with_zeros(front, digits.len()) + u128::from(small_number(digits))).min(TOO_GREAT)
}

/// The number that 1 to `most` decimal digits spell, and None where the text is something else.
pub fn read_digits(text: &[u8], most: usize) -> Option<u128>
    requires { most ≤ 37 }
    ensures value { result ≡ digits_read most text.now }
    ensures below { IfSome result (λ number. number < 10 ^ most) }
{
    if is_short_run(text, most) {
        Some(number_after(0, text))
    } else {
        None
    }
}

// Whether the text is 1 to `most` digits.
#[tactic(auto, using(crate::proofs::DigitLaws::all_digits_is))]
fn is_short_run(text: &[u8], most: usize) -> bool
    ensures { result ≡ is_short most text.now }
{
    !text.is_empty() && text.len() <= most && digit_count(text) == text.len()
}

// The number with zeros after its digits, or TOO_GREAT if that is less.
#[tactic(auto, using(crate::proofs::DigitLaws::small_power, crate::proofs::DigitLaws::many_zeros))]
pub(crate) fn with_zeros(number: u128, zeros: usize) -> u128
    requires { number ≤ TOO_GREAT }
    ensures { result ≡ min (number * 10 ^ zeros) TOO_GREAT }
{
    if number == 0 {
        0
    } else if zeros >= 38 {
        TOO_GREAT
    } else {
        number
            .saturating_mul(10u128.pow(zeros as u32))
            .min(TOO_GREAT)
    }
}
