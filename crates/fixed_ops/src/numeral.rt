// Numerals, read to raw numbers.
ghost use Rattle.std.specs.Prelude.{◌≡◌, ◌+◌, ◌+ℤ◌, ◌*◌, ◌/◌, ◌^◌, ◌<◌, ◌≤◌, ◌++◌, length, nat_lt, pos, min, if◌then◌else◌, drop, unsigned_abs, ◌↔◌, IfOk, IfSome, IsOk};
ghost use Rattle.std.specs.Result.{result_ok};
ghost use Rattle.std.specs.Str.Parse.{AllDigits, digits_value, signed_digits_value};
ghost use Rattle.fixed_ops.specs.Numerals.{after_point_digits, cut_magnitude, is_exponent, is_short, is_unsigned_numeral, nearest_raw, numeral, point_digits, unsigned_raw};
ghost use Rattle.fixed_ops.specs.Raw.{IsRaw};
ghost use Rattle.fixed_ops.specs.Spelling.{IsSpelling, Spelling, spelled};
ghost use Rattle.fixed_ops.specs.declared.digits.TheConstants.{TOO_GREAT};

use crate::Fx;
use crate::digits::{
    digit_count, number_after, read_digits, small_number, starts_with_minus, with_zeros,
    without_sign,
};
use thiserror::Error;

/// A token that is no numeral.
#[derive(Clone, Copy, Debug, PartialEq, Eq, Error)]
#[error("not a numeral")]
pub struct BadNumeral;

/// The number that a numeral means. BadNumeral comes exactly where the token is no numeral.
#[tactic(auto, using(crate::proofs::SpellingLaws::accepts_spelled))]
pub fn read_numeral(token: &[u8]) -> Result<Fx, BadNumeral>
    ensures value { result_ok result ≡ numeral token.now }
    ensures spelled { IsOk result ↔ ((s : Spelling) × IsSpelling s × (spelled s ≡ token.now)) }
{
    match read_raw(token) {
        Ok(v) => Ok(Fx::from_raw(v)),
        Err(e) => Err(e),
    }
}

/// The raw number of the number that a numeral means. BadNumeral comes exactly where the token is no numeral.
#[tactic(auto, using(crate::proofs::SpellingLaws::accepts_spelled))]
pub fn read_raw(token: &[u8]) -> Result<i64, BadNumeral>
    ensures value { result_ok result ≡ numeral token.now }
    ensures spelled { IsOk result ↔ ((s : Spelling) × IsSpelling s × (spelled s ≡ token.now)) }
    ensures raw { IfOk result IsRaw }
{
    signed_value(token).ok_or(BadNumeral)
}

// The raw number of a numeral, and None where the token is none.
fn signed_value(token: &[u8]) -> Option<i64>
    ensures value { result ≡ numeral token.now }
    ensures raw { IfSome result IsRaw }
{
    match read_unsigned(without_sign(token)) {
        Some(size) => Some(if starts_with_minus(token) {
            -size
        } else {
            size
        }),
        None => None,
    }
}

// The raw number of a numeral without a sign, and None where the text is none.
fn read_unsigned(text: &[u8]) -> Option<i64>
    ensures value { result ≡ (if is_unsigned_numeral text.now then Some
        (pos (unsigned_raw text.now)) else None) }
    ensures raw { IfSome result IsRaw }
{
    let (whole, rest) = text.split_at(digit_count(text));
    let (fraction, tail) = split_fraction(rest);
    if !has_digits(whole, fraction) {
        return None;
    }
    match read_exponent(tail) {
        Some(exponent) => Some(raw_size(whole, fraction, exponent)),
        None => None,
    }
}

// Whether one of the two texts is not empty.
#[inline]
fn has_digits(whole: &[u8], fraction: &[u8]) -> bool
    ensures { result ≡ nat_lt 0 (length (whole.now ++ fraction.now)) }
{
    !(whole.is_empty() && fraction.is_empty())
}

// The digits after the point with which the text begins, and what follows them.
#[inline]
fn split_fraction(text: &[u8]) -> (&[u8], &[u8])
    ensures digits { result.0.now ≡ point_digits text.now }
    ensures tail { result.1.now ≡ after_point_digits text.now }
{
    match text {
        [b'.', rest @ ..] => rest.split_at(digit_count(rest)),
        _ => (&[], text),
    }
}

// The exponent that the text spells, 0 where it is empty, and None where it spells none.
fn read_exponent(text: &[u8]) -> Option<i32>
    ensures value { result ≡ (if is_exponent text.now then Some
        (signed_digits_value 10 (drop 1 text.now)) else None) }
    ensures size { IfSome result (λ e. unsigned_abs e < 1000) }
{
    match text {
        [] => Some(0),
        [b'e' | b'E', signed @ ..] => match exponent_size(without_sign(signed)) {
            Some(size) => Some(if starts_with_minus(signed) {
                -size
            } else {
                size
            }),
            None => None,
        },
        _ => None,
    }
}

// The number that one to three digits spell, and None where the text is something else.
fn exponent_size(text: &[u8]) -> Option<i32>
    ensures value { result ≡ (if is_short 3 text.now then Some (pos (digits_value 10 text.now))
        else None) }
    ensures size { IfSome result (λ n. unsigned_abs n < 1000) }
{
    match read_digits(text, 3) {
        Some(size) => Some(size as i32),
        None => None,
    }
}

// The raw number of the digits with this exponent.
#[inline]
fn raw_size(whole: &[u8], fraction: &[u8], exponent: i32) -> i64
    requires whole { AllDigits 10 whole.now }
    requires fraction { AllDigits 10 fraction.now }
    requires exponent { unsigned_abs exponent < 1000 }
    ensures value { result ≡ pos (nearest_raw (cut_magnitude whole.now fraction.now exponent)) }
    ensures raw { IsRaw result }
{
    if exponent == 0 && whole.len() <= 10 && fraction.len() <= 13 {
        short_size(whole, fraction)
    } else {
        nearest(magnitude(whole, fraction, exponent))
    }
}

// The raw number of few digits without an exponent.
fn short_size(whole: &[u8], fraction: &[u8]) -> i64
    requires whole { AllDigits 10 whole.now }
    requires fraction { AllDigits 10 fraction.now }
    requires whole_len { length whole.now ≤ 10 }
    requires fraction_len { length fraction.now ≤ 13 }
    ensures value { result ≡ pos (nearest_raw (cut_magnitude whole.now fraction.now (pos 0))) }
    ensures raw { IsRaw result }
{
    let units = small_number(whole);
    if units < 1 << 30 {
        (units * (1 << 32) + nearest_fraction(fraction)).min(Fx::MAX_RAW as u64) as i64
    } else {
        Fx::MAX_RAW
    }
}

// The number of 2^-32 nearest to few digits after the point. With d digits it is the number n of the digits by
// 2^32 / 10^d, which comes to (n * 2^(33 - d) + 5^d) / (2 * 5^d) rounded down.
fn nearest_fraction(digits: &[u8]) -> u64
    requires digits { AllDigits 10 digits.now }
    requires len { length digits.now ≤ 13 }
    ensures value { result
        ≡ (2 * digits_value 10 digits.now * 2 ^ 32 + 10 ^ length digits.now) / (2 * 10 ^ length digits.now) }
    ensures bound { result ≤ 2 ^ 32 }
{
    let places = digits.len() as u32;
    let fives = 5u64.pow(places);
    ((small_number(digits) << (33 - places)) + fives) / (2 * fives)
}

// The number of the digits with this exponent, in units of 10^-28, rounded down, or TOO_GREAT if that is less.
fn magnitude(whole: &[u8], fraction: &[u8], exponent: i32) -> u128
    requires whole { AllDigits 10 whole.now }
    requires fraction { AllDigits 10 fraction.now }
    requires exponent { unsigned_abs exponent < 1000 }
    ensures { result ≡ min (cut_magnitude whole.now fraction.now exponent) TOO_GREAT }
{
    let places = kept_places(exponent);
    if places < 0 {
        without_last(whole, places.unsigned_abs() as usize)
    } else {
        cut_after(whole, fraction, places as usize)
    }
}

// How many digits after the written point are kept. Of the number, 28 decimal places are.
#[inline]
fn kept_places(exponent: i32) -> i32
    requires { unsigned_abs exponent < 1000 }
    ensures { result ≡ exponent +ℤ pos 28 }
{
    exponent + 28
}

// The number of the digits without so many of the last ones, or TOO_GREAT if that is less.
fn without_last(digits: &[u8], dropped: usize) -> u128
    requires { AllDigits 10 digits.now }
    ensures { result ≡ min (digits_value 10 digits.now / 10 ^ dropped) TOO_GREAT }
{
    number_after(0, &digits[..digits.len().saturating_sub(dropped)])
}

// The number of the digits with so many of them after the point, or TOO_GREAT if that is less.
fn cut_after(whole: &[u8], fraction: &[u8], places: usize) -> u128
    requires whole { AllDigits 10 whole.now }
    requires fraction { AllDigits 10 fraction.now }
    ensures { result
        ≡ min (digits_value 10 (whole.now ++ fraction.now) * 10 ^ places / 10 ^ length fraction.now) TOO_GREAT }
{
    let number = number_after(0, whole);
    if places < fraction.len() {
        number_after(number, &fraction[..places])
    } else {
        with_zeros(number_after(number, fraction), places - fraction.len())
    }
}

// The raw number nearest to a number of units of 10^-28.
fn nearest(magnitude: u128) -> i64
    requires { magnitude ≤ TOO_GREAT }
    ensures value { result ≡ pos (nearest_raw magnitude) }
    ensures raw { IsRaw result }
{
    let whole = magnitude / UNITS;
    let rest = magnitude - whole * UNITS;
    let size = (whole << 32) + nearest_part(rest);
    size.min(Fx::MAX_RAW as u128) as i64
}

// The number of 2^-32 nearest to a number of units of 10^-28 below 1, the greater of two that are as near.
#[inline]
fn nearest_part(rest: u128) -> u128
    requires { rest < 10 ^ 28 }
    ensures { result ≡ (2 * rest * 2 ^ 32 + 10 ^ 28) / (2 * 10 ^ 28) }
{
    ((rest << 33) + UNITS) / (2 * UNITS)
}

// The units of 10^-28 that make 1.
const UNITS: u128 = 10_000_000_000_000_000_000_000_000_000;
