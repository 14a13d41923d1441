//! Whole and real numbers.

ghost use Rattle.std.specs.Prelude.{◌≡◌, ◌<◌, ◌≤◌, ◌^◌, IfSome, IfNone, length, pos};
ghost use Rattle.std.specs.List.{prefix_len};
ghost use Rattle.std.specs.Char.{is_ascii_digit};
ghost use Rattle.ar_lexer.specs.Spelling.{IsFraction, IsExponent, IsTail, AllPass, number_of};
ghost use Rattle.ar_lexer.specs.Scans.{IsLongestFront, sign_len};

use crate::runs::digits_len;

// The greatest whole number, 2^63 - 1.
const GREATEST: u64 = 9_223_372_036_854_775_807;

// How many bytes at the front are a fraction, an exponent or both: 0 where none stands there.
pub fn tail_len(bytes: &[u8]) -> usize
    ensures { IsLongestFront IsTail bytes.now result }
{
    let fraction = fraction_len(bytes);
    let exponent = exponent_len(&bytes[fraction..]);
    fraction + exponent
}

// How many bytes at the front are a fraction: 0 where none stands there.
fn fraction_len(bytes: &[u8]) -> usize
    ensures { IsLongestFront IsFraction bytes.now result }
{
    let Some((mark, rest)) = bytes.split_first() else {
        return 0;
    };
    if *mark != b'.' {
        return 0;
    }
    let digits = digits_len(rest);
    if digits == 0 { 0 } else { 1 + digits }
}

// How many bytes at the front are `+` or `-`: 1 or 0.
fn sign_len(bytes: &[u8]) -> usize
    ensures value { result ≡ sign_len bytes.now }
    ensures within { result ≤ length bytes.now }
{
    match bytes.first() {
        Some(sign) => { if *sign == b'+' || *sign == b'-' { 1 } else { 0 } }
        None => 0,
    }
}

// How many bytes at the front are an exponent: 0 where none stands there.
fn exponent_len(bytes: &[u8]) -> usize
    ensures { IsLongestFront IsExponent bytes.now result }
{
    let Some((mark, rest)) = bytes.split_first() else {
        return 0;
    };
    if *mark != b'e' && *mark != b'E' {
        return 0;
    }
    let sign = sign_len(rest);
    let digits = digits_len(&rest[sign..]);
    if digits == 0 { 0 } else { 1 + sign + digits }
}

// The number that the digits stand for, if it is at most 2^63 - 1.
pub fn whole_of(digits: &[u8]) -> Option<i64>
    requires { AllPass is_ascii_digit digits.now }
    ensures found { IfSome result (λ n. n ≡ pos (number_of digits.now)) }
    ensures fits { IfSome result (λ n. number_of digits.now < 2 ^ 63) }
    ensures none { IfNone result (2 ^ 63 ≤ number_of digits.now) }
{
    let mut number = 0u64;
    for digit in digits {
        let value = u64::from(*digit - b'0');
        if number > (GREATEST - value) / 10 {
            return None;
        }
        number = 10 * number + value;
    }
    Some(number as i64)
}
