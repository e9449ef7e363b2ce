//! Numbers.
ghost use Rattle.std.specs.Prelude.{◌≡◌, ◌≤◌, ◌<◌, ◌^◌, length, position, not, IfSome, take, true, ◌+◌, ◌*◌};
ghost use Rattle.std.specs.Char.{digit_value, is_ascii_digit};
ghost use Rattle.std.specs.Int.{IsInRange};
ghost use Rattle.std.specs.List.{list_all, prefix_len};
ghost use Rattle.std.specs.Str.Parse.{digits_value};
ghost use Rattle.settings_view.specs.Number.{unit_at, factor_of, is_short, size_from, size_of, signed};
ghost use Rattle.settings_view.specs.Number.{number_text, number_of, workers_of, threshold_of};

use byte_path::Bytes;

/// A whole number as its sign and its size.
#[derive(Clone, Copy)]
pub struct Number {
    negative: bool,
    size: u128,
}

fn unit_at(byte: u8) -> Option<u64>
    ensures value { result ≡ unit_at byte }
    ensures within { IfSome result (λ n. n ≤ 1073741824) }
{
    match byte {
        b'k' => Some(1024),
        b'm' => Some(1024 * 1024),
        b'g' => Some(1024 * 1024 * 1024),
        _ => None,
    }
}

/// The factor that the text after the digits stands for.
fn factor_of(rest: &[u8]) -> Option<u64>
    ensures value { result ≡ factor_of rest.now }
    ensures within { IfSome result (λ n. n ≤ 1073741824) }
{
    match rest {
        [] => Some(1),
        [unit] => unit_at(unit.to_ascii_lowercase()),
        _ => None,
    }
}

fn digits_end(text: &[u8]) -> Option<usize>
    ensures value { result ≡ position (λ b. not (is_ascii_digit b)) text.now }
    ensures within { IfSome result (λ n. n ≤ length text.now) }
{
    text.iter().position(|b| !b.is_ascii_digit())
}

/// How many digits a text begins with.
fn digits_len(text: &[u8]) -> usize
    ensures value { result ≡ prefix_len is_ascii_digit text.now }
    ensures within { result ≤ length text.now }
    ensures digits { list_all is_ascii_digit (take result text.now) ≡ true }
{
    digits_end(text).unwrap_or(text.len())
}

/// The number with one more digit at its end.
fn with_digit(number: u64, digit: u8) -> u64
    requires digit { IsInRange 48 57 digit }
    requires fits { number * 10 + digit_value digit < 2 ^ 64 }
    ensures { result ≡ number * 10 + digit_value digit }
{
    number * 10 + u64::from(digit - b'0')
}

/// The number of up to 18 digits, leading zeros included.
fn value_of(digits: &[u8]) -> u64
    requires digits { list_all is_ascii_digit digits.now ≡ true }
    requires few { length digits.now ≤ 18 }
    ensures value { result ≡ digits_value 10 digits.now }
    ensures within { result < 10 ^ 18 }
{
    let mut value = 0;
    for digit in digits {
        value = with_digit(value, *digit);
    }
    value
}

/// The size that digits give with a unit or nothing after them, or `None` if they give none.
fn size_from(digits: &[u8], rest: &[u8]) -> Option<u128>
    requires { list_all is_ascii_digit digits.now ≡ true }
    ensures { result ≡ size_from digits.now rest.now }
{
    if digits.is_empty() || digits.len() > 18 {
        return None;
    }
    let factor = factor_of(rest)?;
    Some(u128::from(value_of(digits)) * u128::from(factor))
}

fn size_of(text: &[u8]) -> Option<u128>
    ensures { result ≡ size_of text.now }
{
    let (digits, rest) = text.split_at(digits_len(text));
    size_from(digits, rest)
}

fn signed(negative: bool, text: &[u8]) -> Option<Number>
    ensures { result ≡ signed negative (size_of text.now) }
{
    let size = size_of(text)?;
    Some(Number { negative, size })
}

fn number_text(text: &[u8]) -> Option<Number>
    ensures { result ≡ number_text text.now }
{
    match text {
        [b'-', size @ ..] => signed(true, size),
        _ => signed(false, text),
    }
}

/// A number: `-` or nothing, 1 to 18 digits, and k, m, g or nothing.
pub fn number_of(value: &Option<Bytes>) -> Option<Number>
    ensures { result ≡ number_of value.now }
{
    match value {
        Some(text) => number_text(text.as_slice()),
        None => None,
    }
}

/// How many workers a number asks for.
pub fn workers_of(number: Number) -> u32
    ensures { result ≡ workers_of number }
{
    if number.negative || number.size == 0 {
        8
    } else if number.size > 16 {
        16
    } else {
        number.size as u32
    }
}

/// The threshold that a number asks for.
pub fn threshold_of(number: Number) -> u64
    ensures { result ≡ threshold_of number }
{
    if number.negative {
        return 0;
    }
    u64::try_from(number.size).unwrap_or(u64::MAX)
}
