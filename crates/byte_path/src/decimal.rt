ghost use Rattle.std.specs.Prelude.{◌≡◌, ◌+◌, ◌*◌, ◌<◌, ◌≤◌, ◌^◌, ℕ, Some};
ghost use Rattle.std.specs.Char.{digit_value, is_ascii_digit};
ghost use Rattle.std.specs.Fmt.{decimal};
ghost use Rattle.std.specs.Int.{IsInRange};
ghost use Rattle.std.specs.List.{list_all};
ghost use Rattle.std.specs.Option.{SomeIff};
ghost use Rattle.byte_path.specs.Decimal.{is_decimal, decimal_within, OneDecimal};

/// Whether each byte is a digit.
fn all_digits(text: &[u8]) -> bool
    ensures { result ≡ list_all is_ascii_digit text.now }
{
    text.iter().all(|b| b.is_ascii_digit())
}

/// Whether a text is one or more digits without a leading zero, such as `0` and `10`. It takes no memory.
pub fn is_decimal(text: &[u8]) -> bool
    ensures { result ≡ is_decimal text.now }
{
    !text.is_empty() && all_digits(text) && (text.len() == 1 || text[0] != b'0')
}

/// The number with one more digit at its end, or `None` if that takes more than 64 bits.
fn with_digit(number: u64, digit: u8) -> Option<u64>
    requires { IsInRange 48 57 digit }
    ensures { SomeIff result (number * 10 + digit_value digit < 2 ^ 64) (number * 10 + digit_value digit) }
{
    number.checked_mul(10)?.checked_add(u64::from(digit - b'0'))
}

/// The number of a decimal, or `None` if the text isn't a decimal or its number is above `most`.
///
/// The text may be of any length. It takes no memory.
pub fn read_decimal(text: &[u8], most: u64) -> Option<u64>
    ensures { result ≡ decimal_within text.now most }
{
    if !is_decimal(text) {
        return None;
    }
    let mut number = 0;
    for digit in text {
        match with_digit(number, *digit) {
            Some(longer) => number = longer,
            None => return None,
        }
    }
    if number <= most { Some(number) } else { None }
}

/// The law that the decimal of a number is read as that number. It does nothing.
pub fn decimal_reads_back(number: u64, most: u64)
    requires { number ≤ most }
    ensures { decimal_within (decimal number) most ≡ Some number }
{}

/// The law that a text which is read as a number is the decimal of that number. It does nothing.
pub fn number_has_one_decimal(text: &[u8], most: u64)
    ensures { (number : ℕ) → decimal_within text.now most ≡ Some number → text.now ≡ decimal number }
{}

/// The law that each number of 64 bits has one decimal. It does nothing.
pub fn one_decimal()
    ensures { OneDecimal }
{}
