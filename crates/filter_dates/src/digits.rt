//! Numbers of a fixed number of digits.
ghost use Rattle.std.specs.Prelude.{◌≡◌, ◌-◌, ◌*◌, ◌^◌, ◌<◌, ◌≤◌, length, IfSome};
ghost use Rattle.std.specs.Int.{IsInRange};
ghost use Rattle.liquid_dates.specs.meaning.Flags.{is_digit};
ghost use Rattle.filter_dates.specs.meaning.Digits as Spec;

/// Returns `true` if a byte is one of `0` to `9`.
pub(crate) fn is_digit(byte: u8) -> bool
    ensures { result ≡ is_digit byte }
{
    byte >= b'0' && byte <= b'9'
}

/// Returns the number of two digits.
pub(crate) fn two_digits(tens: u8, ones: u8) -> Option<u8>
    ensures value { result ≡ Spec.two_digits tens ones }
    ensures bound { IfSome result (λ n. n < 100) }
{
    if !is_digit(tens) || !is_digit(ones) {
        return None;
    }
    Some(10 * (tens - b'0') + (ones - b'0'))
}

/// Returns the number of two digits, if it is below 60.
pub(crate) fn sixtieths(tens: u8, ones: u8) -> Option<u8>
    ensures value { result ≡ Spec.sixtieths tens ones }
    ensures bound { IfSome result (λ n. n < 60) }
{
    if !is_digit(tens) || !is_digit(ones) || tens > b'5' {
        return None;
    }
    Some(10 * (tens - b'0') + (ones - b'0'))
}

/// Returns the number of one or two digits.
pub(crate) fn short_number(text: &[u8]) -> Option<u8>
    ensures { result ≡ Spec.short_number text.now }
{
    match text {
        [ones] => two_digits(b'0', *ones),
        [tens, ones] => two_digits(*tens, *ones),
        _ => None,
    }
}

/// Returns the number of four digits.
pub(crate) fn four_digits(text: &[u8]) -> Option<u16>
    ensures { result ≡ Spec.four_digits text.now }
{
    match text {
        [a, b, c, d] => {
            let century = two_digits(*a, *b)?;
            let year = two_digits(*c, *d)?;
            Some(100 * u16::from(century) + u16::from(year))
        }
        _ => None,
    }
}

/// Returns one to nine digits of a fraction, in units of the ninth.
pub(crate) fn ninths_place(digits: &[u8]) -> Option<u32>
    ensures { result ≡ Spec.ninths_place digits.now }
{
    let count = digits.len();
    if count < 1 || count > 9 {
        return None;
    }
    let number = all_digits(digits)?;
    Some(in_ninths(count, number))
}

/// Returns the number that these digits write, if they are digits.
#[tactic(auto, unfolding(liquid_dates::specs::meaning::Flags::digits_number))]
fn all_digits(digits: &[u8]) -> Option<u64>
    requires { length digits.now ≤ 9 }
    ensures value { result ≡ Spec.all_digits digits.now }
    ensures bound { IfSome result (λ n. n < 10 ^ length digits.now) }
{
    let mut number = 0u64;
    for digit in digits {
        if !is_digit(*digit) {
            return None;
        }
        number = number * 10 + u64::from(*digit - b'0');
    }
    Some(number)
}

fn in_ninths(count: usize, number: u64) -> u32
    requires within { IsInRange 1 9 count }
    requires small { number < 10 ^ count }
    ensures { result ≡ number * 10 ^ (9 - count) }
{
    let unit = match count {
        1 => 100_000_000,
        2 => 10_000_000,
        3 => 1_000_000,
        4 => 100_000,
        5 => 10_000,
        6 => 1_000,
        7 => 100,
        8 => 10,
        _ => 1,
    };
    (number * unit) as u32
}
