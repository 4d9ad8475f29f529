//! Numbers in decimal digits.
ghost use Rattle.std.specs.Prelude.{◌≡◌, ◌<◌, ◌^◌, min};
ghost use Rattle.std.specs.List.{list_all};
ghost use Rattle.sm_model.specs.Digits.{is_digit, decimal_from, number_of, wide_number_of};

// The number that decimal digits write, or 2^64 where it is greater.
fn wide_decimal(digits: &[u8]) -> u128
    ensures { result ≡ min (decimal_from 0 digits.now) (2 ^ 64) }
{
    let mut number: u128 = 0;
    for digit in digits {
        let next = 10 * number + digit.saturating_sub(b'0') as u128;
        number = next.min(1 << 64);
    }
    number
}

/// The number that decimal digits write, or `most` where it is greater.
pub fn decimal_up_to(digits: &[u8], most: u64) -> u64
    ensures { result ≡ min (decimal_from 0 digits.now) most }
{
    wide_decimal(digits).min(most as u128) as u64
}

/// Whether each byte is a decimal digit.
pub fn are_digits(text: &[u8]) -> bool
    ensures { result ≡ list_all is_digit text.now }
{
    text.iter().all(|c| 48 <= *c && *c <= 57)
}

/// The number that a text of 1 to 10 decimal digits writes, where it is below 2^32. Leading zeros are allowed.
#[tactic(auto, unfolding(crate::specs::Digits::is_number, crate::specs::Digits::number_of))]
pub fn number_of(text: &[u8]) -> Option<u32>
    ensures { result ≡ number_of text.now }
{
    if text.is_empty() || text.len() > 10 || !are_digits(text) {
        return None;
    }
    let number = decimal_up_to(text, 4294967296);
    if number < 4294967296 {
        Some(number as u32)
    } else {
        None
    }
}

/// The number that a text of 1 to 20 decimal digits writes, where it is below 2^64. Leading zeros are allowed.
#[tactic(auto, unfolding(crate::specs::Digits::is_wide_number, crate::specs::Digits::wide_number_of))]
pub fn wide_number_of(text: &[u8]) -> Option<u64>
    ensures { result ≡ wide_number_of text.now }
{
    if text.is_empty() || text.len() > 20 || !are_digits(text) {
        return None;
    }
    let number = wide_decimal(text);
    if number < 18446744073709551616 {
        Some(number as u64)
    } else {
        None
    }
}
