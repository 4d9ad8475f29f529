//! Times in a target.
ghost use Rattle.std.specs.Prelude.{◌≡◌, ◌≤◌, length};
ghost use Rattle.sm_model.specs.Digits.{decimal_from};
ghost use Rattle.sm_addr.specs.Times as spec;

use sm_model::are_digits;

// The number that at most 20 digits write.
fn number_in(digits: &[u8]) -> u128
    requires { length digits.now ≤ 20 }
    ensures { result ≡ decimal_from 0 digits.now }
{
    let mut number: u128 = 0;
    for digit in digits {
        number = 10 * number + digit.saturating_sub(b'0') as u128;
    }
    number
}

/// The number that a text of 1 to 20 decimal digits writes, where it is below 2^64. Leading zeros are allowed.
#[tactic(auto, unfolding(crate::specs::Times::is_time, crate::specs::Times::time_of))]
pub fn time_of(text: &[u8]) -> Option<u64>
    ensures { result ≡ spec.time_of text.now }
{
    if text.is_empty() || text.len() > 20 || !are_digits(text) {
        return None;
    }
    let number = number_in(text);
    if number < 18446744073709551616 {
        Some(number as u64)
    } else {
        None
    }
}
