//! The numbers among the words.
ghost use Rattle.std.specs.Prelude.{◌≡◌, ◌<◌, ◌≤◌, ◌^◌, IfSome};
ghost use Rattle.sm_words.specs.Words.{numeral};

use sm_model::{are_digits, decimal_up_to};

/// The number that a word writes, if it writes one in these bounds.
#[tactic(auto, unfolding(crate::specs::Words::numeral))]
pub fn number(word: &str, low: u64, high: u64) -> Option<u64>
    requires { high < 2 ^ 63 }
    ensures value { result ≡ numeral low high word.now }
    ensures below { IfSome result (λ n. n ≤ high) }
{
    let digits = word.as_bytes();
    if digits.is_empty() || digits.len() > 19 || !are_digits(digits) {
        return None;
    }
    let value = decimal_up_to(digits, high + 1);
    if low <= value && value <= high {
        Some(value)
    } else {
        None
    }
}
