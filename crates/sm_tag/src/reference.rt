//! References in values.
ghost use Rattle.std.specs.Prelude.{◌≡◌, ◌≤◌, ℕ, List, Result, length, IfOk};
ghost use Rattle.sm_tag.specs.TagParts.{Stop, or_else, entity_at, number_end, number_at, reference_at};
ghost use Rattle.sm_tag.specs.Reads.{Gives};

use crate::halt::Halt;
use crate::scan::{Class, byte_of, split, word_of};
use sm_model::decimal_up_to;

// What was found, or else the character that this word stands for.
#[tactic(auto, unfolding(crate::specs::TagParts::entity_at))]
fn named_or<'a>(
    found: Result<(char, &'a [u8]), Halt>,
    word: &[u8],
    c: char,
    bytes: &'a [u8],
) -> Result<(char, &'a [u8]), Halt>
    ensures read { (r : Result (ℕ × List ℕ) Stop) → Gives (λ x. (x.0, x.1.now)) found.entry r →
        Gives (λ x. (x.0, x.1.now)) result (or_else r (entity_at word.now c bytes.now)) }
    ensures shorter { IfOk found.entry (λ x. length x.1.now ≤ length bytes.now) → IfOk result (λ x. length x.1.now ≤ length bytes.now) }
{
    match found {
        Err(Halt::Wrong) => Ok((c, word_of(word, bytes)?)),
        other => other,
    }
}

#[tactic(auto, unfolding(crate::specs::TagParts::number_end))]
fn number_end_of<'a>(digits: &[u8], rest: &'a [u8]) -> Result<(char, &'a [u8]), Halt>
    ensures read { Gives (λ x. (x.0, x.1.now)) result (number_end digits.now rest.now) }
    ensures shorter { IfOk result (λ x. length x.1.now ≤ length rest.now) }
{
    match (digits, rest) {
        (_, []) => Err(Halt::Short),
        ([], _) => Err(Halt::Wrong),
        (_, [c, others @ ..]) => {
            if *c != b';' {
                return Err(Halt::Wrong);
            }
            match char::from_u32(decimal_up_to(digits, 1114112) as u32) {
                Some(number) => Ok((number, others)),
                None => Err(Halt::Wrong),
            }
        }
    }
}

#[tactic(auto, unfolding(crate::specs::TagParts::number_at))]
fn number_of(bytes: &[u8]) -> Result<(char, &[u8]), Halt>
    ensures read { Gives (λ x. (x.0, x.1.now)) result (number_at bytes.now) }
    ensures shorter { IfOk result (λ x. length x.1.now ≤ length bytes.now) }
{
    let rest = byte_of(b'#', bytes)?;
    let (digits, rest) = split(Class::Digit, rest);
    number_end_of(digits, rest)
}

// What was found, or else the character whose number stands here.
fn number_or<'a>(
    found: Result<(char, &'a [u8]), Halt>,
    bytes: &'a [u8],
) -> Result<(char, &'a [u8]), Halt>
    ensures read { (r : Result (ℕ × List ℕ) Stop) → Gives (λ x. (x.0, x.1.now)) found.entry r
        → Gives (λ x. (x.0, x.1.now)) result (or_else r (number_at bytes.now)) }
    ensures shorter { IfOk found.entry (λ x. length x.1.now ≤ length bytes.now) → IfOk result (λ x. length x.1.now ≤ length bytes.now) }
{
    match found {
        Err(Halt::Wrong) => number_of(bytes),
        other => other,
    }
}

/// Behind `&`: the character that a reference stands for, and what is behind it.
pub fn reference_of(bytes: &[u8]) -> Result<(char, &[u8]), Halt>
    ensures read { Gives (λ x. (x.0, x.1.now)) result (reference_at bytes.now) }
    ensures shorter { IfOk result (λ x. length x.1.now ≤ length bytes.now) }
{
    let found = named_or(Err(Halt::Wrong), b"lt;", '<', bytes);
    let found = named_or(found, b"gt;", '>', bytes);
    let found = named_or(found, b"amp;", '&', bytes);
    let found = named_or(found, b"quot;", '"', bytes);
    let found = named_or(found, b"apos;", '\'', bytes);
    number_or(found, bytes)
}
