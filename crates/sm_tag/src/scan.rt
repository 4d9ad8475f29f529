//! Runs of bytes, names and fixed words.
ghost use Rattle.std.specs.Prelude.{◌≡◌, ◌<◌, ◌≤◌, ◌+◌, length, IfOk};
ghost use Rattle.sm_tag.specs.TagBytes.{is_tag_start, prefix, remaining};
ghost use Rattle.sm_tag.specs.TagParts.{name_at, byte_at, word_at};
ghost use Rattle.sm_tag.specs.TagMarkup.{past_word};
ghost use Rattle.sm_tag.specs.Reads.{is_of, Gives};

use crate::halt::Halt;

/// A class of bytes.
#[derive(Clone, Copy, Debug, PartialEq, Eq)]
pub enum Class {
    /// White space: space, tab, CR, LF.
    Space,
    /// What a name holds behind its first byte.
    Name,
    Digit,
    /// All but `<`.
    Text,
}

fn is_tag_start(c: u8) -> bool
    ensures { result ≡ is_tag_start c }
{
    97 <= c && c <= 122 || 65 <= c && c <= 90 || c == 95
}

fn is_digit(c: u8) -> bool
    ensures { result ≡ is_of Class.Digit c }
{
    48 <= c && c <= 57
}

fn is_of(class: Class, c: u8) -> bool
    ensures { result ≡ is_of class c }
{
    match class {
        Class::Space => c == 32 || c == 9 || c == 13 || c == 10,
        Class::Name => is_tag_start(c) || is_digit(c) || c == 45 || c == 46 || c == 58,
        Class::Digit => is_digit(c),
        Class::Text => c != b'<',
    }
}

/// The longest front of bytes of a class, and what is behind it.
pub fn split(class: Class, bytes: &[u8]) -> (&[u8], &[u8])
    ensures prefix { result.0.now ≡ prefix (is_of class) bytes.now }
    ensures remaining { result.1.now ≡ remaining (is_of class) bytes.now }
    ensures parts { length result.0.now + length result.1.now ≡ length bytes.now }
{
    let mut end = 0;
    while end < bytes.len() && is_of(class, bytes[end]) {
        end += 1;
    }
    bytes.split_at(end)
}

/// What is behind white space.
pub fn skip_spaces(bytes: &[u8]) -> &[u8]
    ensures rest { result.now ≡ remaining (is_of Class.Space) bytes.now }
    ensures shorter { length result.now ≤ length bytes.now }
{
    let (_, rest) = split(Class::Space, bytes);
    rest
}

/// A name, and what is behind it.
#[tactic(auto, unfolding(crate::specs::TagParts::name_at))]
pub fn name_of(bytes: &[u8]) -> Result<(&[u8], &[u8]), Halt>
    ensures read { Gives (λ x. (x.0.now, x.1.now)) result (name_at bytes.now) }
    ensures shorter { IfOk result (λ x. length x.1.now ≤ length bytes.now) }
{
    match bytes {
        [] => Err(Halt::Short),
        [first, ..] => {
            if is_tag_start(*first) {
                Ok(split(Class::Name, bytes))
            } else {
                Err(Halt::Wrong)
            }
        }
    }
}

/// What is behind this byte.
pub fn byte_of(byte: u8, bytes: &[u8]) -> Result<&[u8], Halt>
    ensures read { Gives (λ x. x.now) result (byte_at byte bytes.now) }
    ensures shorter { IfOk result (λ x. length x.now < length bytes.now) }
{
    match bytes {
        [] => Err(Halt::Short),
        [first, others @ ..] => {
            if *first == byte {
                Ok(others)
            } else {
                Err(Halt::Wrong)
            }
        }
    }
}

/// What is behind this word.
#[tactic(auto, unfolding(crate::specs::TagParts::word_at))]
pub fn word_of<'a>(word: &[u8], bytes: &'a [u8]) -> Result<&'a [u8], Halt>
    ensures read { Gives (λ x. x.now) result (word_at word.now bytes.now) }
    ensures shorter { IfOk result (λ x. length x.now ≤ length bytes.now) }
{
    if bytes.starts_with(word) {
        Ok(&bytes[word.len()..])
    } else if word.starts_with(bytes) {
        Err(Halt::Short)
    } else {
        Err(Halt::Wrong)
    }
}

/// What is behind the first such word.
#[tactic(auto, unfolding(crate::specs::TagMarkup::past_word))]
pub fn past_of<'a>(word: &[u8], bytes: &'a [u8]) -> Result<&'a [u8], Halt>
    ensures read { Gives (λ x. x.now) result (past_word word.now bytes.now) }
    ensures shorter { IfOk result (λ x. length x.now ≤ length bytes.now) }
{
    let mut rest = bytes;
    while let [_, others @ ..] = rest {
        if rest.starts_with(word) {
            return Ok(&rest[word.len()..]);
        }
        rest = others;
    }
    Err(Halt::Short)
}
