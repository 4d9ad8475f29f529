//! The words that `clap` reads otherwise than they are meant.
ghost use Rattle.std.specs.Prelude.{◌≡◌, map, string_bytes};
ghost use Rattle.sm_words.specs.Clapped.{are_plain, has_dashed_value, is_plain};

use crate::line::{behind, is_dashed};

// Whether a value that begins with `-` stands behind the first `=`.
fn has_dashed_value(option: &str) -> bool
    ensures { result ≡ has_dashed_value option.now }
{
    match option.split_once('=') {
        Some((_, value)) => is_dashed(value),
        None => false,
    }
}

// Whether the word begins with no dash, or with two and has no value that begins with one.
fn is_plain(word: &str) -> bool
    ensures { result ≡ is_plain word.now }
{
    match behind(word, "--") {
        Some(option) => !has_dashed_value(option),
        None => !is_dashed(word),
    }
}

// Whether each word before `--` is plain: `clap` takes `-` for a word, and `--name=-value` for an option.
pub(crate) fn are_plain(words: &[String]) -> bool
    ensures { result ≡ are_plain (map string_bytes words.now) }
{
    let [word, words @ ..] = words else {
        return true;
    };
    let word = word.as_str();
    word == "--" || is_plain(word) && are_plain(words)
}
