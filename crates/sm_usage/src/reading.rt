//! The words behind a command, read from the left until one may not stand where it does.
ghost use Rattle.std.specs.Prelude.{◌≡◌, [], map, string_bytes};
ghost use Rattle.std.specs.Option.{option_map};
ghost use Rattle.sm_words.specs.Line.{how_of};
ghost use Rattle.sm_words.specs.Words.{first_given};
ghost use Rattle.sm_usage.specs.Faults.{fault_of};
ghost use Rattle.sm_usage.specs.Wrong.{end_fault, option_fault, reading_fault, word_fault};

use crate::wrong::Wrong;
use sm_words::{How, Name, Place, Step, option_in, placed};

// Why a word that begins with `-` may not stand among options and other words.
fn option_fault<'w>(options: &[Name], word: &'w str) -> Option<Wrong<'w>>
    ensures { option_map fault_of result ≡ option_fault (first_given options.now word.now) word.now }
{
    match option_in(options, word) {
        None => Some(Wrong::NoOption(word)),
        Some((_, How::Alone)) => None,
        Some((name, How::With(_))) if name.has_value() => Some(Wrong::NoValue(name)),
        Some((name, How::With(_))) => Some(Wrong::TakesNone(name)),
    }
}

// Why a word may not stand there.
fn word_fault<'w>(options: &[Name], place: Place, word: &'w str) -> Option<Wrong<'w>>
    ensures { option_map fault_of result ≡ word_fault options.now place word.now }
{
    match place {
        Place::Bare => None,
        Place::Behind(name) => Some(Wrong::NoValue(name)),
        Place::Free => option_fault(options, word),
    }
}

// Why the words may not end there.
fn end_fault<'w>(place: Place) -> Option<Wrong<'w>>
    ensures { option_map fault_of result ≡ end_fault place }
{
    match place {
        Place::Behind(name) => Some(Wrong::NoValue(name)),
        _ => None,
    }
}

/// The first word that may not stand where it does, the first of them standing at that place.
pub fn reading_fault<'w>(options: &[Name], words: &'w [String], place: Place) -> Option<Wrong<'w>>
    ensures { option_map fault_of result ≡ reading_fault options.now (map string_bytes words.now) place }
{
    let [word, words @ ..] = words else {
        return end_fault(place);
    };
    match placed(options, place, word.as_str()) {
        Some(Step { next, adds: _ }) => reading_fault(options, words, next),
        None => word_fault(options, place, word.as_str()),
    }
}
