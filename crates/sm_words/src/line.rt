//! The words behind a command, sorted into its options and the others.
ghost use Rattle.std.specs.Prelude.{◌≡◌, [], ◌∷◌, map, string_bytes, IfOk, OnOk, Some, MatchOption};
ghost use Rattle.std.specs.Option.{option_map};
ghost use Rattle.sm_words.specs.Words.{behind, end_at, first_given, given_by, is_dashed, joined, nothing, option_word, read, values_of, word_at};
ghost use Rattle.sm_words.specs.Line.{adds_of, given_of, how_of, read_of, step_of};

use crate::option::Name;
use sm_model::NoMemory;
use std::alloc::Global;

/// Where a word stands.
#[derive(Clone, Copy, Debug, PartialEq, Eq)]
pub enum Place {
    /// Among options and other words.
    Free,
    /// Behind an option, whose value it is.
    Behind(Name),
    /// Behind `--`, where no word is an option.
    Bare,
}

/// An option that was given, with its value; one that takes none has the empty value.
#[derive(Debug, Drop)]
pub struct Given {
    pub name: Name,
    pub value: String,
}

/// The options in their order, and the other words in theirs.
#[derive(Debug, Drop)]
pub struct Line {
    pub given: Vec<Given>,
    pub words: Vec<String>,
}

/// An option stands twice.
#[derive(Clone, Copy, Debug, PartialEq, Eq)]
pub struct Twice;

/// How a word gives an option: alone, or with a value behind `=`.
#[derive(Drop)]
pub enum How<'t> {
    Alone,
    With(&'t str),
}

/// What a word adds to a line.
#[derive(Drop)]
pub enum Adds<'t> {
    Nothing,
    Word(&'t str),
    Given(Name, &'t str),
}

/// What a word is: where the next one stands, and what this one adds.
#[derive(Drop)]
pub struct Step<'t> {
    pub next: Place,
    pub adds: Adds<'t>,
}

pub(crate) fn is_dashed(word: &str) -> bool
    ensures { result ≡ is_dashed word.now }
{
    match word.as_bytes() {
        [] => false,
        [first, ..] => *first == 45,
    }
}

// What stands behind that beginning, where the text has it.
pub(crate) fn behind<'t>(text: &'t str, beginning: &str) -> Option<&'t str>
    ensures { option_map (λ rest. rest.now) result ≡ behind beginning.now text.now }
{
    text.strip_prefix(beginning)
}

// How the word gives this option, if it does.
fn gives<'t>(name: Name, word: &'t str) -> Option<How<'t>>
    ensures { option_map how_of result ≡ given_by name word.now }
{
    let rest = behind(word, name.text())?;
    if rest.is_empty() {
        return Some(How::Alone);
    }
    let value = behind(rest, "=")?;
    Some(How::With(value))
}

/// The first of these options that the word gives.
pub fn option_in<'t>(options: &[Name], word: &'t str) -> Option<(Name, How<'t>)>
    ensures { option_map (λ r. (r.0, how_of r.1)) result ≡ first_given options.now word.now }
{
    for name in options {
        if let Some(how) = gives(*name, word) {
            return Some((*name, how));
        }
    }
    None
}

// A word that begins with `-`, among options and other words.
fn option_step<'t>(options: &[Name], word: &'t str) -> Option<Step<'t>>
    ensures { option_map step_of result ≡ option_word (first_given options.now word.now) }
{
    let (name, how) = option_in(options, word)?;
    match how {
        How::Alone if name.has_value() => Some(Step {
            next: Place::Behind(name),
            adds: Adds::Nothing,
        }),
        How::Alone => Some(Step {
            next: Place::Free,
            adds: Adds::Given(name, ""),
        }),
        How::With(value) if name.has_value() && !is_dashed(value) => Some(Step {
            next: Place::Free,
            adds: Adds::Given(name, value),
        }),
        How::With(_) => None,
    }
}

/// What a word is at its place, if it may stand there.
#[tactic(auto, unfolding(crate::specs::Words::word_at))]
pub fn placed<'t>(options: &[Name], place: Place, word: &'t str) -> Option<Step<'t>>
    ensures { option_map step_of result ≡ word_at options.now place word.now }
{
    match place {
        Place::Bare => Some(Step {
            next: Place::Bare,
            adds: Adds::Word(word),
        }),
        Place::Behind(_) if is_dashed(word) => None,
        Place::Behind(name) => Some(Step {
            next: Place::Free,
            adds: Adds::Given(name, word),
        }),
        Place::Free if word == "--" => Some(Step {
            next: Place::Bare,
            adds: Adds::Nothing,
        }),
        Place::Free if is_dashed(word) => option_step(options, word),
        Place::Free => Some(Step {
            next: Place::Free,
            adds: Adds::Word(word),
        }),
    }
}

impl Line {
    pub fn new(alloc: Global) -> Line
        ensures { read_of result ≡ nothing }
    {
        Line {
            given: Vec::new(alloc),
            words: Vec::new(alloc),
        }
    }

    fn add(&mut self, alloc: Global, adds: Adds<'_>) -> Result<(), NoMemory>
        ensures { OnOk result (read_of self.new ≡ joined (read_of self.old) (adds_of adds.entry)) }
    {
        match adds {
            Adds::Nothing => {}
            Adds::Word(word) => {
                let word = String::from_str(alloc, word)?;
                self.words.push(word)?;
            }
            Adds::Given(name, value) => {
                let value = String::from_str(alloc, value)?;
                self.given.push(Given { name, value })?;
            }
        }
        Ok(())
    }
}

// The first value of that option, and what stands behind it.
fn first_value<'l>(given: &'l [Given], name: Name) -> Option<(&'l str, &'l [Given])>
    ensures { MatchOption result (values_of name (map given_of given.now) ≡ [])
        (λ x. values_of name (map given_of given.now) ≡ x.0.now ∷ values_of name (map given_of x.1.now)) }
{
    for (at, one) in given.iter().enumerate() {
        if one.name == name {
            return Some((one.value.as_str(), &given[at + 1..]));
        }
    }
    None
}

impl Line {
    ghost use Rattle.std.specs.Prelude.{◌≡◌};
    ghost use Rattle.sm_words.specs.Words.{value_of};
    ghost use Rattle.sm_words.specs.Line.{read_of, use_of};

    /// The value of that option, which may stand once at most; none where it isn't given.
    pub fn value(&self, name: Name) -> Result<Option<&str>, Twice>
        ensures { use_of result ≡ value_of name (read_of self.now) }
    {
        let Some((value, rest)) = first_value(&self.given, name) else {
            return Ok(None);
        };
        match first_value(rest, name) {
            None => Ok(Some(value)),
            Some(_) => Err(Twice),
        }
    }
}

/// Reads the words behind a command that has these options. None where a word may not stand where it does.
pub fn read_line(
    alloc: Global,
    options: &[Name],
    words: &[String],
) -> Result<Option<Line>, NoMemory>
    ensures { IfOk result (λ line. option_map read_of line ≡ read options.now (map string_bytes words.now)) }
{
    let mut line = Line::new(alloc);
    let mut place = Place::Free;
    for word in words {
        let Some(Step { next, adds }) = placed(options, place, word.as_str()) else {
            return Ok(None);
        };
        line.add(alloc, adds)?;
        place = next;
    }
    match place {
        Place::Behind(_) => Ok(None),
        _ => Ok(Some(line)),
    }
}
