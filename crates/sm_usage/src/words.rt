//! What is wrong in words that name no command.
ghost use Rattle.std.specs.Prelude.{◌≡◌, ◌++◌, codes, map, string_bytes, IfOk};
ghost use Rattle.std.specs.Option.{option_map, option_or};
ghost use Rattle.sm_words.specs.Line.{read_of};
ghost use Rattle.sm_words.specs.Helps.{usage_of};
ghost use Rattle.sm_usage.specs.Faults.{fault_of, line_of};
ghost use Rattle.sm_usage.specs.Wrong.{alone_fault, command_fault, help_fault, is_alone, lacks_fault, many_fault, more_fault, next_fault, read_fault};
ghost use Rattle.sm_usage.specs.Wrong.{told, twice_fault, values_fault, words_fault, wrong_in, wrong_words};

use crate::part::{Part, is_number};
use crate::parts::{is_open, option_fits, options_of, parts_of};
use crate::reading::reading_fault;
use crate::wrong::Wrong;
use sm_model::{Bytes, NoMemory};
use sm_words::{Line, Name, Place, Topic, read_line, usage_text};
use std::alloc::Global;

// The first of these options that stands twice.
fn twice_fault<'w>(options: &[Name], line: &Line) -> Option<Wrong<'w>>
    ensures { option_map fault_of result ≡ twice_fault options.now (read_of line.now) }
{
    let [name, options @ ..] = options else {
        return None;
    };
    if line.value(*name).is_err() {
        Some(Wrong::Twice(*name))
    } else {
        twice_fault(options, line)
    }
}

// What is wrong in the words behind those of a command.
fn more_fault<'w>(many: bool, words: &'w [String]) -> Option<Wrong<'w>>
    ensures { option_map fault_of result ≡ more_fault many (map string_bytes words.now) }
{
    let [word, words @ ..] = words else {
        return None;
    };
    if !many {
        return Some(Wrong::More(word.as_str()));
    }
    if Part::Stream.fits(word.as_str()) {
        more_fault(many, words)
    } else {
        Some(Wrong::WantsPart(Part::Stream))
    }
}

// What is wrong in the words of a command that are no options.
fn words_fault<'w>(parts: &[Part], many: bool, words: &'w [String]) -> Option<Wrong<'w>>
    ensures { option_map fault_of result ≡ words_fault parts.now many (map string_bytes words.now) }
{
    let [part, parts @ ..] = parts else {
        return more_fault(many, words);
    };
    let [word, words @ ..] = words else {
        return Some(Wrong::Lacks(*part));
    };
    if part.fits(word.as_str()) {
        words_fault(parts, many, words)
    } else {
        Some(Wrong::WantsPart(*part))
    }
}

// Whether there are too many streams.
fn many_fault<'w>(many: bool, words: &[String]) -> Option<Wrong<'w>>
    ensures { option_map fault_of result ≡ many_fault many (map string_bytes words.now) }
{
    if many && words.len() > 19 {
        Some(Wrong::ManyStreams)
    } else {
        None
    }
}

// Whether an option isn't there that has to be given.
fn lacks_fault<'w>(topic: Topic, line: &Line) -> Option<Wrong<'w>>
    ensures { option_map fault_of result ≡ lacks_fault topic (read_of line.now) }
{
    match topic {
        Topic::Serve => match line.value(Name::Port) {
            Ok(None) => Some(Wrong::LacksOption(Name::Port)),
            _ => None,
        },
        _ => None,
    }
}

// The first of these options whose value isn't what it wants.
fn values_fault<'w>(options: &[Name], line: &Line) -> Option<Wrong<'w>>
    ensures { option_map fault_of result ≡ values_fault options.now (read_of line.now) }
{
    let [name, options @ ..] = options else {
        return None;
    };
    match line.value(*name) {
        Ok(Some(value)) if !option_fits(*name, value) => Some(Wrong::WantsOption(*name)),
        _ => values_fault(options, line),
    }
}

// Whether the next port is no port, where threads that answer viewers want it.
fn next_fault<'w>(topic: Topic, line: &Line) -> Option<Wrong<'w>>
    ensures { option_map fault_of result ≡ next_fault topic (read_of line.now) }
{
    match topic {
        Topic::Serve => match (line.value(Name::Players), line.value(Name::Port)) {
            (Ok(Some(_)), Ok(Some(port))) if !is_number(port, 1, 65_534) => {
                Some(Wrong::NoNextPort)
            }
            _ => None,
        },
        _ => None,
    }
}

// The first of two that is there.
fn first<'w>(one: Option<Wrong<'w>>, other: Option<Wrong<'w>>) -> Option<Wrong<'w>>
    ensures { option_map fault_of result ≡ option_or (option_map fault_of one.entry) (option_map fault_of other.entry) }
{
    match one {
        Some(wrong) => Some(wrong),
        None => other,
    }
}

// What is wrong in words that each may stand where they do.
fn read_fault<'w>(topic: Topic, line: &'w Line) -> Option<Wrong<'w>>
    ensures { option_map fault_of result ≡ read_fault topic (read_of line.now) }
{
    let (options, many) = (options_of(topic), is_open(topic));
    let wrong = first(values_fault(options, line), next_fault(topic, line));
    let wrong = first(lacks_fault(topic, line), wrong);
    let wrong = first(many_fault(many, &line.words), wrong);
    let wrong = first(words_fault(parts_of(topic), many, &line.words), wrong);
    first(twice_fault(options, line), wrong)
}

// The line of what is wrong, if something is.
fn told(alloc: Global, wrong: Option<Wrong<'_>>) -> Result<String, NoMemory>
    ensures { IfOk result (λ line. string_bytes line ≡ told (option_map fault_of wrong.entry)) }
{
    match wrong {
        Some(wrong) => wrong.line(alloc),
        None => Ok(String::new(alloc)),
    }
}

// The line of what is wrong in the words behind a command.
fn command_line(alloc: Global, topic: Topic, words: &[String]) -> Result<String, NoMemory>
    ensures { IfOk result (λ line. string_bytes line ≡ told (command_fault topic (map string_bytes words.now))) }
{
    let options = options_of(topic);
    let wrong = reading_fault(options, words, Place::Free);
    if wrong.is_some() {
        return told(alloc, wrong);
    }
    match read_line(alloc, options, words)? {
        Some(line) => told(alloc, read_fault(topic, &line)),
        None => told(alloc, None),
    }
}

// What is wrong where there is to be no word.
fn alone_fault<'w>(words: &'w [String]) -> Option<Wrong<'w>>
    ensures { option_map fault_of result ≡ alone_fault (map string_bytes words.now) }
{
    match words {
        [] => None,
        [word, ..] => Some(Wrong::More(word.as_str())),
    }
}

// What is wrong behind `help`.
fn help_fault<'w>(words: &'w [String]) -> Option<Wrong<'w>>
    ensures { option_map fault_of result ≡ help_fault (map string_bytes words.now) }
{
    match words {
        [] => None,
        [name] => match Topic::named(name.as_str()) {
            Some(_) => None,
            None => Some(Wrong::NoCommand(name.as_str())),
        },
        [_, more, ..] => Some(Wrong::More(more.as_str())),
    }
}

// Whether the word is a command that has no other words.
fn is_alone(command: &str) -> bool
    ensures { result ≡ is_alone command.now }
{
    command == "--help" || command == "version" || command == "--version"
}

// The line of what is wrong in words.
fn wrong_line(alloc: Global, words: &[String]) -> Result<String, NoMemory>
    ensures { IfOk result (λ line. string_bytes line ≡ told (wrong_in (map string_bytes words.now))) }
{
    let [command, words @ ..] = words else {
        return told(alloc, Some(Wrong::NoWords));
    };
    let command = command.as_str();
    if let Some(topic) = Topic::named(command) {
        return command_line(alloc, topic, words);
    }
    if command == "help" {
        return told(alloc, help_fault(words));
    }
    if is_alone(command) {
        return told(alloc, alone_fault(words));
    }
    told(alloc, Some(Wrong::NoCommand(command)))
}

/// What is told of words that name no command: that they don't, what is wrong in them, and the use of the command that they begin with.
pub fn wrong_words(alloc: Global, words: &[String]) -> Result<Bytes, NoMemory>
    ensures { IfOk result (λ text. text ≡ wrong_words (map string_bytes words.now)) }
{
    let line = wrong_line(alloc, words)?;
    let usage = usage_text(Topic::of(words));
    let text = format!(in alloc; "error: words\n{line}{usage}")?;
    Ok(Bytes::from_vec(text.into_bytes()))
}
