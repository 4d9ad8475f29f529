//! What each command has: its words, and its options with their values.
ghost use Rattle.std.specs.Prelude.{◌≡◌};
ghost use Rattle.sm_usage.specs.Parts.{option_fits, option_wants, options_of, parts_of};
ghost use Rattle.sm_usage.specs.Wrong.{is_open};

use crate::part::{Part, is_filled, is_number};
use sm_words::{Name, Topic};

const STORE: [Part; 1] = [Part::Store];

const PUSH: [Part; 4] = [Part::Host, Part::Port, Part::Path, Part::Id];

const PLAY: [Part; 4] = [Part::Host, Part::Port, Part::Path, Part::Stream];

const EDGE: [Part; 4] = [Part::Host, Part::Port, Part::Path, Part::Store];

const PICK: [Part; 2] = [Part::Track, Part::Time];

const EXPORT: [Part; 3] = [Part::Store, Part::Name, Part::Bitrate];

const REHEARSE: [Part; 2] = [Part::Number, Part::Size];

const SERVE_OPTIONS: [Name; 6] = [
    Name::Port,
    Name::Ladder,
    Name::Turns,
    Name::Bind,
    Name::Journal,
    Name::Players,
];

const EDGE_OPTIONS: [Name; 3] = [Name::Rounds, Name::Tries, Name::Journal];

const PLAY_OPTIONS: [Name; 4] = [Name::From, Name::Count, Name::Tries, Name::Refresh];

/// The words of a command that are no options, in their order.
pub fn parts_of(topic: Topic) -> &'static [Part]
    ensures { result.now ≡ parts_of topic }
{
    match topic {
        Topic::All => &[],
        Topic::Serve | Topic::List => &STORE,
        Topic::Push => &PUSH,
        Topic::Play => &PLAY,
        Topic::Relay | Topic::Standby => &EDGE,
        Topic::Pick => &PICK,
        Topic::Export => &EXPORT,
        Topic::Rehearse => &REHEARSE,
    }
}

/// Whether more streams may stand behind them.
pub fn is_open(topic: Topic) -> bool
    ensures { result ≡ is_open topic }
{
    matches!(topic, Topic::Play)
}

/// The options of a command.
pub fn options_of(topic: Topic) -> &'static [Name]
    ensures { result.now ≡ options_of topic }
{
    match topic {
        Topic::Serve => &SERVE_OPTIONS,
        Topic::Play => &PLAY_OPTIONS,
        Topic::Relay | Topic::Standby => &EDGE_OPTIONS,
        _ => &[],
    }
}

/// What is wanted of an option's value.
pub fn option_wants(name: Name) -> &'static str
    ensures { result.now ≡ option_wants name }
{
    match name {
        Name::Port => "a number from 1 to 65535",
        Name::Ladder => "no value",
        Name::Turns => "a number from 1 to 9223372036854775807",
        Name::Bind => "an address",
        Name::Journal => "a file",
        Name::Players => "a number from 1 to 16",
        Name::From => "a number from 0 to 9223372036854775807",
        Name::Count => "a number from 1 to 1000000",
        Name::Tries => "a number from 1 to 16",
        Name::Refresh => "a number from 1 to 10000",
        Name::Rounds => "a number from 1 to 1000000",
    }
}

/// Whether a text may be an option's value.
pub fn option_fits(name: Name, text: &str) -> bool
    ensures { result ≡ option_fits name text.now }
{
    match name {
        Name::Port => is_number(text, 1, 65_535),
        Name::Ladder => true,
        Name::Turns => is_number(text, 1, 9_223_372_036_854_775_807),
        Name::Bind | Name::Journal => is_filled(text),
        Name::Players => is_number(text, 1, 16),
        Name::From => is_number(text, 0, 9_223_372_036_854_775_807),
        Name::Count => is_number(text, 1, 1_000_000),
        Name::Tries => is_number(text, 1, 16),
        Name::Refresh => is_number(text, 1, 10_000),
        Name::Rounds => is_number(text, 1, 1_000_000),
    }
}
