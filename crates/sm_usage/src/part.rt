//! The parts of a command's words that are no options.
ghost use Rattle.std.specs.Prelude.{◌≡◌, ◌<◌, ◌^◌};
ghost use Rattle.sm_usage.specs.Parts.{is_filled, is_number, part_fits, part_text, part_wants};

use sm_model::Name as StreamName;
use sm_words::{is_host, is_path, number};

/// A word that is no option, by its place in the use of a command.
#[derive(Clone, Copy, Debug, PartialEq, Eq)]
pub enum Part {
    Store,
    Host,
    Port,
    Path,
    Id,
    Stream,
    Track,
    Time,
    Name,
    Bitrate,
    Number,
    Size,
}

/// Whether a text writes a number in these bounds.
pub fn is_number(text: &str, low: u64, high: u64) -> bool
    requires { high < 2 ^ 63 }
    ensures { result ≡ is_number low high text.now }
{
    number(text, low, high).is_some()
}

/// Whether a text isn't empty.
pub fn is_filled(text: &str) -> bool
    ensures { result ≡ is_filled text.now }
{
    !text.is_empty()
}

impl Part {
    /// As the use of a command names it.
    pub fn text(self) -> &'static str
        ensures { result.now ≡ part_text self }
    {
        match self {
            Part::Store => "STORE",
            Part::Host => "HOST",
            Part::Port => "PORT",
            Part::Path => "PATH",
            Part::Id => "ID",
            Part::Stream => "STREAM",
            Part::Track => "TRACK",
            Part::Time => "TIME",
            Part::Name => "NAME",
            Part::Bitrate => "BITRATE",
            Part::Number => "NUMBER",
            Part::Size => "SIZE",
        }
    }

    /// What is wanted of it.
    pub fn wants(self) -> &'static str
        ensures { result.now ≡ part_wants self }
    {
        match self {
            Part::Store => "a folder",
            Part::Host => "1 to 255 letters, digits, dots, hyphens and colons",
            Part::Port => "a number from 1 to 65535",
            Part::Path => "1 to 512 bytes without a question mark, control bytes and .isml/",
            Part::Id | Part::Stream | Part::Name => {
                "1 to 64 bytes of letters, digits, spaces and _ - ."
            }
            Part::Track => "a number from 1 to 4294967295",
            Part::Time => "a number from 0 to 9223372036854775807",
            Part::Bitrate => "a number from 0 to 4294967295",
            Part::Number => "a number from 0 to 2147483647",
            Part::Size => "a number from 0 to 2000",
        }
    }

    /// Whether a text may be it.
    pub fn fits(self, text: &str) -> bool
        ensures { result ≡ part_fits self text.now }
    {
        match self {
            Part::Store => is_filled(text),
            Part::Host => is_host(text),
            Part::Port => is_number(text, 1, 65_535),
            Part::Path => is_path(text),
            Part::Id | Part::Stream | Part::Name => StreamName::fits(text.as_bytes()),
            Part::Track => is_number(text, 1, 4_294_967_295),
            Part::Time => is_number(text, 0, 9_223_372_036_854_775_807),
            Part::Bitrate => is_number(text, 0, 4_294_967_295),
            Part::Number => is_number(text, 0, 2_147_483_647),
            Part::Size => is_number(text, 0, 2_000),
        }
    }
}
