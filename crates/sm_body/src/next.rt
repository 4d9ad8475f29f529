//! What follows a byte that is none of the body.
ghost use Rattle.std.specs.Prelude.{◌≡◌, false};
ghost use Rattle.sm_body.specs.Places.{is_data, IsOpen, next_place};

use crate::Place;
use crate::chunk::{behind_return, in_digits, in_extension, in_pad};
use crate::trailer::{at_start, behind_line_return, behind_start_return, in_line};

/// The place behind a byte that is none of the body.
pub fn next_framing(place: Place, byte: u8) -> Place
    requires { is_data place ≡ false }
    ensures is { result ≡ next_place place byte }
    ensures has_more { IsOpen result }
{
    match place {
        Place::Digits(count, size) => in_digits(count, size, byte),
        Place::Pad(line, size) => in_pad(line, size, byte),
        Place::Extension(line, size) => in_extension(line, size, byte),
        Place::LineFeed(size) => behind_return(size, byte),
        Place::DataReturn => if byte == b'\r' {
            Place::DataFeed
        } else {
            Place::Failed
        },
        Place::DataFeed => if byte == b'\n' {
            Place::Digits(0, 0)
        } else {
            Place::Failed
        },
        Place::TrailerStart(count) => at_start(count, byte),
        Place::TrailerStartReturn(count) => behind_start_return(count, byte),
        Place::TrailerLine(count) => in_line(count, byte),
        Place::TrailerLineReturn(count) => behind_line_return(count, byte),
        Place::Counted(_) | Place::Data(_) | Place::Ended | Place::Failed => Place::Failed,
    }
}
