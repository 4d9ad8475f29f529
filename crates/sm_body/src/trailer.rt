//! The trailer behind the last chunk: lines that are passed over, up to an empty one.
ghost use Rattle.std.specs.Prelude.{◌≡◌, ◌==◌, ◌+◌, ◌<◌, if◌then◌else◌};
ghost use Rattle.sm_body.specs.Places as spec;
ghost use Rattle.sm_body.specs.declared.place.Place.TheVariants.{TrailerLine, TrailerLineReturn};

use crate::Place;

// Behind a byte of a line that doesn't end it.
fn within_line(count: u16, byte: u8) -> Place
    requires { count < 8191 }
    ensures { result ≡ (if byte == 13 then TrailerLineReturn (count + 1) else TrailerLine (count + 1)) }
{
    if byte == b'\r' {
        Place::TrailerLineReturn(count + 1)
    } else {
        Place::TrailerLine(count + 1)
    }
}

/// Behind a byte at the start of a line.
pub fn at_start(count: u16, byte: u8) -> Place
    ensures { result ≡ spec.at_trailer_start count byte }
{
    if count >= 8191 {
        Place::Failed
    } else if byte == b'\r' {
        Place::TrailerStartReturn(count + 1)
    } else {
        Place::TrailerLine(count + 1)
    }
}

/// Behind the byte that follows a CR at the start of a line.
pub fn behind_start_return(count: u16, byte: u8) -> Place
    ensures { result ≡ spec.behind_start_return count byte }
{
    if byte == b'\n' && count < 8192 {
        Place::Ended
    } else if count < 8191 {
        within_line(count, byte)
    } else {
        Place::Failed
    }
}

/// Behind a byte in a line.
pub fn in_line(count: u16, byte: u8) -> Place
    ensures { result ≡ spec.in_trailer_line count byte }
{
    if count < 8191 {
        within_line(count, byte)
    } else {
        Place::Failed
    }
}

/// Behind the byte that follows a CR in a line.
pub fn behind_line_return(count: u16, byte: u8) -> Place
    ensures { result ≡ spec.behind_line_return count byte }
{
    if count >= 8191 {
        Place::Failed
    } else if byte == b'\n' {
        Place::TrailerStart(count + 1)
    } else {
        within_line(count, byte)
    }
}
