//! Printing an answer.
ghost use Rattle.std.specs.Prelude.{◌≡◌, OnOk, OnErr};
ghost use Rattle.std.specs.Io.KnownBytes.{Appends};
ghost use Rattle.sm_ends.specs.Faults.{HasCause};
ghost use Rattle.sm_ends.specs.Moves.{AppendsFront};
ghost use Rattle.sm_tool.specs.Answers.{line_of, status_of, stop_status_of, unwritten_status_of};
ghost use Rattle.sm_tool.specs.Ran.{Prints};
ghost use Rattle.sm_ends.specs.Ended.{end_of};

use crate::answer::{Answer, Stop};
use sm_ends::{Failed, Sink, write_all};

// The line of an answer.
fn line(answer: &Answer) -> &[u8]
    ensures { result.now ≡ line_of answer.now }
{
    match answer {
        Answer::Found(text) => text.as_slice(),
        Answer::Refused(line) => line.as_slice(),
        Answer::Clash(line) => line.as_slice(),
        Answer::Undone(line) => line.as_slice(),
        Answer::NotAStore(line) => line.as_slice(),
        Answer::Words(text) => text.as_slice(),
        Answer::Unread => b"error: read\nReading the input failed.\n",
        Answer::TooLong =>
            b"error: input at 268435456: too long\nThe input has more than 268,435,456 bytes.\n",
        Answer::LongLadder =>
            b"error: input at 1048576: too long\nThe ladder has more than 1,048,576 bytes.\n",
        Answer::NotKept =>
            b"error: 47 NotKept\nThe input has no fragment with this track_ID and time.\n",
        Answer::Damaged =>
            b"error: 32 Damaged\nWhat was read of the store is not what was written there.\n",
        Answer::DiskFault =>
            b"error: disk\nThe system refused a call on the folder of the store or on a file in it.\n",
        Answer::LinkFault =>
            b"error: link\nThe port cannot be listened at, a thread cannot be made, or a connection was refused or lost.\n",
        Answer::TrackFault | Answer::Unfinished(_) => b"",
        Answer::Starved => b"error: memory\nThere was not enough memory.\n",
        Answer::Full =>
            b"error: full\nA limit is met: the store's bytes, its entries, or a stream's times.\n",
    }
}

// Writes the line of an answer, or a front of it and fails.
fn write_line<O: Sink>(sink: &mut O, answer: &Answer) -> Result<(), Failed>
    ensures ok { OnOk result (Appends (O.held sink.old) (O.held sink.new) (line_of answer.now)) }
    ensures err { OnErr result (AppendsFront (O.held sink.old) (O.held sink.new) (line_of answer.now)) }
    ensures cause { HasCause (O.faults sink.old) (O.faults sink.new) result }
{
    write_all(sink, line(answer))
}

fn stop_status(stop: Stop) -> u8
    ensures { result ≡ stop_status_of stop }
{
    match stop {
        Stop::Damaged => 4,
        Stop::Disk => 5,
        Stop::Output => 7,
        Stop::Memory => 9,
    }
}

fn status(answer: &Answer) -> u8
    ensures { result ≡ status_of answer.now }
{
    match answer {
        Answer::Found(_) => 0,
        Answer::Words(_) => 2,
        Answer::TooLong | Answer::LongLadder | Answer::Refused(_) => 3,
        Answer::NotKept | Answer::Clash(_) | Answer::Undone(_) | Answer::Damaged => 4,
        Answer::DiskFault => 5,
        Answer::Unread => 6,
        Answer::TrackFault => 7,
        Answer::LinkFault => 8,
        Answer::Starved => 9,
        Answer::Full => 10,
        Answer::NotAStore(_) => 11,
        Answer::Unfinished(stop) => stop_status(*stop),
    }
}

// Where what was found can't be written the status is 7; a failure keeps its own.
fn unwritten_status(answer: &Answer) -> u8
    ensures { result ≡ unwritten_status_of answer.now }
{
    match answer {
        Answer::Found(_) => 7,
        _ => status(answer),
    }
}

/// Prints the line of an answer, and gives the status that tells both.
pub fn print<O: Sink>(sink: &mut O, answer: &Answer) -> u8
    ensures { Prints answer.now (end_of O.held O.faults sink.old) (end_of O.held O.faults sink.new) result }
{
    match write_line(sink, answer) {
        Ok(()) => status(answer),
        Err(Failed) => unwritten_status(answer),
    }
}
