//! Reading an input to its end.
ghost use Rattle.std.specs.Prelude.{◌≡◌, ◌≤◌, ◌<◌, ◌+◌, ℕ, length, take, drop, vec_len, Err, IfOk, IfErr, OnOk, OnErr, IsErrOf, []};
ghost use Rattle.std.specs.Io.{ReadsAtMost};
ghost use Rattle.std.specs.Io.KnownBytes.{Consumes, IsAtEnd, Keeps, ReadConsumes};
ghost use Rattle.sm_ends.specs.Faults.{HasCause, Rose};
ghost use Rattle.sm_ends.specs.Ended.{WhyUnread, end_of};
ghost use Rattle.sm_ends.specs.Moves.{TakesCount};
ghost use Rattle.sm_ends.specs.declared.input.InputFault.TheVariants.{Failed as ReadFailed, NoMemory as NoRoom, TooLong};

use crate::{Failed, Source};
use sm_model::{Bytes, NoMemory};
use std::alloc::Global;
use thiserror::Error;

/// Why an input was not read.
#[derive(Clone, Copy, Debug, PartialEq, Eq, Error)]
pub enum InputFault {
    /// The source failed.
    #[error("reading failed")]
    Failed,
    /// More bytes came than the limit allows.
    #[error("too long")]
    TooLong,
    #[error("out of memory")]
    NoMemory,
}

impl From<Failed> for InputFault {
    ghost from_gives = { λ _ e. e ≡ ReadFailed };

    fn from(_: Failed) -> InputFault {
        InputFault::Failed
    }
}

impl From<NoMemory> for InputFault {
    ghost from_gives = { λ _ e. e ≡ NoRoom };

    fn from(_: NoMemory) -> InputFault {
        InputFault::NoMemory
    }
}

/// The most bytes that the input of `pick`, `push` or `export` may have. That of a ladder may have fewer.
pub const INPUT_MOST: u64 = 268_435_456;

// What is read into at first. Then the room doubles.
const FIRST_ROOM: usize = 65_536;

// Makes room behind the bytes that are filled, up to the limit.
fn make_room(room: &mut Vec<u8>, filled: usize, limit: usize) -> Result<(), NoMemory>
    requires inside { filled ≤ vec_len room.old }
    requires below { filled < limit }
    requires bounded { vec_len room.old ≤ limit }
    ensures within { vec_len room.new ≤ limit }
    ensures more { OnOk result (filled < vec_len room.new) }
    ensures kept { take filled room.new.items ≡ take filled room.old.items }
{
    if filled == room.len() {
        let wanted = filled.saturating_mul(2).max(FIRST_ROOM).min(limit);
        room.resize(wanted, 0)?;
    }
    Ok(())
}

// Reads behind the bytes that are filled.
fn read_behind<I: Source>(
    source: &mut I,
    room: &mut Vec<u8>,
    filled: usize,
) -> Result<usize, Failed>
    requires { filled < vec_len room.old }
    ensures bound { IfOk result (λ n. filled + n ≤ vec_len room.new) }
    ensures length { vec_len room.new ≡ vec_len room.old }
    ensures kept { take filled room.new.items ≡ take filled room.old.items }
    ensures bytes { ReadConsumes (I.left source.old) (I.left source.new) result (drop filled room.new.items) }
    ensures cause { HasCause (I.faults source.old) (I.faults source.new) result }
{
    source.read(&mut room[filled..])
}

// The room is as large as the limit and full, so the input ends here or is too long.
fn end_at_limit<I: Source>(source: &mut I, room: Vec<u8>) -> Result<Bytes, InputFault>
    ensures all { IfOk result (λ b. Consumes (I.left source.old) (I.left source.new) [] × (b ≡ room.items)) }
    ensures end { OnOk result (IsAtEnd (I.left source.new)) }
    ensures why { IfErr result (WhyUnread 0 (end_of I.left I.faults source.old) (end_of I.left I.faults source.new)) }
    ensures later { I.faults source.old ≤ I.faults source.new }
{
    let mut probe = [0];
    if source.read(&mut probe)? == 0 {
        Ok(Bytes::from_vec(room))
    } else {
        Err(InputFault::TooLong)
    }
}

/// Reads to the end, where no more than `limit` bytes come.
///
/// It holds one copy of the input, in memory that doubles as it fills and never passes `limit`. Whatever it answers, the
/// source has lost exactly the bytes that were read: all of them for an input, `limit + 1` where that is too long, and
/// at most `limit` where reading failed or memory ran out.
pub fn read_input<I: Source>(alloc: Global, source: &mut I, limit: u64) -> Result<Bytes, InputFault>
    ensures all { IfOk result (λ b. Consumes (I.left source.old) (I.left source.new) b) }
    ensures end { OnOk result (IsAtEnd (I.left source.new)) }
    ensures short { IfOk result (λ b. length b ≤ limit) }

    ensures why { IfErr result (WhyUnread limit (end_of I.left I.faults source.old) (end_of I.left I.faults source.new)) }
    ensures later { I.faults source.old ≤ I.faults source.new }
{
    let mut room = Vec::new(alloc);
    let mut filled = 0;
    while (filled as u64) < limit {
        make_room(&mut room, filled, limit as usize)?;
        let count = read_behind(source, &mut room, filled)?;
        if count == 0 {
            room.truncate(filled);
            return Ok(Bytes::from_vec(room));
        }
        filled += count;
    }
    end_at_limit(source, room)
}
