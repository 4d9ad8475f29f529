//! Picking a fragment out of an input.
ghost use Rattle.std.specs.Prelude.{◌≡◌, ◌≤◌, ◌<◌, length, vec_len, IfErr, IfOk};
ghost use Rattle.std.specs.Io.KnownBytes.{ReadConsumes};
ghost use Rattle.sm_ends.specs.Ended.{WhyUnread, end_of, input_most};
ghost use Rattle.sm_ends.specs.Faults.{HasCause};
ghost use Rattle.sm_pick.specs.Due.{IsAnswered};

use crate::picked::Picked;
use crate::search::Search;
use sm_ends::{Failed, INPUT_MOST, InputFault, Source};
use sm_model::NoMemory;
use std::alloc::Global;

// So many bytes are read at once.
const PIECE: usize = 131_072;

// Room for one piece.
fn room(alloc: Global) -> Result<Vec<u8>, NoMemory>
    ensures { IfOk result (λ room. vec_len room ≡ PIECE) }
{
    let mut room = Vec::new(alloc);
    room.resize(PIECE, 0)?;
    Ok(room)
}

// Reads a piece of no more than so many bytes. The room keeps so much of its length.
fn read_piece<I: Source>(input: &mut I, room: &mut Vec<u8>, most: u64) -> Result<usize, Failed>
    requires room { 0 < vec_len room.old }
    requires some { 0 < most }
    ensures most { IfOk result (λ n. n ≤ most) }
    ensures bound { IfOk result (λ n. n ≤ length room.new.items) }
    ensures room { 0 < vec_len room.new }
    ensures bytes { ReadConsumes (I.left input.old) (I.left input.new) result room.new.items }
    ensures cause { HasCause (I.faults input.old) (I.faults input.new) result }
{
    if most < room.len() as u64 {
        room.truncate(most as usize);
    }
    input.read(room)
}

/// Reads the input to its end, and picks the first fragment with that track_ID and time, in ticks of its track's timescale.
///
/// It holds one piece of the input, what the push holds, one item that the piece completes, and the fragment that was found. Of a
/// fragment that isn't sought it holds no `mdat`, unless its samples don't lie inside.
/// Whatever it answers, the input has lost exactly the bytes that were read: all of them for an answer, 268,435,457 where that
/// is too long, and at most 268,435,456 where reading failed or memory ran out.
pub fn pick<I: Source>(
    alloc: Global,
    input: &mut I,
    track: u32,
    time: u64,
) -> Result<Picked, InputFault>
    ensures answer { IfOk result (λ answer. IsAnswered track time (I.left input.old) (I.left input.new) answer) }
    ensures why { IfErr result (WhyUnread input_most (end_of I.left I.faults input.old) (end_of I.left I.faults input.new)) }
    ensures later { I.faults input.old ≤ I.faults input.new }
{
    let mut search = Search::new(alloc, track, time);
    let mut room = room(alloc)?;
    let mut total = 0;
    while total <= INPUT_MOST {
        let count = read_piece(input, &mut room, INPUT_MOST + 1 - total)?;
        if count == 0 {
            return Ok(search.answer(alloc)?);
        }
        total += count as u64;
        if total <= INPUT_MOST {
            search.take(&room[..count])?;
        }
    }
    Err(InputFault::TooLong)
}
