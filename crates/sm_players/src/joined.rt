//! Players that are joined, and counted by how they ended.
ghost use Rattle.std.specs.Prelude.{◌≡◌, ◌+◌, ◌≤◌, ◌<◌, [], length, map, vec_capacity, vec_len};
ghost use Rattle.sm_players.specs.Ends.{ends_of};
ghost use Rattle.sm_players.specs.Starting.{AreEnds, count_of};

use crate::forward::Forward;
use crate::launched::{PlayerEnd, PlayerHandle};
use crate::spawner::Finished;
use crate::wire::Wire;
use std::thread::Threads;

/// Joins players one after the other, and gives back their ends in the same order, in the room that it is given: the end of each handle is what
/// its thread answered, which played from what it was given. A thread that panics ends the program, so each that is joined has an end.
pub fn join_all<R: Threads, W: Wire + Drop, F: Forward + Drop>(
    rt: &R,
    handles: Vec<PlayerHandle<W, F>>,
    room: Vec<PlayerEnd<W, F>>,
) -> Vec<PlayerEnd<W, F>>
    requires room { (room.items ≡ []) × (vec_len handles ≤ vec_capacity room) }
    ensures each { AreEnds (map (λ h. h.promise) handles.items) (ends_of W.seen.view F.asked result.items) }
    ensures all { vec_len result ≡ vec_len handles }
{
    let mut ends = room;
    for handle in handles {
        ends.push_reserved(handle.join(rt));
    }
    ends
}

/// How many ended in each way.
pub fn count<W: Wire + Drop, F: Forward + Drop>(ends: &[PlayerEnd<W, F>]) -> Finished
    requires few { length ends.now < 4294967296 }
    ensures counted { result ≡ count_of (ends_of W.seen.view F.asked ends.now) }
    ensures all { result.done + result.faulted + result.starved ≡ length ends.now }
{
    let mut finished = Finished::none();
    for end in ends {
        finished.add(end.played());
    }
    finished
}
