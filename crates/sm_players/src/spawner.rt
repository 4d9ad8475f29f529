//! What starts players.
ghost use Rattle.std.specs.Prelude.{◌≡◌, ℕ, ◌+◌, ◌<◌, ◌≤◌, List, [], map, vec_capacity, vec_len, None, Some, IfOk, OnOk, OnErr, IsErrOf};
ghost use Rattle.sm_site.specs.Clauses.{Rose};
ghost use Rattle.sm_players.specs.Ends.{ends_of};
ghost use Rattle.sm_players.specs.Starting.{Ended, HavePlayed, count_of, with_one};
ghost use Rattle.sm_players.specs.Wiring.{Wired, rewired};

use crate::forward::Forward;
use crate::gate::Gate;
use crate::joined::{count, join_all};
use crate::launched::{Launched, Parts, PlayerEnd, PlayerHandle, play};
use crate::played::Played;
use crate::wire::Wire;
use crate::wiring::Wiring;
use sm_shelf::ShelfReader;
use std::alloc::Global;
use std::thread;
use std::thread::Threads;

/// Why a player isn't started, or the wires are not ready.
#[derive(Clone, Copy, Debug, PartialEq, Eq)]
pub enum SpawnError {
    /// It failed, and the spawner's count rose.
    Failed,
    /// There was no memory for it.
    NoMemory,
}

/// How many players ended in each way: by `Done`, by `LinkFault` and by `NoMemory`.
#[derive(Clone, Copy, Debug, PartialEq, Eq)]
pub struct Finished {
    pub done: u32,
    pub faulted: u32,
    pub starved: u32,
}

impl Finished {
    /// Before any player has ended.
    pub(crate) fn none() -> Finished
        ensures { result ≡ record { done = 0; faulted = 0; starved = 0 } }
    {
        Finished {
            done: 0,
            faulted: 0,
            starved: 0,
        }
    }

    /// One more ended so.
    pub(crate) fn add(&mut self, played: Played)
        requires few { self.old.done + self.old.faulted + self.old.starved < 4294967295 }
        ensures one { self.new ≡ with_one played self.old }
        ensures all { self.new.done + self.new.faulted + self.new.starved ≡ self.old.done + self.old.faulted + self.old.starved + 1 }
    {
        match played {
            Played::Done { answered: _ } => self.done += 1,
            Played::LinkFault => self.faulted += 1,
            Played::NoMemory => self.starved += 1,
        }
    }
}

/// What starts players, each in a thread of its own, and joins them. An impl says where the parts of a player come from and where its handle is
/// kept; `start` is the same for all.
pub trait Spawner {
    type Runtime: Threads;

    type Wire: Wire + Drop + Send + 'static;

    type Forward: Forward + Drop + Send + 'static;

    type Gate: Gate + Drop + Send + 'static;

    /// How often it has failed. The count stands still at 2^64 - 1.
    ghost spawn_faults: { Self → ℕ };

    /// How many players it started.
    ghost started: { Self → ℕ };

    /// How many events a player takes at most.
    ghost limit: { Self → ℕ };

    /// Where its wires are, once it was selected, and how often it was.
    ghost chosen: { Self → Wired };

    /// How the players ended that were joined last, in the order of their handles.
    ghost ended: { Self → List Ended };

    /// One more may be started.
    ghost may_start: { Self → Type 0 };

    /// Makes the wires ready for so many players beside a loop on that port, which leaves them the next one. After a refusal there are none.
    fn select(&mut self, wiring: Wiring) -> Result<(), SpawnError>
        requires port { wiring.port ≤ 65534 }
        ensures chosen { OnOk result (chosen self.new ≡ rewired (chosen self.old) (Some wiring)) }
        ensures unchosen { OnErr result (chosen self.new ≡ rewired (chosen self.old) None) }
        ensures failed { IsErrOf result SpawnError.Failed → Rose (spawn_faults self.old) (spawn_faults self.new) }
        ensures later { spawn_faults self.old ≤ spawn_faults self.new }
        ensures started { started self.new ≡ started self.old }
        ensures limit { limit self.new ≡ limit self.old };

    /// The handle for threads.
    fn runtime(&self) -> &Self::Runtime;

    /// The allocator of the players.
    fn allocator(&self) -> Global;

    /// How many events a player takes at most.
    fn turns(&self) -> u64
        ensures { result ≡ limit self.now };

    /// Takes the parts of one player.
    fn prepare(&mut self) -> Result<Parts<Self::Wire, Self::Forward, Self::Gate>, SpawnError>
        ensures ok { OnOk result (may_start self.new) }
        ensures failed { IsErrOf result SpawnError.Failed → Rose (spawn_faults self.old) (spawn_faults self.new) }
        ensures later { spawn_faults self.old ≤ spawn_faults self.new }
        ensures chosen { chosen self.new ≡ chosen self.old }
        ensures started { started self.new ≡ started self.old }
        ensures limit { limit self.new ≡ limit self.old };

    /// Counts a player that was started.
    fn count_start(&mut self)
        requires { may_start self.old }
        ensures started { started self.new ≡ started self.old + 1 }
        ensures chosen { chosen self.new ≡ chosen self.old }
        ensures limit { limit self.new ≡ limit self.old }
        ensures later { spawn_faults self.old ≤ spawn_faults self.new };

    /// Counts a thread that could not be made.
    fn count_fault(&mut self)
        ensures rose { Rose (spawn_faults self.old) (spawn_faults self.new) }
        ensures chosen { chosen self.new ≡ chosen self.old }
        ensures started { started self.new ≡ started self.old }
        ensures limit { limit self.new ≡ limit self.old };

    /// Asks all players to end.
    fn stop(&mut self)
        ensures chosen { chosen self.new ≡ chosen self.old }
        ensures started { started self.new ≡ started self.old }
        ensures later { spawn_faults self.old ≤ spawn_faults self.new };

    /// Keeps the ends of the players that were joined.
    fn note(&mut self, ends: Vec<PlayerEnd<Self::Wire, Self::Forward>>)
        requires few { vec_len ends < 4294967296 }
        ensures ended { ended self.new ≡ ends_of Self.Wire.seen.view Self.Forward.asked ends.items }
        ensures faulted { 0 < (count_of (ended self.new)).faulted → Rose (spawn_faults self.old) (spawn_faults self.new) }
        ensures chosen { chosen self.new ≡ chosen self.old }
        ensures started { started self.new ≡ started self.old }
        ensures later { spawn_faults self.old ≤ spawn_faults self.new };

    /// Runs a player in a thread of its own: from what it was given it plays. A reader that is refused is dropped.
    final fn start(
        &mut self,
        reader: ShelfReader,
    ) -> Result<PlayerHandle<Self::Wire, Self::Forward>, SpawnError>
        ensures ok { OnOk result (started self.new ≡ started self.old + 1) }
        ensures given { IfOk result (λ handle. (handle.promise.table ≡ reader.table) × (handle.promise.seen ≡ reader.seen) × (handle.promise.turns ≡ limit self.old)) }
        ensures err { OnErr result (started self.new ≡ started self.old) }
        ensures failed { IsErrOf result SpawnError.Failed → Rose (spawn_faults self.old) (spawn_faults self.new) }
        ensures chosen { chosen self.new ≡ chosen self.old }
        ensures limit { limit self.new ≡ limit self.old }
        ensures later { spawn_faults self.old ≤ spawn_faults self.new }
    {
        let parts = self.prepare()?;
        let alloc = self.allocator();
        let turns = self.turns();
        let launched = Launched::new(&parts.wire, &parts.forward, &reader, turns);
        match thread::spawn_with(
            self.runtime(),
            launched,
            move || play(alloc, parts, reader, turns),
        ) {
            Ok(handle) => {
                self.count_start();
                Ok(handle)
            }
            Err(_) => {
                self.count_fault();
                Err(SpawnError::Failed)
            }
        }
    }

    /// Asks all players to end, and joins these. Their ends go into the room and from there to the spawner, one for each handle in order: each has
    /// played from what it was given. `faulted` is above 0 only where the count rose.
    final fn finish(
        &mut self,
        handles: Vec<PlayerHandle<Self::Wire, Self::Forward>>,
        room: Vec<PlayerEnd<Self::Wire, Self::Forward>>,
    ) -> Finished
        requires few { vec_len handles < 4294967296 }
        requires room { (room.items ≡ []) × (vec_len handles ≤ vec_capacity room) }
        ensures played { HavePlayed (map (λ h. h.promise) handles.items) (ended self.new) result }
        ensures all { result.done + result.faulted + result.starved ≡ vec_len handles }
        ensures chosen { chosen self.new ≡ chosen self.old }
        ensures started { started self.new ≡ started self.old }
        ensures faulted { 0 < result.faulted → Rose (spawn_faults self.old) (spawn_faults self.new) }
        ensures later { spawn_faults self.old ≤ spawn_faults self.new }
    {
        self.stop();
        let ends = join_all(self.runtime(), handles, room);
        let finished = count(&ends);
        self.note(ends);
        finished
    }
}
