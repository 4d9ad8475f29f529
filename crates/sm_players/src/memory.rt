//! A spawner without a network.
ghost use Rattle.std.specs.Prelude.{◌≡◌, ◌≤◌, ◌<◌, None, vec_len};
ghost use Rattle.sm_site.specs.Clauses.{Rose};
ghost use Rattle.sm_players.specs.Adding.{PartsAlone};
ghost use Rattle.sm_players.specs.Ends.{ends_of};
ghost use Rattle.sm_players.specs.Starting.{count_of};

use crate::crew::Crew;
use crate::forward::{Forward, ForwardError};
use crate::gate::NoGate;
use crate::launched::{Parts, PlayerEnd};
use crate::spawner::{SpawnError, Spawner};
use crate::stop::Stop;
use crate::wiring::Wiring;
use sm_model::{Bytes, NoMemory, Target};
use sm_site::{Link, MemorySite, Numbers, Script};
use std::alloc::Global;
use std::thread::Threads;

/// A forward that leads nowhere: it fails each time.
#[derive(Debug, Drop)]
pub struct NoForward {
    faults: u64,
}

impl NoForward {
    /// One that has not failed yet.
    pub fn new() -> NoForward {
        NoForward { faults: 0 }
    }
}

impl Forward for NoForward {
    ghost asked = { λ f. None };

    ghost forward_faults = { λ f. f.faults };

    fn ask(&mut self, _target: &Target) -> Result<Bytes, ForwardError> {
        self.faults = self.faults.saturating_add(1);
        Err(ForwardError::Failed)
    }
}

/// A spawner whose players have wires to which nothing comes, so that each ends by `Done` at once. The starts of some numbers, from 1, are
/// refused.
#[derive(Drop)]
pub struct MemorySpawner<R: Threads + Drop> {
    alloc: Global,
    refused: Numbers,
    starts: u64,
    crew: Crew<R, MemorySite, NoForward, NoGate>,
}

impl<R: Threads + Drop> MemorySpawner<R> {
    /// A spawner that refuses the starts of these numbers, and has started none.
    pub fn new(alloc: Global, rt: R, refused: Numbers) -> Result<MemorySpawner<R>, NoMemory> {
        let stop = Stop::new(alloc)?;
        Ok(MemorySpawner {
            alloc,
            refused,
            starts: 0,
            crew: Crew::new(alloc, rt, stop, 1),
        })
    }

    // Adds the parts of one player more.
    fn add(&mut self) -> Result<(), NoMemory>
        ensures { PartsAlone self.old.crew self.new.crew }
    {
        let script = Script::from_vec(Vec::new(self.alloc));
        let disk_failing = Numbers::from_vec(Vec::new(self.alloc));
        let link_failing = Numbers::from_vec(Vec::new(self.alloc));
        let wire = MemorySite::new(self.alloc, script, disk_failing, link_failing);
        self.crew.add(wire, NoForward::new(), NoGate)
    }
}

impl<R: Threads + Drop> Spawner for MemorySpawner<R> {
    type Runtime = R;

    type Wire = MemorySite;

    type Forward = NoForward;

    type Gate = NoGate;

    ghost spawn_faults = { λ m. m.crew.faults };

    ghost started = { λ m. m.crew.started };

    ghost limit = { λ m. m.crew.turns };

    ghost chosen = { λ m. m.crew.wired };

    ghost ended = { λ m. ends_of ⟦<MemorySite as Link>⟧.seen.view ⟦<NoForward as Forward>⟧.asked m.crew.ends.items };

    ghost may_start = { λ m. m.crew.started < 18446744073709551615 };

    fn select(&mut self, wiring: Wiring) -> Result<(), SpawnError> {
        self.crew.select(wiring)
    }

    fn runtime(&self) -> &R {
        self.crew.runtime()
    }

    fn allocator(&self) -> Global {
        self.alloc
    }

    fn turns(&self) -> u64 {
        self.crew.turns()
    }

    fn prepare(&mut self) -> Result<Parts<MemorySite, NoForward, NoGate>, SpawnError> {
        self.starts = self.starts.saturating_add(1);
        if self.refused.contains(self.starts) {
            self.crew.count_fault();
            return Err(SpawnError::Failed);
        }
        match self.add() {
            Ok(()) => self.crew.prepare(),
            Err(NoMemory) => Err(SpawnError::NoMemory),
        }
    }

    fn count_start(&mut self) {
        self.crew.count_start();
    }

    fn count_fault(&mut self) {
        self.crew.count_fault();
    }

    fn stop(&mut self) {
        self.crew.stop();
    }

    // These are the clauses of the trait, which have to stand here for such an argument.
    fn note(&mut self, ends: Vec<PlayerEnd<MemorySite, NoForward>>)
        requires few { vec_len ends < 4294967296 }
        ensures ended { ends_of ⟦<MemorySite as Link>⟧.seen.view ⟦<NoForward as Forward>⟧.asked self.new.crew.ends.items
            ≡ ends_of ⟦<MemorySite as Link>⟧.seen.view ⟦<NoForward as Forward>⟧.asked ends.items }
        ensures faulted { 0 < (count_of (ends_of ⟦<MemorySite as Link>⟧.seen.view ⟦<NoForward as Forward>⟧.asked self.new.crew.ends.items)).faulted
            → Rose self.old.crew.faults self.new.crew.faults }
        ensures chosen { self.new.crew.wired ≡ self.old.crew.wired }
        ensures started { self.new.crew.started ≡ self.old.crew.started }
        ensures later { self.old.crew.faults ≤ self.new.crew.faults }
    {
        self.crew.note(ends);
    }
}
