//! The spawner that is given its players' parts.
ghost use Rattle.std.specs.Prelude.{◌≡◌, ◌≤◌, ◌<◌, vec_len};
ghost use Rattle.sm_site.specs.Clauses.{Rose};
ghost use Rattle.sm_players.specs.Ends.{ends_of};
ghost use Rattle.sm_players.specs.Starting.{count_of};

use crate::forward::Forward;
use crate::gate::Gate;
use crate::joined::count;
use crate::launched::{Parts, PlayerEnd};
use crate::spawner::{SpawnError, Spawner};
use crate::stop::Stop;
use crate::wire::Wire;
use crate::wired::Wired;
use crate::wiring::Wiring;
use sm_model::NoMemory;
use std::alloc::Global;
use std::collections::VecDeque;
use std::thread::Threads;

/// A spawner that is given the parts of its players, and takes those of one at each start.
#[derive(Drop)]
pub struct Crew<R: Threads + Drop, W: Drop, F: Drop, G: Drop> {
    alloc: Global,
    rt: R,
    stop: Stop,
    turns: u64,
    parts: VecDeque<Parts<W, F, G>>,
    faults: u64,
    started: u64,
    ends: Vec<PlayerEnd<W, F>>,
    wired: Wired,
}

impl<R: Threads + Drop, W: Drop, F: Drop, G: Drop> Crew<R, W, F, G> {
    ghost use Rattle.std.specs.Prelude.{None};
    ghost use Rattle.sm_players.specs.Adding.{PartsAlone};
    ghost use Rattle.sm_players.specs.Wiring.{rewired};

    /// A crew without parts. Its players take so many events at most, and `stop` raises that flag.
    pub fn new(alloc: Global, rt: R, stop: Stop, turns: u64) -> Crew<R, W, F, G>
        ensures started { result.started ≡ 0 }
        ensures turns { result.turns ≡ turns }
    {
        Crew {
            alloc,
            rt,
            stop,
            turns,
            parts: VecDeque::new(alloc),
            faults: 0,
            started: 0,
            ends: Vec::new(alloc),
            wired: Wired::never(),
        }
    }

    /// Wires were asked for, and there are none.
    pub fn refuse(&mut self)
        ensures wired { self.new.wired ≡ rewired self.old.wired None }
        ensures started { self.new.started ≡ self.old.started }
        ensures turns { self.new.turns ≡ self.old.turns }
        ensures faults { self.new.faults ≡ self.old.faults }
    {
        self.wired.ask(None);
    }

    /// Adds the parts of one player. They are taken in the order in which they were added.
    pub fn add(&mut self, wire: W, forward: F, gate: G) -> Result<(), NoMemory>
        ensures { PartsAlone self.old self.new }
    {
        let parts = Parts {
            wire,
            forward,
            gate,
        };
        match self.parts.push_back(parts) {
            Ok(()) => Ok(()),
            Err(_) => Err(NoMemory),
        }
    }
}

impl<
    R: Threads + Drop,
    W: Wire + Drop + Send + 'static,
    F: Forward + Drop + Send + 'static,
    G: Gate + Drop + Send + 'static,
> Spawner for Crew<R, W, F, G> {
    type Runtime = R;

    type Wire = W;

    type Forward = F;

    type Gate = G;

    ghost spawn_faults = { λ c. c.faults };

    ghost started = { λ c. c.started };

    ghost limit = { λ c. c.turns };

    ghost ended = { λ c. ends_of W.seen.view F.asked c.ends.items };

    ghost chosen = { λ c. c.wired };

    ghost may_start = { λ c. c.started < 18446744073709551615 };

    fn select(&mut self, wiring: Wiring) -> Result<(), SpawnError> {
        self.wired.ask(Some(wiring));
        Ok(())
    }

    fn runtime(&self) -> &R {
        &self.rt
    }

    fn allocator(&self) -> Global {
        self.alloc
    }

    fn turns(&self) -> u64 {
        self.turns
    }

    fn prepare(&mut self) -> Result<Parts<W, F, G>, SpawnError> {
        if self.started < u64::MAX {
            if let Some(parts) = self.parts.pop_front() {
                return Ok(parts);
            }
        }
        self.faults = self.faults.saturating_add(1);
        Err(SpawnError::Failed)
    }

    fn count_start(&mut self) {
        self.started += 1;
    }

    fn count_fault(&mut self) {
        self.faults = self.faults.saturating_add(1);
    }

    fn stop(&mut self) {
        self.stop.ask();
    }

    // These are the clauses of the trait, which have to stand here for such an argument.
    fn note(&mut self, ends: Vec<PlayerEnd<W, F>>)
        requires few { vec_len ends < 4294967296 }
        ensures ended { ends_of W.seen.view F.asked self.new.ends.items ≡ ends_of W.seen.view F.asked ends.items }
        ensures faulted { 0 < (count_of (ends_of W.seen.view F.asked self.new.ends.items)).faulted → Rose self.old.faults self.new.faults }
        ensures chosen { self.new.wired ≡ self.old.wired }
        ensures started { self.new.started ≡ self.old.started }
        ensures later { self.old.faults ≤ self.new.faults }
    {
        if count(&ends).faulted > 0 {
            self.faults = self.faults.saturating_add(1);
        }
        self.ends = ends;
    }
}
