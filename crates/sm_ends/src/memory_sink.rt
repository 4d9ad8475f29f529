//! A sink in memory.
ghost use Rattle.std.specs.Prelude.{◌≡◌, ◌<◌, ◌⊎◌, [], length, false, Some, IsTrue, IfOk, IsErr, OnErr, Contains};
ghost use Rattle.std.specs.Io.{WritesAtMost};
ghost use Rattle.std.specs.Io.KnownBytes.{WriteAppends};
ghost use Rattle.sm_ends.specs.Faults.{HasCause};
ghost use Rattle.sm_ends.specs.Memory.{one_more};

use crate::calls::is_to_fail;
use crate::{Calls, Failed, Sink};
use std::alloc::Global;
use std::marker::Model;

/// Holds what is written to it, in memory.
///
/// A call whose number is listed fails, and each other call takes its whole piece, unless memory runs out: then it fails
/// and `starved` tells it.
#[derive(Drop)]
pub struct MemorySink {
    held: Vec<u8>,
    failing: Calls,
    calls: u64,
    faults: u64,
    starved: bool,
}

impl Model for MemorySink {
    ghost use Rattle.sm_ends.specs.Memory.{SinkState};

    ghost Value = { SinkState };

    ghost view = { λ s. record { held = s.held.items; failing = s.failing; calls = s.calls; faults = s.faults; starved = s.starved } };
}

impl MemorySink {
    /// An empty sink, with the numbers of the calls that fail.
    pub fn new(alloc: Global, failing: Calls) -> MemorySink
        ensures { result ≡ record { held = []; failing = failing; calls = 0; faults = 0; starved = false } }
    {
        MemorySink {
            held: Vec::new(alloc),
            failing,
            calls: 0,
            faults: 0,
            starved: false,
        }
    }

    /// The bytes that it holds.
    pub fn held(&self) -> &[u8]
        ensures { result.now ≡ self.now.held }
    {
        &self.held
    }

    /// How often it has failed.
    pub fn faults(&self) -> u64
        ensures { result ≡ self.now.faults }
    {
        self.faults
    }

    /// Whether a call has failed for want of memory.
    pub fn starved(&self) -> bool
        ensures { result ≡ self.now.starved }
    {
        self.starved
    }
}

impl Sink for MemorySink {
    ghost held = { λ s. Some s.held };

    ghost faults = { λ s. s.faults };

    fn write(&mut self, bytes: &[u8]) -> Result<usize, Failed>
        ensures bound { WritesAtMost result bytes.now }
        ensures some { 0 < length bytes.now → IfOk result (λ n. 0 < n) }
        ensures bytes { WriteAppends (Some self.old.held) (Some self.new.held) result bytes.now }
        ensures cause { HasCause self.old.faults self.new.faults result }

        ensures whole { IfOk result (λ n. n ≡ length bytes.now) }
        ensures calls { self.new.calls ≡ one_more self.old.calls }
        ensures kept { self.new.failing ≡ self.old.failing }
        ensures listed { Contains self.old.failing self.new.calls → IsErr result }
        ensures fails { OnErr result (Contains self.old.failing self.new.calls ⊎ IsTrue self.new.starved) }
        ensures stays { IsTrue self.old.starved → IsTrue self.new.starved }
    {
        self.calls = self.calls.saturating_add(1);
        if is_to_fail(&self.failing, self.calls) {
            self.faults = self.faults.saturating_add(1);
            return Err(Failed);
        }
        match self.held.extend_from_slice(bytes) {
            Ok(()) => Ok(bytes.len()),
            Err(_) => {
                self.starved = true;
                self.faults = self.faults.saturating_add(1);
                Err(Failed)
            }
        }
    }
}
