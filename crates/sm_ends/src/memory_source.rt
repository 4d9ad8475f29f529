//! A source in memory.
ghost use Rattle.std.specs.Prelude.{◌≡◌, ◌+◌, ◌^◌, ◌<◌, ◌≤◌, ◌↔◌, ◌++◌, take, drop, min, length, false, Some, IfOk, IsErr, Contains};
ghost use Rattle.std.specs.Io.{ReadsAtMost};
ghost use Rattle.std.specs.Io.KnownBytes.{ReadConsumes};
ghost use Rattle.sm_ends.specs.Faults.{HasCause};
ghost use Rattle.sm_ends.specs.Memory.{one_more};

use crate::calls::is_to_fail;
use crate::{Calls, Failed, Source};
use sm_model::Bytes;
use std::marker::Model;

/// Gives bytes that lie in memory.
///
/// A call whose number is listed fails, and each other call gives as many bytes as fit.
#[derive(Drop)]
pub struct MemorySource {
    bytes: Bytes,
    at: usize,
    failing: Calls,
    calls: u64,
    faults: u64,
}

impl Model for MemorySource {
    ghost use Rattle.std.specs.Prelude.{drop, length, ◌≤◌};
    ghost use Rattle.sm_ends.specs.Memory.{SourceState};

    ghost Value = { SourceState };

    ghost view = { λ s. record { left = drop s.at s.bytes; failing = s.failing; calls = s.calls; faults = s.faults } };

    ghost invariant = { λ s. s.at ≤ length s.bytes };
}

impl MemorySource {
    /// All these bytes are left, with the numbers of the calls that fail.
    pub fn new(bytes: Bytes, failing: Calls) -> MemorySource
        ensures { result ≡ record { left = bytes; failing = failing; calls = 0; faults = 0 } }
    {
        MemorySource {
            bytes,
            at: 0,
            failing,
            calls: 0,
            faults: 0,
        }
    }

    /// The bytes that are left.
    pub fn left(&self) -> &[u8]
        ensures { result.now ≡ self.now.left }
    {
        &self.bytes.as_slice()[self.at..]
    }

    /// How often it has failed.
    pub fn faults(&self) -> u64
        ensures { result ≡ self.now.faults }
    {
        self.faults
    }

    /// Whether a call has failed for want of memory: none does, since reading takes no memory.
    pub fn starved(&self) -> bool
        ensures { result ≡ false }
    {
        false
    }
}

// Copies as many bytes as fit, from a place on.
fn copy_from(bytes: &[u8], at: usize, into: &mut [u8]) -> usize
    requires { at ≤ length bytes.now }
    ensures count { result ≡ min (length (drop at bytes.now)) (length into.new) }
    ensures taken { drop at bytes.now ≡ take result into.new ++ drop (at + result) bytes.now }
    ensures within { at + result ≤ length bytes.now }
    ensures sum { at + result < 2 ^ 64 }
{
    let rest = &bytes[at..];
    let count = rest.len().min(into.len());
    into[..count].copy_from_slice(&rest[..count]);
    count
}

impl Source for MemorySource {
    ghost left = { λ s. Some s.left };

    ghost faults = { λ s. s.faults };

    fn read(&mut self, into: &mut [u8]) -> Result<usize, Failed>
        requires { 0 < length into.old }
        ensures bound { ReadsAtMost result into.new }
        ensures bytes { ReadConsumes (Some self.old.left) (Some self.new.left) result into.new }
        ensures cause { HasCause self.old.faults self.new.faults result }

        ensures whole { IfOk result (λ n. n ≡ min (length self.old.left) (length into.new)) }
        ensures calls { self.new.calls ≡ one_more self.old.calls }
        ensures kept { self.new.failing ≡ self.old.failing }
        ensures fails { IsErr result ↔ Contains self.old.failing self.new.calls }
    {
        self.calls = self.calls.saturating_add(1);
        if is_to_fail(&self.failing, self.calls) {
            self.faults = self.faults.saturating_add(1);
            return Err(Failed);
        }
        let count = copy_from(self.bytes.as_slice(), self.at, into);
        self.at += count;
        Ok(count)
    }
}
