//! A push that is looked through for one fragment.
ghost use Rattle.std.specs.Prelude.{◌≡◌, ◌<◌, ◌≤◌, ◌+◌, ◌^◌, [], true, length, IsTrue, IsFalse, IfSome, OnOk};
ghost use Rattle.sm_push.specs.Standing.{IsPartial, Stands, rest_of};
ghost use Rattle.sm_pick.specs.Skim.{standing, skipped, cut_at, is_at, Feeds, Passable, PassesOver};

use sm_box::{BoxHead, Head};
use sm_model::{Cause, Items, Refusal, is_same};
use sm_moof::samples_fit;
use sm_push::state::{BoxDecision, PendingMoof, TopBox};
use sm_push::{Kept, StepFault, decide, start};
use std::alloc::Global;

/// A push without a header, of which the samples of other fragments are passed over: they are never held.
#[derive(Drop)]
pub struct Skim {
    pub alloc: Global,
    pub kept: Kept,
    // How many bytes came.
    pub bytes: u64,
}

fn is_at(moof: &PendingMoof, track: u32, time: u64) -> bool
    ensures { result ≡ is_at moof.now track time }
{
    moof.run.id == track && moof.run.time == time
}

impl Skim {
    /// No bytes came yet.
    pub fn new(alloc: Global) -> Skim
        ensures stands { Stands true (standing result) [] }
        ensures partial { IsPartial result.kept }
    {
        Skim {
            alloc,
            kept: start(alloc, true),
            bytes: 0,
        }
    }

    /// How many bytes may come next at once: no more than are left of a box that is passed over, and else so many that they
    /// complete one item at the most.
    pub fn due(&self) -> u64
        requires { IsPartial self.now.kept }
        ensures some { 0 < result }
        ensures within { 0 < self.now.kept.skip → result ≤ self.now.kept.skip }
    {
        if 0 < self.kept.skip {
            self.kept.skip
        } else {
            self.kept.due()
        }
    }

    /// So many bytes came of a box that is passed over.
    pub fn skip(&mut self, count: u64)
        requires within { count ≤ self.old.kept.skip }
        requires short { self.old.bytes + count < 2 ^ 64 }
        ensures { self.new ≡ skipped self.old count }
    {
        self.kept.skip -= count;
        self.bytes += count;
    }

    /// Takes the next bytes.
    pub fn feed(&mut self, piece: &[u8]) -> Result<Items, StepFault>
        requires partial { IsPartial self.old.kept }
        requires short { self.old.bytes + length piece.now < 2 ^ 64 }
        ensures feeds { Feeds self.old.kept self.new.kept piece.now result }
        ensures partial { OnOk result (IsPartial self.new.kept) }
        ensures bytes { self.new.bytes ≡ self.old.bytes + length piece.now }
    {
        self.bytes += piece.len() as u64;
        let mut items = Items::new(self.alloc);
        self.kept.take_piece(self.alloc, &mut items, piece)?;
        Ok(items)
    }

    // The size of the `mdat` that was begun, where another fragment than the one sought is sure to come of it.
    fn passable(&self, track: u32, time: u64) -> Option<u64>
        requires { IsPartial self.now.kept }
        ensures { IfSome result (λ size. Passable self.now.kept track time size) }
    {
        let Some(moof) = &self.kept.state.moof else {
            return None;
        };
        if is_at(moof, track, time) {
            return None;
        }
        let held = self.kept.held.as_slice();
        let BoxDecision::Take(TopBox::Mdat, size) = decide(&self.kept.state, held) else {
            return None;
        };
        let Head::Whole {
            kind,
            head,
            size: _,
        } = BoxHead::read(held)
        else {
            return None;
        };
        if is_same(&kind, b"mdat") && samples_fit(moof.size, head, size - head, &moof.run) {
            Some(size)
        } else {
            None
        }
    }

    /// Where an `mdat` was begun out of which another fragment than the one sought is sure to come, goes on behind it: what is left of it
    /// is passed over. Answers whether it did.
    pub fn pass(&mut self, track: u32, time: u64) -> bool
        requires { IsPartial self.old.kept }
        ensures passed { IsTrue result → PassesOver self.old self.new track time }
        ensures same { IsFalse result → self.new ≡ self.old }
    {
        let Some(size) = self.passable(track, time) else {
            return false;
        };
        self.kept.skip = size - self.kept.held.len();
        self.kept.held.clear();
        self.kept.state.moof = None;
        self.kept.state.at = self.kept.state.at.saturating_add(size);
        true
    }

    /// Why the bytes may not end here: inside a box, or between a `moof` and its `mdat`.
    pub fn end(&self) -> Option<Refusal>
        requires { IsPartial self.now.kept }
        ensures { result ≡ cut_at (rest_of self.now.kept []).inside self.now.bytes }
    {
        if self.kept.is_inside() {
            Some(Refusal {
                at: self.bytes,
                cause: Cause::CutOff,
            })
        } else {
            None
        }
    }
}
