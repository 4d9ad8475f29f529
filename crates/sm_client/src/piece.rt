//! Fragments, asked for.
ghost use Rattle.std.specs.Prelude.{◌≡◌, ◌<◌, length, IfOk, Some};
ghost use Rattle.sm_manin.specs.declared.listing.StreamListing.{StreamListing};
ghost use Rattle.sm_client.specs.Turns.{fresh, meant};
ghost use Rattle.sm_client.specs.Stands.{Standing, ladder_of, miss_of};
ghost use Rattle.sm_client.specs.Asks.{outcome_of};
ghost use Rattle.sm_fetch.specs.declared.dial.Exchange.{Exchange};
ghost use Rattle.sm_fetch.specs.Exchanges.{answer_len};
ghost use Rattle.sm_client.specs.Calls.{PieceOnce, PiecesBy, MayPiece, IsAskedOf, TookValid, AskedKept, PiecesKept};
ghost use Rattle.sm_client.specs.Dials.{LeavesDial, carried_asked, carried_pieces};

use crate::policies::Policies;
use crate::rest::rest;
use crate::stream::Stream;
use crate::{Miss, Outcomes, miss_of};
use sm_fetch::{Dial, Fetched, Got, fetch_fragment};
use sm_manin::{Level, StreamListing};
use sm_model::{Address, NoMemory, RawFragment};
use sm_policy::{Heard, Outcome};
use std::alloc::Global;

/// The fragment that is asked for.
#[derive(Clone, Copy)]
pub struct Wanted<'a> {
    /// What the last manifest lists of its stream.
    pub listing: &'a StreamListing,
    /// Its start, in ticks of the stream's timescale.
    pub start: u64,
    /// How many starts are known behind this one.
    pub ahead: u64,
}

/// What one request for a fragment gave.
#[derive(Drop)]
pub enum Asked {
    /// The fragment, at this place of the ladder.
    Took(RawFragment, usize),
    Missed(Miss),
    NoMemory,
}

/// What all tries at a fragment gave.
#[derive(Drop)]
pub enum Pieces {
    /// The fragment, at this place of the ladder.
    Took(RawFragment, usize),
    GaveUp(Outcomes),
    NoMemory,
}

/// Bitrates in ascending order.
pub fn ladder_of(alloc: Global, levels: &[Level]) -> Result<Vec<u32>, NoMemory>
    ensures { IfOk result (λ ladder. ladder.items ≡ ladder_of levels.now) }
{
    let mut ladder = Vec::new(alloc);
    for level in levels {
        ladder.push(level.bitrate)?;
    }
    Ok(ladder)
}

// What the policy hears: a fragment that was read was taken, with the length of the whole answer.
fn outcome_of(got: &Got, bytes: u64) -> Outcome
    ensures { (x : Exchange) → bytes ≡ answer_len x.answer → result ≡ outcome_of got.now x }
{
    match got {
        Got::Fragment(_) => Outcome::Took { bytes },
        _ => Outcome::Missed,
    }
}

// What was got, for the caller. A manifest is never got here.
fn asked_of(got: Got, level: usize) -> Asked
    ensures { IsAskedOf got level result }
{
    match got {
        Got::Fragment(raw) => Asked::Took(raw, level),
        other => match miss_of(&other) {
            Some(miss) => Asked::Missed(miss),
            None => Asked::NoMemory,
        },
    }
}

impl Stream<'_> {
    // One request for it, after a while where one was made already, at the place of the ladder that the policy chooses, which hears
    // what came of it.
    fn ask_once<C: Dial>(
        &self,
        dial: &mut C,
        policies: &mut Policies,
        wanted: &Wanted<'_>,
        again: bool,
    ) -> Asked
        requires { 0 < length wanted.now.listing.now.levels }
        ensures once { PieceOnce (meant pick_after retired_after) self.now wanted.now
            policies.old.acting policies.new.acting (C.log dial.old) (C.log dial.new) result }
        ensures rest { policies.new.rest.items ≡ policies.old.rest.items }
        ensures dial { LeavesDial C.log C.store C.later C.dial_faults C.chosen dial.old dial.new (carried_asked result) }
        ensures kept { AskedKept self.now wanted.now (C.store dial.old) (C.store dial.new) result }
    {
        rest(dial, again);
        let Ok(ladder) = ladder_of(self.alloc, wanted.listing.levels.as_slice()) else {
            return Asked::NoMemory;
        };
        let level = policies.choose(ladder.as_slice(), wanted.ahead);
        let Ok(stream) = self.name.copy(self.alloc) else {
            return Asked::NoMemory;
        };
        let address = Address {
            stream,
            bitrate: ladder[level],
            time: wanted.start,
        };
        let Fetched { got, bytes } = fetch_fragment(
            self.alloc,
            dial,
            &self.plan.place,
            wanted.listing.pattern.as_slice(),
            &address,
        );
        if let Got::NoMemory = &got {
            return Asked::NoMemory;
        }
        let outcome = outcome_of(&got, bytes);
        policies.hear(Heard { level, outcome });
        asked_of(got, level)
    }

    /// As many requests for it as there are tries, a while between them, until the fragment is read. Between them a policy that
    /// has retired makes room for the next one.
    pub fn ask<C: Dial>(&self, dial: &mut C, policies: &mut Policies, wanted: &Wanted<'_>) -> Pieces
        requires { 0 < length wanted.now.listing.now.levels }
        ensures took { TookValid wanted.now result }
        ensures made { (p : Standing) → MayPiece self.now.plan.now p wanted.now → PiecesBy (meant pick_after retired_after) self.now p wanted.now
            (fresh policies.old.acting policies.old.rest.items) (fresh policies.new.acting policies.new.rest.items) (C.log dial.old) (C.log dial.new) result }
        ensures dial { LeavesDial C.log C.store C.later C.dial_faults C.chosen dial.old dial.new (carried_pieces result) }
        ensures kept { PiecesKept self.now wanted.now (C.store dial.old) (C.store dial.new) result }
    {
        let mut outcomes = Outcomes::new(self.alloc);
        for done in 0..self.plan.tries {
            match self.ask_once(dial, policies, wanted, done > 0) {
                Asked::Took(raw, level) => {
                    policies.settle();
                    return Pieces::Took(raw, level);
                }
                Asked::Missed(miss) => {
                    policies.settle();
                    let Ok(()) = outcomes.push(miss) else {
                        return Pieces::NoMemory;
                    };
                }
                Asked::NoMemory => return Pieces::NoMemory,
            }
        }
        Pieces::GaveUp(outcomes)
    }
}
