//! One stream, played.
ghost use Rattle.std.specs.Prelude.{◌≡◌, ◌≢◌, ◌≤◌, ◌<◌, ◌-◌, ◌+◌, ◌^◌, ℕ, length, true, Some, IfOk, IfNone};
ghost use Rattle.std.specs.Io.KnownBytes.{Keeps};
ghost use Rattle.sm_client.specs.Turns.{fresh, meant};
ghost use Rattle.sm_client.specs.Starts.{has};
ghost use Rattle.sm_client.specs.Ends.{HasCause};
ghost use Rattle.sm_client.specs.Stands as stand;
ghost use Rattle.sm_client.specs.Stands.{piece_of};
ghost use Rattle.sm_client.specs.Calls.{Holds, HasLevels, StreamsBy, Streamed};
ghost use Rattle.sm_client.specs.Dials.{LeavesDial, carried, carried_if};

use crate::piece::{Pieces, Wanted};
use crate::policies::Policies;
use crate::seek::Begun;
use crate::standing::Standing;
use crate::{End, Plan};
use sm_ends::Tracks;
use sm_fetch::Dial;
use sm_manin::StreamListing;
use sm_model::{Fragment, Name, NoMemory, Pairs, RawFragment};
use std::alloc::Global;

/// A stream that is played, to the track of its number.
#[derive(Clone, Copy)]
pub struct Stream<'a> {
    pub alloc: Global,
    pub plan: &'a Plan,
    pub name: &'a Name,
    /// Its place in the plan, from 0.
    pub number: u32,
}

/// What the play of one stream did.
#[derive(Drop)]
pub struct Count {
    /// How many fragments were written.
    pub written: u64,
    pub end: End,
}

impl Stream<'_> {
    // The fragment that was read, at that place of the ladder, and what it names ahead.
    fn fragment_of(
        &self,
        listing: &StreamListing,
        level: usize,
        raw: RawFragment,
    ) -> Result<(Fragment, Pairs), NoMemory>
        requires { level < length listing.now.levels }
        ensures { IfOk result (λ r. (r.0 ≡ (piece_of self.now.name.now listing.now level raw).fragment) × (r.1 ≡ raw.ahead)) }
    {
        let fragment = Fragment {
            stream: self.name.copy(self.alloc)?,
            bitrate: listing.levels.as_slice()[level].bitrate,
            time: raw.time,
            duration: raw.duration,
            signed: raw.signed,
            samples: raw.samples,
        };
        Ok((fragment, raw.ahead))
    }

    // The fragment that is expected, whose start is known.
    fn add_piece<C: Dial, T: Tracks>(
        &self,
        dial: &mut C,
        tracks: &mut T,
        policies: &mut Policies,
        standing: &mut Standing,
    ) -> Option<End>
        requires levels { HasLevels standing.old.listing }
        requires few { standing.old.written < 2 ^ 32 - 1 }
        ensures added { (p : stand.Standing) → Holds standing.old p → length p.written < self.now.plan.now.count → has p.expected p.known ≡ true
            → StreamsBy (meant pick_after retired_after) self.now p (fresh policies.old.acting policies.old.rest.items)
            (fresh policies.new.acting policies.new.rest.items) standing.new C.log C.store dial.old dial.new T.held tracks.old tracks.new result }
        ensures others { (k : ℕ) → k ≢ self.now.number → Keeps (T.held tracks.old k) (T.held tracks.new k) }
        ensures cause { HasCause (T.faults tracks.old) (T.faults tracks.new) result }
        ensures levels { standing.new.listing ≡ standing.old.listing }
        ensures written { IfNone result (standing.new.written ≡ standing.old.written + 1) }
        ensures upto { standing.new.written ≤ standing.old.written + 1 }
        ensures dial { LeavesDial C.log C.store C.later C.dial_faults C.chosen dial.old dial.new (carried_if result) }
    {
        let Some(listing) = &standing.listing else {
            return Some(End::NoMemory);
        };
        let wanted = Wanted {
            listing,
            start: standing.expected,
            ahead: standing.ahead(),
        };
        match self.ask(dial, policies, &wanted) {
            Pieces::Took(raw, level) => {
                let Ok((fragment, ahead)) = self.fragment_of(listing, level, raw) else {
                    return Some(End::NoMemory);
                };
                let seq = standing.written as u32 + 1;
                if let Some(end) = self.write(tracks, seq, level as u32 + 1, &fragment) {
                    return Some(end);
                }
                match standing.wrote(fragment.time + fragment.duration, ahead.as_slice()) {
                    Ok(()) => None,
                    Err(_) => Some(End::NoMemory),
                }
            }
            Pieces::GaveUp(outcomes) => Some(End::GaveUp {
                time: standing.expected,
                outcomes,
            }),
            Pieces::NoMemory => Some(End::NoMemory),
        }
    }

    // One fragment more.
    fn play_one<C: Dial, T: Tracks>(
        &self,
        dial: &mut C,
        tracks: &mut T,
        policies: &mut Policies,
        standing: &mut Standing,
    ) -> Option<End>
        requires levels { HasLevels standing.old.listing }
        requires few { standing.old.written < 2 ^ 32 - 1 }
        ensures added { (p : stand.Standing) → Holds standing.old p → length p.written < self.now.plan.now.count
            → StreamsBy (meant pick_after retired_after) self.now p (fresh policies.old.acting policies.old.rest.items)
            (fresh policies.new.acting policies.new.rest.items) standing.new C.log C.store dial.old dial.new T.held tracks.old tracks.new result }
        ensures others { (k : ℕ) → k ≢ self.now.number → Keeps (T.held tracks.old k) (T.held tracks.new k) }
        ensures cause { HasCause (T.faults tracks.old) (T.faults tracks.new) result }
        ensures levels { IfNone result (HasLevels standing.new.listing) }
        ensures written { IfNone result (standing.new.written ≡ standing.old.written + 1) }
        ensures upto { standing.new.written ≤ standing.old.written + 1 }
        ensures dial { LeavesDial C.log C.store C.later C.dial_faults C.chosen dial.old dial.new (carried_if result) }
    {
        if let Some(end) = self.seek(dial, standing) {
            return Some(end);
        }
        self.add_piece(dial, tracks, policies, standing)
    }

    /// Plays it.
    pub fn play<C: Dial, T: Tracks>(
        &self,
        dial: &mut C,
        tracks: &mut T,
        policies: &mut Policies,
    ) -> Count
        requires count { self.now.plan.now.count ≤ 2 ^ 32 - 1 }
        ensures streamed { Streamed (meant pick_after retired_after) self.now (fresh policies.old.acting policies.old.rest.items)
            (fresh policies.new.acting policies.new.rest.items) result.written result.end C.log C.store dial.old dial.new T.held tracks.old tracks.new }
        ensures others { (k : ℕ) → k ≢ self.now.number → Keeps (T.held tracks.old k) (T.held tracks.new k) }
        ensures cause { HasCause (T.faults tracks.old) (T.faults tracks.new) (Some result.end) }
        ensures few { result.written ≤ self.now.plan.now.count }
        ensures dial { LeavesDial C.log C.store C.later C.dial_faults C.chosen dial.old dial.new (carried result.end) }
    {
        let mut standing = match self.begin(dial) {
            Begun::Stands(standing) => standing,
            Begun::Ended(end) => return Count { written: 0, end },
        };
        for _ in 0..self.plan.count {
            if let Some(end) = self.play_one(dial, tracks, policies, &mut standing) {
                return Count {
                    written: standing.written,
                    end,
                };
            }
        }
        Count {
            written: standing.written,
            end: End::Done,
        }
    }
}
