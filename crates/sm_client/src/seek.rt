//! Manifests are read until the expected start is known.
ghost use Rattle.std.specs.Prelude.{◌≡◌, ◌≢◌, ◌<◌, ◌^◌, ◌+◌, ◌-◌, ℕ, ◌⊎◌, List, [], length, false, Some, IfSome, IfNone};
ghost use Rattle.sm_client.specs.Starts.{has};
ghost use Rattle.sm_client.specs.Stands as stand;
ghost use Rattle.sm_client.specs.Asks.{Relists};
ghost use Rattle.sm_client.specs.Ends.{EndsAt, IsTail};
ghost use Rattle.sm_client.specs.Calls.{Holds, HasLevels, Sought, Began, Relisted, at};
ghost use Rattle.sm_client.specs.Dials.{LeavesDial, carried_begun, carried_if};

use crate::list::Manifest;
use crate::standing::Standing;
use crate::stream::Stream;
use crate::{End, Plan};
use sm_fetch::Dial;

/// How a stream begins.
#[derive(Drop)]
pub enum Begun {
    Stands(Standing),
    Ended(End),
}

// The end that the last manifest settles, where it is of the expected start, which isn't known.
fn settled(plan: &Plan, standing: &Standing) -> Option<End>
    ensures end { (p : stand.Standing) (number : ℕ) → Holds standing.now p → has p.expected p.known ≡ false → length p.written < plan.now.count
        → IfSome result (λ end. EndsAt plan.now number end (at (stand.standing p) [])) }
    ensures none { (p : stand.Standing) → Holds standing.now p → has p.expected p.known ≡ false → length p.written < plan.now.count
        → IfNone result (Relists plan.now p) }
    ensures tail { (p : stand.Standing) (name : List ℕ) → IfSome result (λ end. IsTail plan.now name end (at (stand.standing p) []) [] []) }
    ensures whole { result ≢ Some End.WriteFault }
    ensures narrow { IfNone result (standing.now.manifests < 2 ^ 32 - 1) }
    ensures few { IfNone result (standing.now.manifests ≡ 0 ⊎ standing.now.manifests < plan.now.refresh) }
    ensures quiet { carried_if result ≡ [] }
{
    if standing.manifests == 0 {
        return None;
    }
    match standing.known.lowest() {
        Some(next) => Some(End::Hole {
            expected: standing.expected,
            next,
        }),
        None if standing.manifests >= plan.refresh => Some(End::NoMore {
            expected: standing.expected,
        }),
        None => None,
    }
}

impl Stream<'_> {
    /// Its first manifest.
    pub fn begin<C: Dial>(&self, dial: &mut C) -> Begun
        ensures began { Began self.now (C.log dial.old) (C.log dial.new) result }
        ensures whole { result ≢ Begun.Ended End.WriteFault }
        ensures dial { LeavesDial C.log C.store C.later C.dial_faults C.chosen dial.old dial.new (carried_begun result) }
    {
        match self.list(dial) {
            Manifest::Read(None) => Begun::Ended(End::NoStream { index: self.number }),
            Manifest::Read(Some(listing)) => match Standing::begin(
                self.alloc,
                self.plan.from,
                listing,
            ) {
                Ok(standing) => Begun::Stands(standing),
                Err(_) => Begun::Ended(End::NoMemory),
            },
            Manifest::GaveUp(outcomes) => Begun::Ended(End::NoManifest { outcomes }),
            Manifest::NoMemory => Begun::Ended(End::NoMemory),
        }
    }

    // One manifest more.
    fn relist<C: Dial>(&self, dial: &mut C, standing: &mut Standing) -> Option<End>
        requires { standing.old.manifests < 2 ^ 32 - 1 }
        ensures relists { (p : stand.Standing) → Holds standing.old p → Relists self.now.plan.now p
            → Relisted self.now.plan.now self.now.name.now p standing.new (C.log dial.old) (C.log dial.new) result }
        ensures written { standing.new.written ≡ standing.old.written }
        ensures manifests { IfNone result (standing.new.manifests ≡ standing.old.manifests + 1) }
        ensures levels { IfNone result (HasLevels standing.new.listing) }
        ensures whole { result ≢ Some End.WriteFault }
        ensures dial { LeavesDial C.log C.store C.later C.dial_faults C.chosen dial.old dial.new (carried_if result) }
    {
        dial.pause();
        match self.list(dial) {
            Manifest::Read(listing) => match standing.relist(self.alloc, listing) {
                Ok(()) => None,
                Err(_) => Some(End::NoMemory),
            },
            Manifest::GaveUp(outcomes) => Some(End::NoManifest { outcomes }),
            Manifest::NoMemory => Some(End::NoMemory),
        }
    }

    /// Manifests, with a pause before each, until the expected start is known, or until that which ends the play.
    pub fn seek<C: Dial>(&self, dial: &mut C, standing: &mut Standing) -> Option<End>
        requires levels { HasLevels standing.old.listing }
        ensures sought { (p : stand.Standing) (number : ℕ) → Holds standing.old p → length p.written < self.now.plan.now.count
            → Sought self.now.plan.now self.now.name.now number p standing.new (C.log dial.old) (C.log dial.new) result }
        ensures written { standing.new.written ≡ standing.old.written }
        ensures levels { IfNone result (HasLevels standing.new.listing) }
        ensures whole { result ≢ Some End.WriteFault }
        ensures dial { LeavesDial C.log C.store C.later C.dial_faults C.chosen dial.old dial.new (carried_if result) }
    {
        while !standing.is_known() {
            if let Some(end) = settled(self.plan, standing) {
                return Some(end);
            }
            if let Some(end) = self.relist(dial, standing) {
                return Some(end);
            }
        }
        None
    }
}
