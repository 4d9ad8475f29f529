//! Streams, played one after another.
ghost use Rattle.std.specs.Prelude.{◌≤◌, ◌<◌, ◌-◌, ◌^◌, Some, length};
ghost use Rattle.sm_client.specs.Turns.{fresh, meant};
ghost use Rattle.sm_client.specs.Ends.{HasCause};
ghost use Rattle.sm_client.specs.Plays.{Played, PlaysKept, PlayedKept};
ghost use Rattle.sm_client.specs.Dials.{LeavesDial, carried};
ghost use Rattle.sm_client.specs.Served.{PlayedServed};

use crate::policies::Policies;
use crate::stream::Stream;
use crate::{End, Plan, Report};
use sm_ends::Tracks;
use sm_fetch::Dial;
use sm_policy::Policy;
use std::alloc::Global;

// The streams of a plan.
fn play_all<C: Dial, T: Tracks>(
    alloc: Global,
    dial: &mut C,
    tracks: &mut T,
    policies: &mut Policies,
    plan: &Plan,
) -> Report
    requires streams { length plan.now.streams ≤ 16 }
    requires count { plan.now.count ≤ 2 ^ 32 - 1 }
    requires tries { 0 < plan.now.tries }
    requires refresh { 0 < plan.now.refresh }
    ensures plays { PlaysKept (meant pick_after retired_after) plan.now (fresh policies.old.acting policies.old.rest.items) 0 plan.now.streams
        (C.log dial.old) (C.log dial.new) (C.store dial.old) (C.store dial.new) (T.held tracks.old) (T.held tracks.new) result }
    ensures cause { HasCause (T.faults tracks.old) (T.faults tracks.new) (Some result.end) }
    ensures dial { LeavesDial C.log C.store C.later C.dial_faults C.chosen dial.old dial.new (carried result.end) }
{
    let mut played: u64 = 0;
    let mut number: u32 = 0;
    let names = plan.streams.as_slice();
    for name in names {
        let stream = Stream {
            alloc,
            plan,
            name,
            number,
        };
        let count = stream.play(dial, tracks, policies);
        played += count.written;
        match count.end {
            End::Done => {}
            end => return Report { played, end },
        }
        number += 1;
    }
    Report {
        played,
        end: End::Done,
    }
}

/// Plays the streams of a plan one after another, each to the track of its number: for each it reads the manifest, and asks
/// for one fragment after another, each from where the one before it ended, at the quality that the policy chooses which acts
/// ([MS-SSTR] 3.2). The first end that isn't `Done` ends the call. A policy that has retired is dropped, and the next one
/// takes over; the last one stays.
pub fn play<C: Dial, T: Tracks>(
    alloc: Global,
    dial: &mut C,
    tracks: &mut T,
    policies: Vec<Box<dyn Policy>>,
    plan: &Plan,
) -> Report
    requires policy { 0 < length policies.items }
    requires streams { length plan.now.streams ≤ 16 }
    requires count { plan.now.count ≤ 2 ^ 32 - 1 }
    requires tries { 0 < plan.now.tries }
    requires refresh { 0 < plan.now.refresh }
    ensures played { Played (meant pick_after retired_after) plan.now policies.items
        (C.log dial.old) (C.log dial.new) (T.held tracks.old) (T.held tracks.new) result }
    ensures kept { PlayedKept (meant pick_after retired_after) plan.now policies.items
        (C.log dial.old) (C.log dial.new) (C.store dial.old) (C.store dial.new) (T.held tracks.old) (T.held tracks.new) result }
    ensures cause { HasCause (T.faults tracks.old) (T.faults tracks.new) (Some result.end) }
    ensures dial { LeavesDial C.log C.store C.later C.dial_faults C.chosen dial.old dial.new (carried result.end) }
    ensures served { PlayedServed (meant pick_after retired_after) plan.now policies.items
        (C.log dial.old) (C.log dial.new) (T.held tracks.old) (T.held tracks.new) result }
{
    let mut policies = Policies::new(policies);
    policies.settle();
    play_all(alloc, dial, tracks, &mut policies, plan)
}
