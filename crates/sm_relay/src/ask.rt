//! Fragments, asked for.
ghost use Rattle.std.specs.Prelude.{List};
ghost use Rattle.sm_fetch.specs.declared.dial.Exchange.{Exchange};
ghost use Rattle.sm_pull.specs.Asks.{Asks};
ghost use Rattle.sm_relay.specs.Asked.{ReadsFragment};

use sm_client::{Outcomes, miss_of};
use sm_fetch::{Dial, Got, get_fragment};
use sm_model::{Address, RawFragment};
use sm_pull::{PullPlan, rest};
use std::alloc::Global;

/// What all tries at a fragment gave.
#[derive(Drop)]
pub enum Asked {
    /// It was read.
    Took(RawFragment),
    /// It wasn't. What came in place of it, in order.
    GaveUp(Outcomes),
    NoMemory,
}

/// As many requests for the fragment at an address as there are tries, a while between them, until it is read ([MS-SSTR] 2.2.3, 2.2.4).
/// The Url is that of its stream in the manifest.
pub fn ask<C: Dial>(
    alloc: Global,
    dial: &mut C,
    plan: &PullPlan,
    url: &[u8],
    address: &Address,
) -> Asked
    ensures { (made : List Exchange) × Asks C.log C.store C.later C.dial_faults C.chosen dial.old dial.new made
        × ReadsFragment plan.now url.now address.now made result }
{
    let mut outcomes = Outcomes::new(alloc);
    for done in 0..plan.tries {
        rest(dial, done > 0);
        match get_fragment(alloc, dial, &plan.place, url, address) {
            Got::Fragment(raw) => return Asked::Took(raw),
            other => match miss_of(&other) {
                Some(miss) => match outcomes.push(miss) {
                    Ok(()) => {}
                    Err(_) => return Asked::NoMemory,
                },
                None => return Asked::NoMemory,
            },
        }
    }
    Asked::GaveUp(outcomes)
}
