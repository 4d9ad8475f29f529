//! Fragments, asked for with their places.
ghost use Rattle.std.specs.Prelude.{◌≡◌, List};
ghost use Rattle.sm_fetch.specs.declared.dial.Exchange.{Exchange};
ghost use Rattle.sm_pull.specs.Asks.{Asks};
ghost use Rattle.sm_standby.specs.Turns.{missed};
ghost use Rattle.sm_standby.specs.Asked.{Finds, found_of};

use sm_client::{Miss, Outcomes};
use sm_fetch::{Dial, Place, Placed, get_placed};
use sm_model::{Address, RawFragment};
use sm_pull::rest;
use std::alloc::Global;

// What all tries at an address gave.
#[derive(Drop)]
pub(crate) enum Found {
    // The fragment, and its place in the primary's log.
    At(u32, RawFragment),
    // The primary keeps none there.
    Absent,
    // What came in place of an answer, in order.
    GaveUp(Outcomes),
    NoMemory,
}

// What came in place of a fragment. That none is kept there is no miss.
fn miss_of(placed: &Placed) -> Option<Miss>
    ensures { result ≡ missed placed.now }
{
    match placed {
        Placed::Fragment { .. } | Placed::NoMemory => None,
        Placed::Status(status) if *status == 404 => None,
        Placed::Status(status) => Some(Miss::Status(*status)),
        Placed::Cut => Some(Miss::Cut),
        Placed::Unreadable { at } => Some(Miss::Unreadable { at: *at }),
        Placed::Lost => Some(Miss::Lost),
    }
}

// What was got that is no miss: a status says here that none is there.
fn found_of(placed: Placed) -> Found
    ensures { result ≡ found_of placed }
{
    match placed {
        Placed::Fragment { place, raw } => Found::At(place, raw),
        Placed::Status(_) => Found::Absent,
        _ => Found::NoMemory,
    }
}

// As many requests for an address as there are tries, a while between them, until a fragment is read or none is there.
pub(crate) fn ask<C: Dial>(
    alloc: Global,
    dial: &mut C,
    place: &Place,
    tries: u32,
    url: &[u8],
    address: &Address,
) -> Found
    ensures { (made : List Exchange) × Asks C.log C.store C.later C.dial_faults C.chosen dial.old dial.new made
        × Finds place.now tries url.now address.now made (C.store dial.old) (C.store dial.new) result }
{
    let mut outcomes = Outcomes::new(alloc);
    for done in 0..tries {
        rest(dial, done > 0);
        let placed = get_placed(alloc, dial, place, url, address);
        match miss_of(&placed) {
            Some(miss) => match outcomes.push(miss) {
                Ok(()) => {}
                Err(_) => return Found::NoMemory,
            },
            None => return found_of(placed),
        }
    }
    Found::GaveUp(outcomes)
}
