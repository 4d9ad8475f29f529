//! Manifests, asked for.
ghost use Rattle.std.specs.Prelude.{List};
ghost use Rattle.sm_fetch.specs.declared.dial.Exchange.{Exchange};
ghost use Rattle.sm_pull.specs.Asks.{Asks, ReadsListing};

use crate::rest;
use sm_client::{Outcomes, miss_of};
use sm_fetch::{Dial, Got, Place, get_manifest};
use sm_manin::Listing;
use std::alloc::Global;

/// What all tries at the manifest gave.
#[derive(Drop)]
pub enum Manifest {
    /// One was read.
    Read(Listing),
    /// None was read. What came in place of one, in order.
    GaveUp(Outcomes),
    NoMemory,
}

/// As many requests for the manifest of a place as there are tries, a while between them, until one is read ([MS-SSTR] 2.2.1, 2.2.2).
pub fn read_listing<C: Dial>(alloc: Global, dial: &mut C, place: &Place, tries: u32) -> Manifest
    ensures { (made : List Exchange) × Asks C.log C.store C.later C.dial_faults C.chosen dial.old dial.new made × ReadsListing place.now tries made result }
{
    let mut outcomes = Outcomes::new(alloc);
    for done in 0..tries {
        rest(dial, done > 0);
        match get_manifest(alloc, dial, place) {
            Got::Manifest(listing) => return Manifest::Read(listing),
            other => match miss_of(&other) {
                Some(miss) => match outcomes.push(miss) {
                    Ok(()) => {}
                    Err(_) => return Manifest::NoMemory,
                },
                None => return Manifest::NoMemory,
            },
        }
    }
    Manifest::GaveUp(outcomes)
}
