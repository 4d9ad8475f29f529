//! Manifests, asked for.
ghost use Rattle.std.specs.Prelude.{◌≡◌};
ghost use Rattle.sm_client.specs.Stands.{Stand, listed};
ghost use Rattle.sm_client.specs.Asks.{MayList};
ghost use Rattle.sm_client.specs.Calls.{ListedOnce, ListedBy, IsListedOf};
ghost use Rattle.sm_client.specs.Dials.{LeavesDial, carried_listed, carried_manifest};

use crate::rest::rest;
use crate::stream::Stream;
use crate::{Miss, Outcomes, miss_of};
use sm_fetch::{Dial, Got, get_manifest};
use sm_manin::{Listing, StreamListing};
use sm_model::Name;

/// What one request for the manifest gave of a stream.
#[derive(Drop)]
pub enum Listed {
    /// A manifest was read, and lists this of the stream, if anything.
    Found(Option<StreamListing>),
    Missed(Miss),
    NoMemory,
}

/// What all tries at the manifest gave.
#[derive(Drop)]
pub enum Manifest {
    /// One was read, and lists this of the stream, if anything.
    Read(Option<StreamListing>),
    /// None was read.
    GaveUp(Outcomes),
    NoMemory,
}

// What a manifest lists of the stream of that name.
fn stream_of(listing: Listing, name: &Name) -> Option<StreamListing>
    ensures { result ≡ listed name.now listing.streams }
{
    listing
        .streams
        .into_vec()
        .into_iter()
        .find(|stream| stream.name == *name)
}

// What was got, of the stream of that name. A fragment is never got here.
fn listed_of(got: Got, name: &Name) -> Listed
    ensures { IsListedOf got name.now result }
{
    match got {
        Got::Manifest(listing) => Listed::Found(stream_of(listing, name)),
        other => match miss_of(&other) {
            Some(miss) => Listed::Missed(miss),
            None => Listed::NoMemory,
        },
    }
}

impl Stream<'_> {
    // One request, after a while where one was made already.
    fn list_once<C: Dial>(&self, dial: &mut C, again: bool) -> Listed
        ensures listed { ListedOnce self.now.plan.now self.now.name.now (C.log dial.old) (C.log dial.new) result }
        ensures dial { LeavesDial C.log C.store C.later C.dial_faults C.chosen dial.old dial.new (carried_listed result) }
    {
        rest(dial, again);
        let got = get_manifest(self.alloc, dial, &self.plan.place);
        listed_of(got, self.name)
    }

    /// As many requests as there are tries, a while between them, until a manifest is read.
    pub fn list<C: Dial>(&self, dial: &mut C) -> Manifest
        ensures listed { (s : Stand) → MayList self.now.plan.now s → ListedBy self.now.plan.now self.now.name.now s (C.log dial.old) (C.log dial.new) result }
        ensures dial { LeavesDial C.log C.store C.later C.dial_faults C.chosen dial.old dial.new (carried_manifest result) }
    {
        let mut outcomes = Outcomes::new(self.alloc);
        for done in 0..self.plan.tries {
            match self.list_once(dial, done > 0) {
                Listed::Found(found) => return Manifest::Read(found),
                Listed::Missed(miss) => {
                    let Ok(()) = outcomes.push(miss) else {
                        return Manifest::NoMemory;
                    };
                }
                Listed::NoMemory => return Manifest::NoMemory,
            }
        }
        Manifest::GaveUp(outcomes)
    }
}
