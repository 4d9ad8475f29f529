//! Fragments, asked for with the place that their sequence number tells.
ghost use Rattle.std.specs.Prelude.{◌≡◌, ℕ, List, IfOk, MatchOption};
ghost use Rattle.sm_moof.specs.Sequence.{sequence_in};
ghost use Rattle.sm_fetch.specs.Exchanges.{Rose};
ghost use Rattle.sm_fetch.specs.Origins.{DialAlone};
ghost use Rattle.sm_fetch.specs.Placing.{IsNumberedAt, HasNoNumbered, SpellsNumbered, FetchedPlaced, GrowsPlaced};
ghost use Rattle.sm_fetch.specs.TwoBoxes.{IsPair};

use crate::get::FRAGMENT_LIMIT;
use crate::reply::{Reply, read_reply};
use crate::request::put_fragment_request;
use crate::samples::{read_samples, two_boxes};
use crate::{Answer, Dial, Place};
use sm_model::{Address, NoMemory, RawFragment};
use sm_moof::sequence_of;
use std::alloc::Global;

/// What a request for a fragment and its place got.
#[derive(Debug, Drop)]
pub enum Placed {
    /// A valid fragment, of the time that was asked, and the sequence number that it was sent with.
    Fragment { place: u32, raw: RawFragment },
    /// A whole reply with another status than 200.
    Status(u16),
    /// The front of a reply.
    Cut,
    /// No reply, or a whole 200 whose body isn't what was asked for, or has no sequence number. `at` counts from the first byte of the
    /// answer: it is the first byte of a head that is bad, else the first one behind the reply's head.
    Unreadable { at: u64 },
    /// The dial failed. Its count of faults says so too.
    Lost,
    NoMemory,
}

// The number in the `moof` of a body that is one `moof` and one box behind it.
fn number_in(body: &[u8]) -> Option<u32>
    ensures { (moof mdat : List ℕ) → IsPair body.now moof mdat → result ≡ sequence_in moof }
{
    match two_boxes(body) {
        None => None,
        Some((moof, _)) => sequence_of(moof),
    }
}

// The fragment of a body and its number, where it is one and has one.
fn read_numbered(
    alloc: Global,
    time: u64,
    body: &[u8],
) -> Result<Option<(u32, RawFragment)>, NoMemory>
    ensures { IfOk result (λ found. MatchOption found (HasNoNumbered time body.now) (λ x. IsNumberedAt time body.now x.0 x.1)) }
{
    match read_samples(alloc, time, body) {
        Err(NoMemory) => Err(NoMemory),
        Ok(None) => Ok(None),
        Ok(Some(raw)) => match number_in(body) {
            None => Ok(None),
            Some(number) => Ok(Some((number, raw))),
        },
    }
}

// What the bytes of an answer are to who asked for a fragment of that time.
fn read_placed(alloc: Global, time: u64, bytes: &[u8]) -> Placed
    ensures { SpellsNumbered time bytes.now result }
{
    match read_reply(alloc, bytes) {
        Ok(Reply::Whole { status, at, body }) => {
            if status != 200 {
                return Placed::Status(status);
            }
            match read_numbered(alloc, time, body.as_slice()) {
                Ok(Some((place, raw))) => Placed::Fragment { place, raw },
                Ok(None) => Placed::Unreadable { at },
                Err(NoMemory) => Placed::NoMemory,
            }
        }
        Ok(Reply::Cut) => Placed::Cut,
        Ok(Reply::Bad { at }) => Placed::Unreadable { at },
        Err(NoMemory) => Placed::NoMemory,
    }
}

/// Asks for the fragment at an address of a place, once, and for its place in the origin's log, which is its sequence number
/// ([MS-SSTR] 2.2.3, 2.2.4; ISO/IEC 14496-12, 8.8.5). `url` is that of the stream in the manifest, in whose fields the bitrate and the
/// start go. At most 70,254,592 bytes of the reply are taken: a longer one is `Cut`.
pub fn get_placed<C: Dial>(
    alloc: Global,
    dial: &mut C,
    place: &Place,
    url: &[u8],
    address: &Address,
) -> Placed
    ensures asked { FetchedPlaced place.now url.now address.now (C.log dial.old) (C.log dial.new) result }
    ensures dial { DialAlone C.log C.store C.later C.dial_faults C.chosen dial.old dial.new }
    ensures lost { result ≡ Placed.Lost → Rose (C.dial_faults dial.old) (C.dial_faults dial.new) }
    ensures placed { GrowsPlaced place.now url.now address.now (C.store dial.old) (C.store dial.new) result }
{
    let Ok(request) = put_fragment_request(alloc, place, url, address) else {
        return Placed::NoMemory;
    };
    match dial.exchange(request.as_slice(), FRAGMENT_LIMIT) {
        Answer::Bytes(bytes) => read_placed(alloc, address.time, bytes.as_slice()),
        Answer::Lost => Placed::Lost,
        Answer::NoMemory => Placed::NoMemory,
    }
}
