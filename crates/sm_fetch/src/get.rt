//! Manifests and fragments, asked for.
ghost use Rattle.std.specs.Prelude.{◌≡◌, ℕ};
ghost use Rattle.sm_fetch.specs.Exchanges.{Rose};
ghost use Rattle.sm_fetch.specs.Origins.{DialAlone};
ghost use Rattle.sm_fetch.specs.Fetched.{FetchedManifest, FetchedFragment, GrowsWith, HasLevels};
ghost use Rattle.sm_fetch.specs.Spelt.{SpellsListing, SpellsSamples};

use crate::reply::{Reply, read_reply};
use crate::request::{put_fragment_request, put_manifest_request};
use crate::samples::read_samples;
use crate::{Answer, Dial, Fetched, Got, Place};
use sm_manin::{ManFault, read_manifest};
use sm_model::{Address, NoMemory};
use std::alloc::Global;

// How many bytes of a whole reply are taken.
const MANIFEST_LIMIT: u64 = 67_108_864;

pub(crate) const FRAGMENT_LIMIT: u64 = 70_254_592;

// What the bytes of an answer are to who asked for a manifest.
fn read_listing(alloc: Global, bytes: &[u8]) -> Got
    ensures { SpellsListing bytes.now result }
{
    match read_reply(alloc, bytes) {
        Ok(Reply::Whole { status, at, body }) => {
            if status != 200 {
                return Got::Status(status);
            }
            match read_manifest(alloc, body.as_slice()) {
                Ok(listing) => Got::Manifest(listing),
                Err(ManFault::Bad { at: _ }) => Got::Unreadable { at },
                Err(ManFault::NoMemory) => Got::NoMemory,
            }
        }
        Ok(Reply::Cut) => Got::Cut,
        Ok(Reply::Bad { at }) => Got::Unreadable { at },
        Err(NoMemory) => Got::NoMemory,
    }
}

// What the bytes of an answer are to who asked for a fragment of that time.
fn read_fragment_reply(alloc: Global, time: u64, bytes: &[u8]) -> Got
    ensures { SpellsSamples time bytes.now result }
{
    match read_reply(alloc, bytes) {
        Ok(Reply::Whole { status, at, body }) => {
            if status != 200 {
                return Got::Status(status);
            }
            match read_samples(alloc, time, body.as_slice()) {
                Ok(Some(raw)) => Got::Fragment(raw),
                Ok(None) => Got::Unreadable { at },
                Err(NoMemory) => Got::NoMemory,
            }
        }
        Ok(Reply::Cut) => Got::Cut,
        Ok(Reply::Bad { at }) => Got::Unreadable { at },
        Err(NoMemory) => Got::NoMemory,
    }
}

/// Asks for the manifest of a place, once ([MS-SSTR] 2.2.1, 2.2.2). At most 67,108,864 bytes of the reply are taken: a longer one
/// is `Cut`.
pub fn get_manifest<C: Dial>(alloc: Global, dial: &mut C, place: &Place) -> Got
    ensures asked { FetchedManifest place.now (C.log dial.old) (C.log dial.new) result }
    ensures dial { DialAlone C.log C.store C.later C.dial_faults C.chosen dial.old dial.new }
    ensures lost { result ≡ Got.Lost → Rose (C.dial_faults dial.old) (C.dial_faults dial.new) }
    ensures levels { HasLevels result }
{
    let Ok(request) = put_manifest_request(alloc, place) else {
        return Got::NoMemory;
    };
    match dial.exchange(request.as_slice(), MANIFEST_LIMIT) {
        Answer::Bytes(bytes) => read_listing(alloc, bytes.as_slice()),
        Answer::Lost => Got::Lost,
        Answer::NoMemory => Got::NoMemory,
    }
}

/// Asks for the fragment at an address of a place, once, and says how much came ([MS-SSTR] 2.2.3, 2.2.4). `url` is that of the
/// stream in the manifest, in whose fields the bitrate and the start go. At most 70,254,592 bytes of the reply are taken: a longer
/// one is `Cut`. The bytes of the samples are copied once.
pub fn fetch_fragment<C: Dial>(
    alloc: Global,
    dial: &mut C,
    place: &Place,
    url: &[u8],
    address: &Address,
) -> Fetched
    ensures asked { FetchedFragment place.now url.now address.now (C.log dial.old) (C.log dial.new) result.got result.bytes }
    ensures dial { DialAlone C.log C.store C.later C.dial_faults C.chosen dial.old dial.new }
    ensures lost { result.got ≡ Got.Lost → Rose (C.dial_faults dial.old) (C.dial_faults dial.new) }
    ensures kept { GrowsWith place.now url.now address.now (C.store dial.old) (C.store dial.new) result.got }
{
    let Ok(request) = put_fragment_request(alloc, place, url, address) else {
        return Fetched {
            got: Got::NoMemory,
            bytes: 0,
        };
    };
    match dial.exchange(request.as_slice(), FRAGMENT_LIMIT) {
        Answer::Bytes(bytes) => Fetched {
            got: read_fragment_reply(alloc, address.time, bytes.as_slice()),
            bytes: bytes.len(),
        },
        Answer::Lost => Fetched {
            got: Got::Lost,
            bytes: 0,
        },
        Answer::NoMemory => Fetched {
            got: Got::NoMemory,
            bytes: 0,
        },
    }
}

/// What `fetch_fragment` gets.
pub fn get_fragment<C: Dial>(
    alloc: Global,
    dial: &mut C,
    place: &Place,
    url: &[u8],
    address: &Address,
) -> Got
    ensures asked { (bytes : ℕ) × FetchedFragment place.now url.now address.now (C.log dial.old) (C.log dial.new) result bytes }
    ensures dial { DialAlone C.log C.store C.later C.dial_faults C.chosen dial.old dial.new }
    ensures lost { result ≡ Got.Lost → Rose (C.dial_faults dial.old) (C.dial_faults dial.new) }
    ensures kept { GrowsWith place.now url.now address.now (C.store dial.old) (C.store dial.new) result }
{
    fetch_fragment(alloc, dial, place, url, address).got
}
