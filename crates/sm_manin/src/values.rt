//! The values that a manifest without faults says.
ghost use Rattle.std.specs.Prelude.{◌≡◌, ◌≤◌, ◌<◌, ◌^◌, [], ℕ, All, true, map, length, unwrap_or, IfOk, OnOk};
ghost use Rattle.std.specs.List.{insert};
ghost use Rattle.sm_model.specs.Names.{is_name};
ghost use Rattle.sm_manin.specs.ManifestFaults.{name_of};
ghost use Rattle.sm_manin.specs.Listings.{with_level, level_in, levels_from, levels_of, listing_of, look_of, timescale_of, read_of};

use crate::judge::{look_text, name_of};
use crate::listing::{Level, Levels, Listing, StreamListing, Streams};
use crate::raw::{RawLevel, RawRoot, RawStream};
use crate::text::{kind_in_type, narrow_in, narrow_or};
use crate::times::times_of;
use crate::walk::Walk;
use sm_model::{Bytes, Kind, Name, NameFault, NoMemory, Pairs};
use std::alloc::Global;

// How many fragments ahead each names.
fn look_of(root: &Option<RawRoot>) -> u32
    ensures { result ≡ look_of root.now }
{
    match root {
        None => 0,
        Some(root) => narrow_or(0, look_text(root)).unwrap_or(0),
    }
}

// The ticks a second of a stream that says none.
fn timescale_of(root: &Option<RawRoot>) -> u32
    ensures { result ≡ timescale_of root.now }
{
    match root {
        None => 10000000,
        Some(root) => narrow_or(10000000, &root.timescale).unwrap_or(10000000),
    }
}

// How many qualities at the front aren't above that bitrate.
fn place_of(levels: &[Level], bitrate: u32) -> usize
    ensures within { result ≤ length levels.now }
    ensures place { (index : ℕ) → with_level (record { index = index; bitrate = bitrate }) levels.now ≡ insert levels.now result
        (record { index = index; bitrate = bitrate }) }
{
    for (i, level) in levels.iter().enumerate() {
        if bitrate < level.bitrate {
            return i;
        }
    }
    levels.len()
}

fn put_level(levels: &mut Vec<Level>, level: Level) -> Result<(), NoMemory>
    ensures { OnOk result (levels.new.items ≡ with_level level levels.old.items) }
{
    let place = place_of(levels, level.bitrate);
    levels.insert(place, level)?;
    Ok(())
}

fn level_in(place: u32, level: &RawLevel) -> Level
    ensures { result ≡ level_in place level.now }
{
    Level {
        index: narrow_or(place, &level.index).unwrap_or(0),
        bitrate: narrow_in(&level.bitrate).unwrap_or(0),
    }
}

fn levels_of(alloc: Global, levels: &[RawLevel]) -> Result<Vec<Level>, NoMemory>
    requires { length levels.now < 2 ^ 32 }
    ensures { IfOk result (λ v. v.items ≡ levels_of levels.now) }
{
    let mut sorted = Vec::new(alloc);
    let mut place: u32 = 0;
    for level in levels {
        put_level(&mut sorted, level_in(place, level))?;
        place += 1;
    }
    Ok(sorted)
}

// A name that is one.
fn named(alloc: Global, bytes: &[u8]) -> Result<Name, NoMemory>
    requires { is_name bytes.now ≡ true }
    ensures { IfOk result (λ name. name ≡ bytes.now) }
{
    match Name::read(alloc, bytes) {
        Ok(name) => Ok(name),
        Err(NameFault::NoMemory) => Err(NoMemory),
        Err(NameFault::Form { .. }) => unreachable!(),
    }
}

fn url_of(alloc: Global, url: &Option<Bytes>) -> Result<Bytes, NoMemory>
    ensures { IfOk result (λ copy. copy ≡ unwrap_or url.now []) }
{
    match url {
        None => Bytes::from_slice(alloc, b""),
        Some(url) => Bytes::from_slice(alloc, url.as_slice()),
    }
}

fn listing_of(alloc: Global, timescale: u32, stream: &RawStream) -> Result<StreamListing, NoMemory>
    requires name { is_name (name_of stream.now) ≡ true }
    requires levels { length stream.now.levels < 2 ^ 32 }
    ensures { IfOk result (λ listing. listing ≡ listing_of timescale stream.now) }
{
    Ok(StreamListing {
        kind: kind_in_type(&stream.kind_text).unwrap_or(Kind::Video),
        name: named(alloc, name_of(stream))?,
        timescale: narrow_or(timescale, &stream.timescale).unwrap_or(0),
        pattern: url_of(alloc, &stream.url)?,
        levels: Levels::from_vec(levels_of(alloc, stream.levels.as_slice())?),
        times: Pairs::from_vec(times_of(alloc, stream.times.as_slice())?),
    })
}

fn streams_of(
    alloc: Global,
    timescale: u32,
    streams: &[RawStream],
) -> Result<Vec<StreamListing>, NoMemory>
    requires names { All (λ s. is_name (name_of s) ≡ true) streams.now }
    requires levels { All (λ s. length s.levels < 2 ^ 32) streams.now }
    ensures { IfOk result (λ v. v.items ≡ map (listing_of timescale) streams.now) }
{
    let mut listings = Vec::new(alloc);
    for stream in streams {
        listings.push(listing_of(alloc, timescale, stream)?)?;
    }
    Ok(listings)
}

/// What is listed by a walk that met no fault.
pub fn read_of(alloc: Global, walk: &Walk) -> Result<Listing, NoMemory>
    requires names { All (λ s. is_name (name_of s) ≡ true) walk.now.done }
    requires levels { All (λ s. length s.levels < 2 ^ 32) walk.now.done }
    ensures { IfOk result (λ listing. listing ≡ read_of walk.now) }
{
    let streams = streams_of(alloc, timescale_of(walk.root()), walk.done())?;
    Ok(Listing {
        look: look_of(walk.root()),
        streams: Streams::from_vec(streams),
    })
}
