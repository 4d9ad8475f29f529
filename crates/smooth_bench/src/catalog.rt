//! A long event in a catalog, and its manifest.

use anyhow::{Result, ensure};
use sm_catalog::{Catalog, Judged};
use sm_manin::read_manifest;
use sm_manout::put_manifest;
use sm_model::{Address, Name};
use sm_smil::read_ladder;
use std::alloc::Global;

const LADDER: &[u8] =
    b"<smil><body><switch><video systemBitrate=\"350000\"/><video systemBitrate=\"700000\"/><audio systemBitrate=\"64000\"/></switch></body></smil>";

const DURATION: u64 = 20_000_000;

fn address(alloc: Global, stream: &[u8], bitrate: u32) -> Result<Address> {
    Ok(Address {
        stream: Name::read(alloc, stream)?,
        bitrate,
        time: 0,
    })
}

// The start of the time at that place.
fn start_of(place: u32, gap: u32) -> u64 {
    (DURATION + gap as u64).saturating_mul(place as u64)
}

// A number below `times`, another one for each, where `times` is a power of two.
fn scattered(i: u32, times: u32) -> u32 {
    let mask = times.saturating_sub(1);
    let mut x = i & mask;
    for _round in 0..3u32 {
        x = x.wrapping_mul(40_503) & mask;
        x ^= x >> 7;
    }
    x
}

// The place of the time that is added so many steps from the first.
fn place_of(order: u32, step: u32, times: u32) -> u32 {
    match order {
        0 => step,
        1 => times.saturating_sub(step).saturating_sub(1),
        _ => scattered(step, times),
    }
}

fn add(catalog: &mut Catalog, at: &Address, place: u64) -> Result<()> {
    ensure!(at.time < 0x3fff_ffff_ffff_ffff, "late");
    catalog.reserve(at)?;
    ensure!(catalog.judge(at, DURATION) == Judged::New, "not new");
    catalog.add(at, DURATION, place);
    Ok(())
}

fn add_all(
    catalog: &mut Catalog,
    tracks: &mut [Address],
    times: u32,
    gap: u32,
    order: u32,
) -> Result<()> {
    let mut place: u64 = 0;
    for step in 0..times {
        let i = place_of(order, step, times);
        for at in tracks.iter_mut() {
            at.time = start_of(i, gap);
            place = place.saturating_add(1);
            add(catalog, at, place)?;
        }
    }
    Ok(())
}

// How many of the fragments are found again.
fn count_found(catalog: &Catalog, tracks: &mut [Address], times: u32, gap: u32) -> u64 {
    let mut found: u64 = 0;
    for i in 0..times {
        for at in tracks.iter_mut() {
            at.time = start_of(i, gap);
            if catalog.place(at).is_some() {
                found = found.saturating_add(1);
            }
        }
    }
    found
}

/// Adds a long event to a catalog, looks each fragment up again, writes the manifest and reads it, and gives how many were found, the
/// length of the manifest and the number of its streams.
///
/// So many times are added, and so many ticks lie between two, so that 0 makes one run of them and 1 as many as there are; so often
/// the manifest is written, and so often read; and they are added in order with 0, last one first with 1, and scattered with 2, for
/// which their number is a power of two.
pub fn run(alloc: Global, numbers: [u32; 5]) -> Result<(u64, u64, u64)> {
    let [times, gap, writes, reads, order] = numbers;
    let mut catalog = Catalog::new(alloc, read_ladder(alloc, LADDER)?)?;
    let mut tracks = [
        address(alloc, b"video", 350_000)?,
        address(alloc, b"video", 700_000)?,
        address(alloc, b"audio", 64_000)?,
    ];
    add_all(&mut catalog, &mut tracks, times, gap, order)?;
    let found = count_found(&catalog, &mut tracks, times, gap);
    let mut length = 0;
    for _ in 0..writes {
        length = put_manifest(alloc, &catalog)?.len();
    }
    let text = put_manifest(alloc, &catalog)?;
    let mut read = 0;
    for _ in 0..reads {
        read = read_manifest(alloc, text.as_slice())?.streams.len();
    }
    Ok((found, length, read))
}
