//! Calls of `sm_manin` and `sm_manout`.
use crate::catalogs::{catalog_of, keep};
use crate::headers::text_fault;
use anyhow::{Result, bail};
use sm_catalog::Catalog;
use sm_manin::{Listing, StreamListing, read_manifest};
use sm_manout::plain::ListedAt;
use sm_manout::{plain, put_manifest};
use sm_rows::values::kind_word;
use sm_rows::{Case, Words, told_text};
use std::alloc::Global;

fn push_head(alloc: Global, out: &mut String, stream: &StreamListing) -> Result<()> {
    let kind = kind_word(stream.kind);
    let name = stream.name.as_str();
    let timescale = stream.timescale;
    let pattern = str::from_utf8(stream.pattern.as_slice())?;
    let line = format!(in alloc; "stream {kind} {name} {timescale} {pattern}\n")?;
    out.push_str(line.as_str())?;
    Ok(())
}

fn push_level(alloc: Global, out: &mut String, index: u32, bitrate: u32) -> Result<()> {
    let line = format!(in alloc; "level {index} {bitrate}\n")?;
    out.push_str(line.as_str())?;
    Ok(())
}

fn push_levels(alloc: Global, out: &mut String, stream: &StreamListing) -> Result<()> {
    for level in stream.levels.as_slice() {
        push_level(alloc, out, level.index, level.bitrate)?;
    }
    Ok(())
}

fn push_time(alloc: Global, out: &mut String, time: u64, duration: u64) -> Result<()> {
    let line = format!(in alloc; "time {time} {duration}\n")?;
    out.push_str(line.as_str())?;
    Ok(())
}

fn push_times(alloc: Global, out: &mut String, stream: &StreamListing) -> Result<()> {
    for (time, duration) in stream.times.as_slice() {
        push_time(alloc, out, *time, *duration)?;
    }
    Ok(())
}

// The line of a stream, and one for each of its qualities and times.
fn push_stream(alloc: Global, out: &mut String, stream: &StreamListing) -> Result<()> {
    push_head(alloc, out, stream)?;
    push_levels(alloc, out, stream)?;
    push_times(alloc, out, stream)
}

fn listing(alloc: Global, listing: &Listing) -> Result<String> {
    let look = listing.look;
    let mut out = format!(in alloc; "look {look}\n")?;
    for one in listing.streams.as_slice() {
        push_stream(alloc, &mut out, one)?;
    }
    Ok(out)
}

fn read_text(alloc: Global, text: &[u8]) -> Result<String> {
    match read_manifest(alloc, text) {
        Ok(read) => listing(alloc, &read),
        Err(fault) => text_fault(alloc, &fault),
    }
}

fn read(alloc: Global, case: &Case<'_>) -> Result<String> {
    let text = case.bytes(alloc, "text")?;
    let told = read_text(alloc, text.as_slice())?;
    Ok(told_text(alloc, case, told.as_str())?)
}

// Keeps a fragment of each track at the time and of the duration that words say.
fn keep_at(alloc: Global, catalog: &mut Catalog, words: &Words, place: u64) -> Result<()> {
    let time = words.number(0)?;
    let duration = words.number(1)?;
    keep(alloc, catalog, time, duration, place)
}

fn keep_each(alloc: Global, case: &Case<'_>, catalog: &mut Catalog) -> Result<()> {
    let mut place = 0u64;
    for line in case.lines() {
        if line.key() == "time" {
            let words = case.words(alloc, line)?;
            place = place.saturating_add(1);
            keep_at(alloc, catalog, &words, place)?;
        }
    }
    Ok(())
}

fn manifest(alloc: Global, case: &Case<'_>, catalog: &Catalog) -> Result<String> {
    let text = put_manifest(alloc, catalog)?;
    let text = str::from_utf8(text.as_slice())?;
    Ok(told_text(alloc, case, text)?)
}

// The manifest of a catalog in which each line `time` has a fragment of each track.
fn written(alloc: Global, case: &Case<'_>) -> Result<String> {
    let mut catalog = catalog_of(alloc, case)?;
    keep_each(alloc, case, &mut catalog)?;
    manifest(alloc, case, &catalog)
}

fn push_address(alloc: Global, out: &mut String, at: &ListedAt) -> Result<()> {
    let stream = str::from_utf8(at.stream.as_slice())?;
    let bitrate = at.bitrate;
    let time = at.time;
    let line = format!(in alloc; "{stream} {bitrate} {time}\n")?;
    out.push_str(line.as_str())?;
    Ok(())
}

// The addresses that the whole lines of a part of a manifest list.
fn lists(alloc: Global, case: &Case<'_>) -> Result<String> {
    let text = case.bytes(alloc, "text")?;
    let all = plain::lists(alloc, text.as_slice())?;
    let mut out = String::new(alloc);
    for at in all.as_slice() {
        push_address(alloc, &mut out, at)?;
    }
    Ok(out)
}

/// What a call of `sm_manin` or `sm_manout` gives.
pub fn answer(alloc: Global, case: &Case<'_>) -> Result<String> {
    match case.call() {
        "sm_manin read_manifest" => read(alloc, case),
        "sm_manout put_manifest" => written(alloc, case),
        "sm_manout plain::lists" => lists(alloc, case),
        _ => bail!("no such call"),
    }
}
