//! Calls of `sm_catalog`.
use crate::told;
use anyhow::{Result, bail, ensure};
use sm_catalog::{Added, Catalog, Checked, Judged};
use sm_model::{Address, Channel, Name, Track};
use sm_rows::values::{channel_of, track_of};
use sm_rows::{Case, Line, Words};
use std::alloc::Global;

/// The verdict on a fragment.
pub fn verdict(alloc: Global, judged: Judged) -> Result<String> {
    match judged {
        Judged::New => told::text(alloc, "new\n"),
        Judged::Known { place } => told::numbered(alloc, "known", place),
        Judged::NotDeclared => told::text(alloc, "not declared\n"),
        Judged::Clash { kept } => told::numbered(alloc, "clash", kept),
        Judged::Overlap { end } => told::numbered(alloc, "overlap", end),
    }
}

fn push_span(alloc: Global, out: &mut String, time: u64, duration: u64) -> Result<()> {
    let line = format!(in alloc; "{time} {duration}\n")?;
    out.push_str(line.as_str())?;
    Ok(())
}

/// Spans of time, each in a line of its own, or `none`.
pub fn spans(alloc: Global, spans: &[(u64, u64)]) -> Result<String> {
    if spans.is_empty() {
        return told::text(alloc, "none\n");
    }
    let mut out = String::new(alloc);
    for (time, duration) in spans {
        push_span(alloc, &mut out, *time, *duration)?;
    }
    Ok(out)
}

fn span(alloc: Global, span: Option<(u64, u64)>) -> Result<String> {
    match span {
        Some(span) => spans(alloc, &[span]),
        None => spans(alloc, &[]),
    }
}

/// A place, or `none`.
pub fn place(alloc: Global, place: Option<u64>) -> Result<String> {
    match place {
        Some(place) => told::numbered(alloc, "at", place),
        None => told::text(alloc, "none\n"),
    }
}

/// An empty catalog of the tracks of a row.
pub fn catalog_of(alloc: Global, case: &Case<'_>) -> Result<Catalog> {
    let channel = channel_of(alloc, case)?;
    ensure!(channel.is_valid(), "no valid channel");
    Ok(Catalog::new(alloc, channel)?)
}

fn address(alloc: Global, words: &Words) -> Result<Address> {
    let bitrate = words.short(1)?;
    let time = words.number(2)?;
    let stream = Name::read(alloc, words.raw(0)?)?;
    Ok(Address {
        stream,
        bitrate,
        time,
    })
}

// Keeps a fragment that is new.
fn add(catalog: &mut Catalog, at: &Address, duration: u64, place: u64) -> Result<()> {
    if duration == 0 || duration > 1 << 62 || at.time >= 1 << 62 {
        bail!("no span");
    }
    catalog.reserve(at)?;
    match catalog.judge(at, duration) {
        Judged::New => catalog.add(at, duration, place),
        _ => bail!("not new"),
    }
    Ok(())
}

// The address of a track's fragment at a time.
fn address_of(alloc: Global, track: &Track, time: u64) -> Result<Address> {
    let stream = track.name.copy(alloc)?;
    let bitrate = track.bitrate;
    Ok(Address {
        stream,
        bitrate,
        time,
    })
}

// The address of each track's fragment at a time.
fn addresses(alloc: Global, tracks: &[Track], time: u64) -> Result<Vec<Address>> {
    let mut all = Vec::new(alloc);
    for track in tracks {
        all.push(address_of(alloc, track, time)?)?;
    }
    Ok(all)
}

// Keeps a fragment at each of these addresses.
fn add_each(catalog: &mut Catalog, all: &[Address], duration: u64, place: u64) -> Result<()> {
    for at in all {
        add(catalog, at, duration, place)?;
    }
    Ok(())
}

/// Keeps a fragment of each track there.
pub fn keep(
    alloc: Global,
    catalog: &mut Catalog,
    time: u64,
    duration: u64,
    place: u64,
) -> Result<()> {
    let all = addresses(alloc, catalog.channel().as_slice(), time)?;
    add_each(catalog, all.as_slice(), duration, place)
}

fn checked(alloc: Global, checked: Checked) -> Result<String> {
    match checked {
        Checked::Agreed => told::text(alloc, "agreed\n"),
        Checked::NotDeclared { index } => Ok(format!(in alloc; "not declared {index}\n")?),
        Checked::Clash { index } => Ok(format!(in alloc; "clash {index}\n")?),
    }
}

// A track and its width.
fn track_of_width(alloc: Global, words: &Words) -> Result<Track> {
    let width = words.optional(5)?;
    let mut track = track_of(alloc, words)?;
    track.numbers.width = width;
    Ok(track)
}

fn push_track(alloc: Global, tracks: &mut Vec<Track>, words: &Words) -> Result<()> {
    let track = track_of_width(alloc, words)?;
    tracks.push(track)?;
    Ok(())
}

// The header of the lines `header`, each a track and its width.
fn header(alloc: Global, case: &Case<'_>) -> Result<Channel> {
    let mut tracks = Vec::new(alloc);
    for line in case.lines() {
        if line.key() == "header" {
            let words = case.words(alloc, line)?;
            push_track(alloc, &mut tracks, &words)?;
        }
    }
    Ok(Channel::from_vec(tracks))
}

fn added(alloc: Global, added: Option<Added>) -> Result<String> {
    let Some(added) = added else {
        return told::text(alloc, "none\n");
    };
    let track = added.track;
    let time = added.time;
    let duration = added.duration;
    let place = added.place;
    Ok(format!(in alloc; "track {track} {time} {duration} at {place}\n")?)
}

fn listed(alloc: Global, catalog: &Catalog, name: &Name) -> Result<String> {
    let listed = catalog.listed_times(name);
    ensure!(
        listed.len() as u64 == catalog.listed_len(name),
        "another length"
    );
    spans(alloc, listed)
}

fn times(alloc: Global, catalog: &Catalog, name: &Name) -> Result<String> {
    let times = catalog.times(name);
    ensure!(
        times.len() as u64 == catalog.times_len(name),
        "another length"
    );
    spans(alloc, times)
}

fn ahead(alloc: Global, catalog: &Catalog, name: &Name, words: &Words) -> Result<String> {
    let time = words.number(1)?;
    let index = words.short(2)?;
    span(alloc, catalog.ahead(name, time, index))
}

// What is asked of a stream by its name.
fn of_stream(alloc: Global, catalog: &Catalog, key: &str, words: &Words) -> Result<String> {
    let name = Name::read(alloc, words.raw(0)?)?;
    match key {
        "listed" => listed(alloc, catalog, &name),
        "times" => times(alloc, catalog, &name),
        _ => ahead(alloc, catalog, &name, words),
    }
}

fn judged(alloc: Global, catalog: &Catalog, words: &Words) -> Result<String> {
    let duration = words.number(3)?;
    let at = address(alloc, words)?;
    verdict(alloc, catalog.judge(&at, duration))
}

fn placed(alloc: Global, catalog: &Catalog, words: &Words) -> Result<String> {
    let at = address(alloc, words)?;
    place(alloc, catalog.place(&at))
}

fn has(alloc: Global, catalog: &Catalog, words: &Words) -> Result<String> {
    let at = address(alloc, words)?;
    let has = catalog.has_time(&at);
    Ok(format!(in alloc; "{has}\n")?)
}

fn length(alloc: Global, catalog: &Catalog) -> Result<String> {
    let kept = catalog.len();
    let tracks = catalog.channel().len();
    Ok(format!(in alloc; "{kept} of {tracks} tracks\n")?)
}

fn check(alloc: Global, case: &Case<'_>, catalog: &Catalog) -> Result<String> {
    let header = header(alloc, case)?;
    checked(alloc, catalog.check(&header))
}

fn asked(
    alloc: Global,
    case: &Case<'_>,
    catalog: &Catalog,
    key: &str,
    words: &Words,
) -> Result<String> {
    match key {
        "judge" => judged(alloc, catalog, words),
        "place" => placed(alloc, catalog, words),
        "has" => has(alloc, catalog, words),
        "added" => added(alloc, catalog.added(words.number(0)?)),
        "length" => length(alloc, catalog),
        "check" => check(alloc, case, catalog),
        "listed" | "times" | "ahead" => of_stream(alloc, catalog, key, words),
        _ => Ok(String::new(alloc)),
    }
}

fn asked_of_copy(
    alloc: Global,
    case: &Case<'_>,
    catalog: &Catalog,
    key: &str,
    words: &Words,
) -> Result<String> {
    let copy = catalog.copy(alloc)?;
    asked(alloc, case, &copy, key, words)
}

// What is asked of a catalog, and of a copy of it.
fn asked_of_both(
    alloc: Global,
    case: &Case<'_>,
    catalog: &Catalog,
    key: &str,
    words: &Words,
) -> Result<String> {
    let gave = asked(alloc, case, catalog, key, words)?;
    let copy = asked_of_copy(alloc, case, catalog, key, words)?;
    ensure!(gave.as_str() == copy.as_str(), "a copy answers otherwise");
    Ok(gave)
}

// Keeps the fragment of an address, a duration and a place.
fn keep_one(alloc: Global, catalog: &mut Catalog, words: &Words) -> Result<()> {
    let duration = words.number(3)?;
    let place = words.number(4)?;
    let at = address(alloc, words)?;
    add(catalog, &at, duration, place)
}

// Keeps a fragment, or appends what is asked.
fn step(
    alloc: Global,
    case: &Case<'_>,
    line: &Line,
    catalog: &mut Catalog,
    out: &mut String,
) -> Result<()> {
    let key = line.key();
    let words = case.words(alloc, line)?;
    if key == "keep" {
        return keep_one(alloc, catalog, &words);
    }
    let gave = asked_of_both(alloc, case, catalog, key, &words)?;
    out.push_str(gave.as_str())?;
    Ok(())
}

fn steps_of(alloc: Global, case: &Case<'_>, catalog: &mut Catalog) -> Result<String> {
    let mut out = String::new(alloc);
    for line in case.lines() {
        if !line.key().starts_with("gives") {
            step(alloc, case, line, catalog, &mut out)?;
        }
    }
    Ok(out)
}

// What the steps of a row give on a catalog of its tracks.
fn steps(alloc: Global, case: &Case<'_>) -> Result<String> {
    let mut catalog = catalog_of(alloc, case)?;
    steps_of(alloc, case, &mut catalog)
}

const SPAN: u64 = 20_000_000;

// Moves the addresses to a time.
fn set_time(tracks: &mut [Address], time: u64) {
    for at in tracks.iter_mut() {
        at.time = time;
    }
}

// Keeps a fragment at each of these addresses, under the places behind this one, and answers the last place.
fn add_behind(catalog: &mut Catalog, tracks: &[Address], place: u64) -> Result<u64> {
    let mut last = place;
    for at in tracks {
        last = last.saturating_add(1);
        add(catalog, at, SPAN, last)?;
    }
    Ok(last)
}

// Keeps so many times of each track, in order or the last one first, under places from 1.
fn long_event(
    catalog: &mut Catalog,
    tracks: &mut [Address],
    times: u64,
    last_first: bool,
) -> Result<()> {
    let mut place = 0u64;
    for step in 0..times {
        let i = if last_first { times - 1 - step } else { step };
        set_time(tracks, SPAN.saturating_mul(i));
        place = add_behind(catalog, tracks, place)?;
    }
    Ok(())
}

// How many of these addresses stand under the places behind this one, in this order.
fn count_behind(catalog: &Catalog, tracks: &[Address], place: u64) -> u64 {
    let mut wanted = place;
    let mut right = 0u64;
    for at in tracks {
        wanted = wanted.saturating_add(1);
        if catalog.place(at) == Some(wanted) {
            right = right.saturating_add(1);
        }
    }
    right
}

// How many of so many times of each track stand under the places from 1, in this order.
fn in_order(catalog: &Catalog, tracks: &mut [Address], times: u64) -> u64 {
    let mut place = 0u64;
    let mut right = 0u64;
    for i in 0..times {
        set_time(tracks, SPAN.saturating_mul(i));
        right = right.saturating_add(count_behind(catalog, tracks, place));
        place = place.saturating_add(tracks.len() as u64);
    }
    right
}

// How many times of the first and the last stream are listed, each in a line.
fn listed_lengths(
    alloc: Global,
    catalog: &Catalog,
    first: &Address,
    last: &Address,
) -> Result<String> {
    let first = catalog.listed_len(&first.stream);
    let last = catalog.listed_len(&last.stream);
    Ok(format!(in alloc; "{first}\n{last}\n")?)
}

// How many times of the streams are listed, the place of the last track at 0, and the second listed time.
fn ends(alloc: Global, catalog: &Catalog, tracks: &mut [Address]) -> Result<String> {
    set_time(tracks, 0);
    let (Some(first), Some(last)) = (tracks.first(), tracks.last()) else {
        bail!("no tracks");
    };
    let lengths = listed_lengths(alloc, catalog, first, last)?;
    let zero = place(alloc, catalog.place(last))?;
    let second = span(alloc, catalog.listed(&first.stream, 1))?;
    Ok(format!(in alloc; "{lengths}{zero}{second}")?)
}

// Keeps a long event, and tells how many of its addresses stand in order, and what stands at its ends.
fn long_in(alloc: Global, case: &Case<'_>, catalog: &mut Catalog) -> Result<String> {
    let times = case.number(alloc, "times")?;
    let mut tracks = addresses(alloc, catalog.channel().as_slice(), 0)?;
    long_event(catalog, &mut tracks, times, case.has("backwards"))?;
    let right = in_order(catalog, &mut tracks, times);
    let ends = ends(alloc, catalog, &mut tracks)?;
    Ok(format!(in alloc; "{right}\n{ends}")?)
}

// A long event of the tracks of a row.
fn long(alloc: Global, case: &Case<'_>) -> Result<String> {
    let mut catalog = catalog_of(alloc, case)?;
    long_in(alloc, case, &mut catalog)
}

/// What a call of `sm_catalog` gives.
pub fn answer(alloc: Global, case: &Case<'_>) -> Result<String> {
    match case.call() {
        "sm_catalog steps" => steps(alloc, case),
        "sm_catalog long event" => long(alloc, case),
        _ => bail!("no such call"),
    }
}
