//! Calls of `sm_record`.
ghost use Rattle.std.specs.Prelude.{◌≡◌, ℕ, IsTrue};
ghost use Rattle.sm_model.specs.Entries.{address_of};
ghost use Rattle.sm_record.specs.Places.{IsPlaceOf};

use crate::told;
use anyhow::{Result, bail, ensure};
use sm_model::{Bytes, Channel, Entry, Fragment, Track};
use sm_record::{RecordFault, put_declare, put_keep, read_entry, read_meta};
use sm_rows::values::{channel_of, fragment_of, tell_channel, tell_fragment};
use sm_rows::{Case, told as told_bytes};
use std::alloc::Global;

fn declare(alloc: Global, tracks: &Channel) -> Result<String> {
    ensure!(tracks.is_valid(), "no valid channel");
    let tracks = tell_channel(alloc, tracks)?;
    Ok(format!(in alloc; "declare\n{tracks}")?)
}

fn entry(alloc: Global, entry: &Entry) -> Result<String> {
    match entry {
        Entry::Declare(tracks) => declare(alloc, tracks),
        Entry::Keep(fragment) => Ok(tell_fragment(alloc, fragment)?),
    }
}

// What a body is under a channel.
fn read_under(alloc: Global, body: &[u8], channel: Option<&Channel>) -> Result<String> {
    match read_entry(alloc, body, channel) {
        Ok(read) => entry(alloc, &read),
        Err(RecordFault::Damaged) => told::text(alloc, "damaged"),
        Err(RecordFault::NoMemory) => bail!("no memory"),
    }
}

// What a body is under the channel of the row, where it has one.
fn read(alloc: Global, case: &Case<'_>, body: &[u8]) -> Result<String> {
    let channel = channel_of(alloc, case)?;
    if channel.len() == 0 {
        read_under(alloc, body, None)
    } else {
        read_under(alloc, body, Some(&channel))
    }
}

fn read_body(alloc: Global, case: &Case<'_>) -> Result<String> {
    let body = case.bytes(alloc, "body")?;
    read(alloc, case, body.as_slice())
}

// Gives a bit of a byte its other value.
fn flip(body: &mut [u8], at: usize) {
    if let Some(byte) = body.get_mut(at) {
        *byte ^= 1;
    }
}

fn is_damaged(alloc: Global, case: &Case<'_>, body: &[u8]) -> Result<bool> {
    let text = read(alloc, case, body)?;
    Ok(text.as_str() == "damaged")
}

// How many of these bodies with one bit of another value are damaged.
fn count_damaged(alloc: Global, case: &Case<'_>, body: &mut [u8]) -> Result<usize> {
    let mut damaged = 0usize;
    for at in 0..body.len() {
        flip(body, at);
        if is_damaged(alloc, case, body)? {
            damaged = damaged.saturating_add(1);
        }
        flip(body, at);
    }
    Ok(damaged)
}

fn spoilt(alloc: Global, case: &Case<'_>) -> Result<String> {
    let mut body = case.bytes(alloc, "body")?;
    let len = body.len();
    let damaged = count_damaged(alloc, case, &mut body)?;
    Ok(format!(in alloc; "{damaged} of {len}")?)
}

fn meta(alloc: Global, case: &Case<'_>) -> Result<String> {
    let body = case.bytes(alloc, "body")?;
    let Some(meta) = read_meta(body.as_slice()) else {
        return told::text(alloc, "none");
    };
    let track = meta.track;
    let time = meta.time;
    let duration = meta.duration;
    Ok(format!(in alloc; "track {track} {time} {duration}")?)
}

fn declared(alloc: Global, case: &Case<'_>) -> Result<String> {
    let channel = channel_of(alloc, case)?;
    ensure!(channel.is_valid(), "no valid channel");
    let body = put_declare(alloc, &channel)?;
    Ok(told_bytes(alloc, case, body.as_slice())?)
}

fn is_of(track: &Track, fragment: &Fragment) -> bool
    ensures { IsTrue result → (track.now.name ≡ fragment.now.stream) × (track.now.bitrate ≡ fragment.now.bitrate) }
{
    track.bitrate == fragment.bitrate && track.name.as_bytes() == fragment.stream.as_bytes()
}

// Whether the track of a fragment is among these.
fn has_track(tracks: &[Track], fragment: &Fragment) -> bool
    ensures { IsTrue result → (place : ℕ) × IsPlaceOf tracks.now (address_of fragment.now) place }
{
    for (_place, track) in tracks.iter().enumerate() {
        if is_of(track, fragment) {
            return true;
        }
    }
    false
}

// The body of a fragment that is kept under a channel.
fn keep(alloc: Global, channel: &Channel, fragment: &Fragment) -> Result<Bytes> {
    ensure!(channel.is_valid(), "no valid channel");
    ensure!(fragment.is_valid(), "no valid fragment");
    ensure!(has_track(channel.as_slice(), fragment), "another track");
    Ok(put_keep(alloc, fragment, channel)?)
}

fn kept(alloc: Global, case: &Case<'_>) -> Result<String> {
    let channel = channel_of(alloc, case)?;
    let fragment = fragment_of(alloc, case)?;
    let body = keep(alloc, &channel, &fragment)?;
    Ok(told_bytes(alloc, case, body.as_slice())?)
}

// The words of each fault of the crate.
fn faults(alloc: Global) -> Result<String> {
    let damaged = RecordFault::Damaged;
    let memory = RecordFault::NoMemory;
    Ok(format!(in alloc; "{damaged}\n{memory}\n")?)
}

/// What a call of `sm_record` gives.
pub fn answer(alloc: Global, case: &Case<'_>) -> Result<String> {
    match case.call() {
        "sm_record read_entry" => read_body(alloc, case),
        "sm_record read_entry of spoilt bodies" => spoilt(alloc, case),
        "sm_record read_meta" => meta(alloc, case),
        "sm_record put_declare" => declared(alloc, case),
        "sm_record put_keep" => kept(alloc, case),
        "sm_record faults" => faults(alloc),
        _ => bail!("no such call"),
    }
}
