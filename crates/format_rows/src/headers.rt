//! Calls of `sm_smil` and `sm_moov`.
use crate::told;
use anyhow::{Result, bail, ensure};
use sm_model::{Bytes, Channel, Heads, Smil, TextFault, Track, TrackHead};
use sm_moov::{put_bare_moov, read_moov};
use sm_rows::values::{channel_of, tell_channel, tell_track};
use sm_rows::{Case, told as told_bytes, told_text};
use sm_smil::{put_live_manifest, read_ladder, read_live_manifest};
use std::alloc::Global;

/// Why a text is not read.
pub fn text_fault(alloc: Global, fault: &TextFault) -> Result<String> {
    match fault {
        TextFault::Bad { at } => Ok(format!(in alloc; "bad at {at}")?),
        TextFault::NoMemory => bail!("no memory"),
    }
}

fn push_track(alloc: Global, out: &mut String, id: u32, track: &Track) -> Result<()> {
    let track = tell_track(alloc, track)?;
    let line = format!(in alloc; "{id} {track}")?;
    out.push_str(line.as_str())?;
    Ok(())
}

// A line for each track, with its track_ID in front.
fn tracks(alloc: Global, smil: &Smil) -> Result<String> {
    let mut out = String::new(alloc);
    for one in smil.as_slice() {
        push_track(alloc, &mut out, one.id, &one.track)?;
    }
    Ok(out)
}

fn smil(alloc: Global, read: &Result<Smil, TextFault>) -> Result<String> {
    match read {
        Ok(smil) => tracks(alloc, smil),
        Err(fault) => text_fault(alloc, fault),
    }
}

fn channel(alloc: Global, read: &Result<Channel, TextFault>) -> Result<String> {
    match read {
        Ok(channel) => Ok(tell_channel(alloc, channel)?),
        Err(fault) => text_fault(alloc, fault),
    }
}

fn same(plain: &str, read: &str) -> Result<()> {
    ensure!(plain == read, "the plain program says {plain}");
    Ok(())
}

fn smil_of(alloc: Global, text: &[u8]) -> Result<String> {
    let read = read_live_manifest(alloc, text);
    smil(alloc, &read)
}

fn same_smil(alloc: Global, text: &[u8], read: &str) -> Result<()> {
    let plain = sm_smil::plain::read_live_manifest(alloc, text);
    let plain = smil(alloc, &plain)?;
    same(plain.as_str(), read)
}

// What a text is as a live manifest, by its reader, and unless the row says otherwise by the plain program too.
fn live_manifest(alloc: Global, case: &Case<'_>) -> Result<String> {
    let text = case.bytes(alloc, "text")?;
    let read = smil_of(alloc, text.as_slice())?;
    if !case.has("quick") {
        same_smil(alloc, text.as_slice(), read.as_str())?;
    }
    Ok(told_text(alloc, case, read.as_str())?)
}

fn ladder_of(alloc: Global, text: &[u8]) -> Result<String> {
    let read = read_ladder(alloc, text);
    channel(alloc, &read)
}

fn same_ladder(alloc: Global, text: &[u8], read: &str) -> Result<()> {
    let plain = sm_smil::plain::read_ladder(alloc, text);
    let plain = channel(alloc, &plain)?;
    same(plain.as_str(), read)
}

// The same as a ladder.
fn ladder(alloc: Global, case: &Case<'_>) -> Result<String> {
    let text = case.bytes(alloc, "text")?;
    let read = ladder_of(alloc, text.as_slice())?;
    if !case.has("quick") {
        same_ladder(alloc, text.as_slice(), read.as_str())?;
    }
    Ok(told_text(alloc, case, read.as_str())?)
}

// The live manifest of the channel of a row.
fn manifest_of(alloc: Global, case: &Case<'_>) -> Result<Bytes> {
    let channel = channel_of(alloc, case)?;
    ensure!(channel.is_valid(), "no valid channel");
    Ok(put_live_manifest(alloc, &channel)?)
}

fn written_manifest(alloc: Global, case: &Case<'_>) -> Result<String> {
    let text = manifest_of(alloc, case)?;
    let text = str::from_utf8(text.as_slice())?;
    Ok(told_text(alloc, case, text)?)
}

// The ladder that a channel is written as, read again.
fn read_again(alloc: Global, case: &Case<'_>) -> Result<String> {
    let text = manifest_of(alloc, case)?;
    ladder_of(alloc, text.as_slice())
}

fn push_head(alloc: Global, out: &mut String, head: &TrackHead) -> Result<()> {
    let id = head.id;
    let timescale = head.timescale;
    let sealed = if head.protected { "protected" } else { "clear" };
    let duration = head.defaults.duration;
    let size = head.defaults.size;
    let flags = head.defaults.flags;
    let line = format!(in alloc; "{id} {timescale} {sealed} {duration} {size} {flags}\n")?;
    out.push_str(line.as_str())?;
    Ok(())
}

// A line for each track of a moov.
fn heads(alloc: Global, heads: &Heads) -> Result<String> {
    let mut out = String::new(alloc);
    for head in heads.as_slice() {
        push_head(alloc, &mut out, head)?;
    }
    Ok(out)
}

fn moov_of(alloc: Global, body: &[u8]) -> Result<String> {
    match read_moov(alloc, body) {
        Ok(read) => heads(alloc, &read),
        Err(fault) => told::fault(alloc, &fault),
    }
}

fn plain_moov_of(alloc: Global, body: &[u8]) -> Result<String> {
    match sm_moov::plain::moov(alloc, body)? {
        Some(plain) => heads(alloc, &plain),
        None => told::text(alloc, "6 BadMoov"),
    }
}

// What the body of a moov says, by its reader and by the plain program.
fn moov(alloc: Global, case: &Case<'_>) -> Result<String> {
    let body = case.bytes(alloc, "body")?;
    let read = moov_of(alloc, body.as_slice())?;
    let plain = plain_moov_of(alloc, body.as_slice())?;
    same(plain.as_str(), read.as_str())?;
    Ok(read)
}

fn written_moov(alloc: Global, case: &Case<'_>) -> Result<String> {
    let channel = channel_of(alloc, case)?;
    ensure!(channel.len() <= 64, "too many tracks");
    let text = put_bare_moov(alloc, &channel)?;
    Ok(told_bytes(alloc, case, text.as_slice())?)
}

/// What a call of `sm_smil` or `sm_moov` gives.
pub fn answer(alloc: Global, case: &Case<'_>) -> Result<String> {
    match case.call() {
        "sm_smil read_live_manifest" => live_manifest(alloc, case),
        "sm_smil read_ladder" => ladder(alloc, case),
        "sm_smil put_live_manifest" => written_manifest(alloc, case),
        "sm_smil put_live_manifest, read_ladder" => read_again(alloc, case),
        "sm_moov read_moov" => moov(alloc, case),
        "sm_moov put_bare_moov" => written_moov(alloc, case),
        _ => bail!("no such call"),
    }
}
