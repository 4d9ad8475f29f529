//! Calls of `sm_push`.
use crate::told;
use anyhow::{Result, bail, ensure};
use sm_model::{Channel, Fragment, Item, Items, Name, Refusal, put_cause};
use sm_push::{Push, PushFault};
use sm_rows::values::{tell_channel, tell_fragment};
use sm_rows::{Case, Line, Words};
use std::alloc::Global;

fn header(alloc: Global, channel: &Channel) -> Result<String> {
    let tracks = tell_channel(alloc, channel)?;
    Ok(format!(in alloc; "header\n{tracks}")?)
}

fn fragment(alloc: Global, fragment: &Fragment, id: u32) -> Result<String> {
    let text = tell_fragment(alloc, fragment)?;
    Ok(format!(in alloc; "of {id} {text}")?)
}

// A line for a header and one for each of its tracks, or for a fragment's track_ID, and those of the fragment.
fn item(alloc: Global, item: &Item, id: Option<u32>) -> Result<String> {
    match item {
        Item::Header(channel) => header(alloc, channel),
        Item::Frag(one) => fragment(alloc, one, id.unwrap_or(0)),
    }
}

fn push_item(alloc: Global, out: &mut String, one: &Item, id: Option<u32>) -> Result<()> {
    let text = item(alloc, one, id)?;
    out.push_str(text.as_str())?;
    Ok(())
}

fn tell(alloc: Global, out: &mut String, items: &Items) -> Result<()> {
    let mut index = 0u64;
    for one in items.as_slice() {
        push_item(alloc, out, one, items.id(index))?;
        index = index.saturating_add(1);
    }
    Ok(())
}

fn tell_refusal(alloc: Global, out: &mut String, refusal: &Refusal) -> Result<()> {
    let line = put_cause(alloc, refusal)?;
    let line = str::from_utf8(line.as_slice())?;
    out.push_str(line)?;
    Ok(())
}

fn tell_fault(alloc: Global, out: &mut String, fault: &PushFault) -> Result<()> {
    match fault {
        PushFault::Refused { before, refusal } => {
            tell(alloc, out, before)?;
            tell_refusal(alloc, out, refusal)
        }
        PushFault::Failed => Ok(out.push_str("failed\n")?),
        PushFault::NoMemory => bail!("no memory"),
    }
}

// Feeds a piece, and answers whether it was taken.
fn feed(alloc: Global, push: &mut Push, out: &mut String, piece: &[u8]) -> Result<bool> {
    match push.feed(piece) {
        Ok(items) => {
            tell(alloc, out, &items)?;
            Ok(true)
        }
        Err(fault) => {
            tell_fault(alloc, out, &fault)?;
            Ok(false)
        }
    }
}

fn end(alloc: Global, push: &mut Push, out: &mut String) -> Result<()> {
    if let Err(fault) = push.end() {
        tell_fault(alloc, out, &fault)?;
    }
    Ok(())
}

fn start(alloc: Global, case: &Case<'_>) -> Push {
    if case.has("headerless") {
        Push::headerless(alloc)
    } else {
        Push::new(alloc)
    }
}

// Feeds a body in pieces of this size, up to a refusal, and ends it.
fn feed_pieces(
    alloc: Global,
    push: &mut Push,
    out: &mut String,
    body: &[u8],
    size: usize,
) -> Result<()> {
    for piece in body.chunks(size.max(1)) {
        if !feed(alloc, push, out, piece)? {
            return Ok(());
        }
    }
    end(alloc, push, out)
}

// What a body gives in pieces of this size.
fn in_pieces(alloc: Global, case: &Case<'_>, body: &[u8], size: usize) -> Result<String> {
    let mut push = start(alloc, case);
    let mut out = String::new(alloc);
    feed_pieces(alloc, &mut push, &mut out, body, size)?;
    Ok(out)
}

// Feeds a body in two pieces, up to a refusal, and ends it.
fn feed_two(
    alloc: Global,
    push: &mut Push,
    out: &mut String,
    front: &[u8],
    behind: &[u8],
) -> Result<()> {
    for piece in [front, behind] {
        if !feed(alloc, push, out, piece)? {
            return Ok(());
        }
    }
    end(alloc, push, out)
}

// What a body gives in two pieces.
fn in_two(alloc: Global, case: &Case<'_>, front: &[u8], behind: &[u8]) -> Result<String> {
    let mut push = start(alloc, case);
    let mut out = String::new(alloc);
    feed_two(alloc, &mut push, &mut out, front, behind)?;
    Ok(out)
}

// What a body gives as a whole, and in pieces of these sizes.
fn whole(alloc: Global, case: &Case<'_>, sizes: &[usize]) -> Result<String> {
    let body = case.bytes(alloc, "body")?;
    let first = in_pieces(alloc, case, body.as_slice(), usize::MAX)?;
    for size in sizes {
        let other = in_pieces(alloc, case, body.as_slice(), *size)?;
        if other.as_str() != first.as_str() {
            return Ok(format!(in alloc; "in pieces of {size} {other}")?);
        }
    }
    Ok(first)
}

// What a body gives in two pieces that is not this, if it does.
fn otherwise_at(
    alloc: Global,
    case: &Case<'_>,
    first: &str,
    body: &[u8],
    at: usize,
) -> Result<Option<String>> {
    let Some((front, behind)) = body.split_at_checked(at) else {
        return Ok(None);
    };
    let other = in_two(alloc, case, front, behind)?;
    if other.as_str() == first {
        return Ok(None);
    }
    Ok(Some(format!(in alloc; "cut at {at} {other}")?))
}

// The first cut of a body into two pieces that gives something else than this, and what it gives.
fn otherwise(alloc: Global, case: &Case<'_>, first: &str, body: &[u8]) -> Result<Option<String>> {
    for at in 0..body.len() {
        if let Some(other) = otherwise_at(alloc, case, first, body, at)? {
            return Ok(Some(other));
        }
    }
    Ok(None)
}

fn same_with_nothing_behind(
    alloc: Global,
    case: &Case<'_>,
    first: &str,
    body: &[u8],
) -> Result<()> {
    let other = in_two(alloc, case, body, &[])?;
    ensure!(
        other.as_str() == first,
        "otherwise with an empty piece behind it"
    );
    Ok(())
}

// The same, cut into two pieces at each of its bytes.
fn cut(alloc: Global, case: &Case<'_>) -> Result<String> {
    let body = case.bytes(alloc, "body")?;
    let first = whole(alloc, case, &[1, 2, 3, 7, 64, 4096])?;
    if let Some(other) = otherwise(alloc, case, first.as_str(), body.as_slice())? {
        return Ok(other);
    }
    same_with_nothing_behind(alloc, case, first.as_str(), body.as_slice())?;
    Ok(first)
}

// What a front of this length gives: nothing, where it is cut off at its end.
fn front(alloc: Global, at: usize, gave: &str) -> Result<String> {
    if gave.is_empty() {
        return Ok(format!(in alloc; "taken at {at}\n")?);
    }
    let cut = format!(in alloc; "21 CutOff at {at}\n")?;
    if gave == cut.as_str() {
        return Ok(String::new(alloc));
    }
    Ok(format!(in alloc; "at {at} {gave}\n")?)
}

fn push_front(
    alloc: Global,
    case: &Case<'_>,
    out: &mut String,
    body: &[u8],
    at: usize,
) -> Result<()> {
    let gave = in_pieces(alloc, case, body.get(..at).unwrap_or(&[]), 1000)?;
    let front = front(alloc, at, gave.as_str())?;
    out.push_str(front.as_str())?;
    Ok(())
}

// Each front of a body that ends there: the lengths of those that are taken, where each other one is cut off at its end.
fn fronts(alloc: Global, case: &Case<'_>) -> Result<String> {
    let body = case.bytes(alloc, "body")?;
    let mut out = String::new(alloc);
    for at in 0..body.len() {
        push_front(alloc, case, &mut out, body.as_slice(), at)?;
    }
    Ok(out)
}

// Feeds bytes as one piece, and says where it is refused.
fn feed_whole(alloc: Global, push: &mut Push, out: &mut String, piece: &[u8]) -> Result<()> {
    if !feed(alloc, push, out, piece)? {
        out.push_str("refused\n")?;
    }
    Ok(())
}

fn feed_bytes(alloc: Global, push: &mut Push, out: &mut String, bytes: &[u8]) -> Result<()> {
    for piece in bytes.chunks(1) {
        feed(alloc, push, out, piece)?;
    }
    Ok(())
}

// The track_ID of a name and a bitrate.
fn track(alloc: Global, push: &Push, words: &Words) -> Result<String> {
    let bitrate = words.short(1)?;
    let name = Name::read(alloc, words.raw(0)?)?;
    match push.track_id(&name, bitrate) {
        Some(id) => told::numbered(alloc, "track", u64::from(id)),
        None => told::text(alloc, "no track\n"),
    }
}

fn tell_track(alloc: Global, push: &Push, out: &mut String, words: &Words) -> Result<()> {
    let track = track(alloc, push, words)?;
    out.push_str(track.as_str())?;
    Ok(())
}

// The bytes that a line says.
fn bytes_of(alloc: Global, case: &Case<'_>, line: &Line) -> Result<Vec<u8>> {
    let words = case.words(alloc, line)?;
    Ok(words.bytes(alloc, 0)?)
}

// Makes a step of a row: `feed` with bytes, `bytewise` with bytes, `end`, and `track` with a name and a bitrate.
fn step(
    alloc: Global,
    case: &Case<'_>,
    line: &Line,
    push: &mut Push,
    out: &mut String,
) -> Result<()> {
    match line.key() {
        "feed" => feed_whole(alloc, push, out, bytes_of(alloc, case, line)?.as_slice()),
        "bytewise" => feed_bytes(alloc, push, out, bytes_of(alloc, case, line)?.as_slice()),
        "end" => end(alloc, push, out),
        "track" => tell_track(alloc, push, out, &case.words(alloc, line)?),
        _ => Ok(()),
    }
}

fn take_steps(alloc: Global, case: &Case<'_>, push: &mut Push, out: &mut String) -> Result<()> {
    for line in case.lines() {
        step(alloc, case, line, push, out)?;
    }
    Ok(())
}

// What each step of a row gives.
fn steps(alloc: Global, case: &Case<'_>) -> Result<String> {
    let mut push = start(alloc, case);
    let mut out = String::new(alloc);
    take_steps(alloc, case, &mut push, &mut out)?;
    Ok(out)
}

// The words of a fault, in a line.
fn push_fault(alloc: Global, out: &mut String, fault: &PushFault) -> Result<()> {
    let line = format!(in alloc; "{fault}\n")?;
    out.push_str(line.as_str())?;
    Ok(())
}

// Feeds a box that is none and then nothing, and appends the words of each fault.
fn spoil(alloc: Global, push: &mut Push, out: &mut String) -> Result<()> {
    for piece in [b"\0\0\0\x04free".as_slice(), b"".as_slice()] {
        if let Err(fault) = push.feed(piece) {
            push_fault(alloc, out, &fault)?;
        }
    }
    Ok(())
}

// The words of each fault of the crate.
fn faults(alloc: Global) -> Result<String> {
    let mut push = Push::new(alloc);
    let mut out = String::new(alloc);
    spoil(alloc, &mut push, &mut out)?;
    push_fault(alloc, &mut out, &PushFault::NoMemory)?;
    Ok(out)
}

/// What a call of `sm_push` gives.
pub fn answer(alloc: Global, case: &Case<'_>) -> Result<String> {
    match case.call() {
        "sm_push body" => whole(alloc, case, &[1, 5]),
        "sm_push body cut anywhere" => cut(alloc, case),
        "sm_push fronts" => fronts(alloc, case),
        "sm_push steps" => steps(alloc, case),
        "sm_push faults" => faults(alloc),
        _ => bail!("no such call"),
    }
}
