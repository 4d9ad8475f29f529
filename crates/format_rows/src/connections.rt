//! Calls of `sm_body`, `sm_conn` and `sm_wire`.
use crate::messages::{closing, target};
use crate::told;
use anyhow::{Result, bail, ensure};
use sm_body::{Framer, Framing, Step, read_plainly as read_body_plainly};
use sm_conn::{Conn, Part};
use sm_model::{Cause, Channel, Refusal, Target, put_cause};
use sm_rows::values::{tell_channel, tell_fragment};
use sm_rows::{Case, Words, hex};
use sm_wire::{WireItem, read_plainly};
use std::alloc::Global;

fn framing_at(words: &Words) -> Result<Framing> {
    match words.text(0)? {
        "none" => Ok(Framing::None),
        "counted" => Ok(Framing::Counted(words.number(1)?)),
        "chunked" => Ok(Framing::Chunked),
        _ => bail!("no such framing"),
    }
}

fn framing_of(alloc: Global, case: &Case<'_>) -> Result<Framing> {
    let words = case.words_of(alloc, "framing")?;
    framing_at(&words)
}

// Appends the bytes of a body that a piece begins with.
fn take(body: &mut Vec<u8>, piece: &[u8], count: usize) -> Result<()> {
    let Some(data) = piece.get(..count) else {
        bail!("more bytes than there are");
    };
    body.extend_from_slice(data)?;
    Ok(())
}

// The piece of this size that comes at a place, or what is left there.
fn piece_at(text: &[u8], at: usize, size: usize) -> &[u8] {
    let rest = text.get(at..).unwrap_or(&[]);
    rest.get(..size).unwrap_or(rest)
}

// Where a body that comes in pieces of this size ends, and how: the word and how many bytes came before.
fn end_of(
    framer: &mut Framer,
    text: &[u8],
    size: usize,
    body: &mut Vec<u8>,
) -> Result<(&'static str, usize)> {
    let mut at = 0usize;
    for _ in 0..text.len().saturating_mul(2).saturating_add(16) {
        let piece = piece_at(text, at, size);
        match framer.step(piece) {
            Step::Skip(count) => at = at.saturating_add(count),
            Step::Body(count) => {
                take(body, piece, count)?;
                at = at.saturating_add(count);
            }
            Step::End(count) => return Ok(("end", at.saturating_add(count))),
            Step::More => return Ok(("more", at)),
            Step::Bad => return Ok(("bad", at)),
        }
    }
    bail!("no end")
}

fn framed_in(alloc: Global, framing: Framing, text: &[u8], size: usize) -> Result<String> {
    let mut body = Vec::new(alloc);
    let (word, at) = end_of(&mut Framer::new(framing), text, size, &mut body)?;
    let body = hex(alloc, body.as_slice())?;
    Ok(format!(in alloc; "[{body}] {word}@{at}")?)
}

// Whether it is the same in pieces of this size.
fn same_framed(
    alloc: Global,
    framing: Framing,
    text: &[u8],
    size: usize,
    whole: &str,
) -> Result<()> {
    let other = framed_in(alloc, framing, text, size)?;
    ensure!(other.as_str() == whole, "in pieces of {size} {other}");
    Ok(())
}

// A body in brackets, and its end, whatever the pieces are.
fn framed(alloc: Global, case: &Case<'_>) -> Result<String> {
    let text = case.bytes(alloc, "text")?;
    let framing = framing_of(alloc, case)?;
    let whole = framed_in(alloc, framing, text.as_slice(), 100_000)?;
    for size in [1, 2, 3, 7, 100] {
        same_framed(alloc, framing, text.as_slice(), size, whole.as_str())?;
    }
    Ok(whole)
}

fn framed_plainly(alloc: Global, case: &Case<'_>) -> Result<String> {
    let framing = framing_of(alloc, case)?;
    let text = case.bytes(alloc, "text")?;
    let plain = read_body_plainly(alloc, framing, text.as_slice())?;
    let body = hex(alloc, plain.body.as_slice())?;
    let place = plain.place;
    Ok(format!(in alloc; "[{body}] {place:?}")?)
}

fn get(alloc: Global, asked: &Target, close: bool) -> Result<String> {
    let close = closing(close);
    let asked = target(alloc, asked)?;
    Ok(format!(in alloc; "get {asked}{close}")?)
}

fn get_part(alloc: Global, asked: &Target, close: bool) -> Result<String> {
    let get = get(alloc, asked, close)?;
    Ok(format!(in alloc; "({get})")?)
}

fn end_part(alloc: Global, close: bool) -> Result<String> {
    let close = closing(close);
    Ok(format!(in alloc; "(end{close})")?)
}

fn bad_part(alloc: Global, cause: &Cause) -> Result<String> {
    let cause = told::refused(alloc, cause)?;
    Ok(format!(in alloc; "({cause})")?)
}

// A part in a line; the bytes of a body stand in digits, so that neighbouring ones are joined.
fn part(alloc: Global, part: &Part) -> Result<String> {
    match part {
        Part::Get { target, close } => get_part(alloc, target, *close),
        Part::Post => told::text(alloc, "(post)"),
        Part::Continue => told::text(alloc, "(continue)"),
        Part::Body(bytes) => Ok(hex(alloc, bytes.as_slice())?),
        Part::End { close } => end_part(alloc, *close),
        Part::Bad(cause) => bad_part(alloc, cause),
    }
}

fn push_part(alloc: Global, out: &mut String, one: &Part) -> Result<()> {
    let text = part(alloc, one)?;
    out.push_str(text.as_str())?;
    Ok(())
}

// Appends what a connection gives for a piece.
fn push_parts(alloc: Global, conn: &mut Conn, out: &mut String, piece: &[u8]) -> Result<()> {
    let parts = conn.feed(piece)?;
    for one in parts.as_slice() {
        push_part(alloc, out, one)?;
    }
    Ok(())
}

fn push_pieces(
    alloc: Global,
    conn: &mut Conn,
    out: &mut String,
    bytes: &[u8],
    size: usize,
) -> Result<()> {
    for piece in bytes.chunks(size.max(1)) {
        push_parts(alloc, conn, out, piece)?;
    }
    Ok(())
}

fn parts_in(alloc: Global, bytes: &[u8], size: usize) -> Result<String> {
    let mut conn = Conn::new(alloc)?;
    let mut out = String::new(alloc);
    push_pieces(alloc, &mut conn, &mut out, bytes, size)?;
    Ok(out)
}

// The sizes that words say.
fn sizes_at(alloc: Global, words: &Words) -> Result<Vec<usize>> {
    let mut sizes = Vec::new(alloc);
    for at in 0..words.len() {
        let size = usize::try_from(words.number(at)?)?;
        sizes.push(size)?;
    }
    Ok(sizes)
}

// The sizes of pieces: those of the row, or these.
fn sizes_of(alloc: Global, case: &Case<'_>) -> Result<Vec<usize>> {
    if !case.has("sizes") {
        return Ok(Vec::from_slice(alloc, &[1, 2, 3, 7, 1000])?);
    }
    let words = case.words_of(alloc, "sizes")?;
    sizes_at(alloc, &words)
}

// Whether they are the same in pieces of this size.
fn same_parts(alloc: Global, bytes: &[u8], size: usize, whole: &str) -> Result<()> {
    let other = parts_in(alloc, bytes, size)?;
    ensure!(other.as_str() == whole, "in pieces of {size} {other}");
    Ok(())
}

// What a connection gives, whatever the pieces are.
fn parts(alloc: Global, case: &Case<'_>) -> Result<String> {
    let bytes = case.bytes(alloc, "bytes")?;
    let whole = parts_in(alloc, bytes.as_slice(), 100_000)?;
    let sizes = sizes_of(alloc, case)?;
    for size in sizes.as_slice() {
        same_parts(alloc, bytes.as_slice(), *size, whole.as_str())?;
    }
    Ok(whole)
}

fn get_item(alloc: Global, asked: &Target, close: bool) -> Result<String> {
    let get = get(alloc, asked, close)?;
    Ok(format!(in alloc; "{get}\n")?)
}

fn header_item(alloc: Global, channel: &Channel) -> Result<String> {
    let tracks = tell_channel(alloc, channel)?;
    Ok(format!(in alloc; "header\n{tracks}")?)
}

fn end_item(alloc: Global, close: bool) -> Result<String> {
    let close = closing(close);
    Ok(format!(in alloc; "end{close}\n")?)
}

fn refusal_item(alloc: Global, refusal: &Refusal) -> Result<String> {
    let line = put_cause(alloc, refusal)?;
    told::text(alloc, str::from_utf8(line.as_slice())?)
}

fn item(alloc: Global, item: &WireItem) -> Result<String> {
    match item {
        WireItem::Continue => told::text(alloc, "continue\n"),
        WireItem::Get { target, close } => get_item(alloc, target, *close),
        WireItem::Header(channel) => header_item(alloc, channel),
        WireItem::Frag(fragment) => Ok(tell_fragment(alloc, fragment)?),
        WireItem::End { close } => end_item(alloc, *close),
        WireItem::Refuse(refusal) => refusal_item(alloc, refusal),
    }
}

fn push_item(alloc: Global, out: &mut String, one: &WireItem) -> Result<()> {
    let text = item(alloc, one)?;
    out.push_str(text.as_str())?;
    Ok(())
}

// What a connection gives with its pushes read.
fn items(alloc: Global, case: &Case<'_>) -> Result<String> {
    let bytes = case.bytes(alloc, "bytes")?;
    let items = read_plainly(alloc, bytes.as_slice())?;
    let mut out = String::new(alloc);
    for one in items.as_slice() {
        push_item(alloc, &mut out, one)?;
    }
    Ok(out)
}

/// What a call of `sm_body`, `sm_conn` or `sm_wire` gives.
pub fn answer(alloc: Global, case: &Case<'_>) -> Result<String> {
    match case.call() {
        "sm_body Framer::step" => framed(alloc, case),
        "sm_body read_plainly" => framed_plainly(alloc, case),
        "sm_conn Conn::feed" => parts(alloc, case),
        "sm_wire read_plainly" => items(alloc, case),
        _ => bail!("no such call"),
    }
}
