//! Calls of `sm_addr`, `sm_head` and `sm_fetch`.
use crate::told;
use anyhow::{Result, bail, ensure};
use sm_addr::{put_target, read_target};
use sm_fetch::plain::read_reply_plainly;
use sm_fetch::{DialError, Reply, read_reply};
use sm_head::{
    CONTINUE, Content, NO_MEMORY, ReqHead, RespFault, RespHead, Verb, plain, put_response,
    read_request, read_response,
};
use sm_model::{Address, Framing, Name, NoMemory, ReadFault, Target};
use sm_rows::{Case, Words, hex};
use std::alloc::Global;

fn fragment(alloc: Global, address: &Address) -> Result<String> {
    let stream = address.stream.as_str();
    let bitrate = address.bitrate;
    let time = address.time;
    Ok(format!(in alloc; "fragment {stream} {bitrate} {time}")?)
}

fn streams(alloc: Global, id: &Name) -> Result<String> {
    let id = id.as_str();
    Ok(format!(in alloc; "streams {id}")?)
}

/// What a target names.
pub fn target(alloc: Global, target: &Target) -> Result<String> {
    match target {
        Target::Manifest => told::text(alloc, "manifest"),
        Target::Fragment(address) => fragment(alloc, address),
        Target::Streams(id) => streams(alloc, id),
        Target::Unknown => told::text(alloc, "unknown"),
    }
}

fn address_of(alloc: Global, words: &Words) -> Result<Address> {
    let bitrate = words.short(2)?;
    let time = words.number(3)?;
    let stream = Name::read(alloc, words.raw(1)?)?;
    Ok(Address {
        stream,
        bitrate,
        time,
    })
}

fn target_at(alloc: Global, words: &Words) -> Result<Target> {
    match words.text(0)? {
        "manifest" => Ok(Target::Manifest),
        "fragment" => Ok(Target::Fragment(address_of(alloc, words)?)),
        "streams" => Ok(Target::Streams(Name::read(alloc, words.raw(1)?)?)),
        _ => bail!("no such target"),
    }
}

// The target of the row's line `target`.
fn target_of(alloc: Global, case: &Case<'_>) -> Result<Target> {
    let words = case.words_of(alloc, "target")?;
    target_at(alloc, &words)
}

fn read_target_of(alloc: Global, case: &Case<'_>) -> Result<String> {
    let text = case.bytes(alloc, "text")?;
    let read = read_target(alloc, text.as_slice())?;
    target(alloc, &read)
}

fn written_target(alloc: Global, case: &Case<'_>) -> Result<String> {
    let path = case.bytes(alloc, "path")?;
    let target = target_of(alloc, case)?;
    let text = put_target(alloc, path.as_slice(), &target)?;
    told::text(alloc, str::from_utf8(text.as_slice())?)
}

/// How a body is framed.
pub fn framing(alloc: Global, framing: Framing) -> Result<String> {
    match framing {
        Framing::None => told::text(alloc, "none"),
        Framing::Counted(count) => Ok(format!(in alloc; "counted {count}")?),
        Framing::Chunked => told::text(alloc, "chunked"),
    }
}

fn method(verb: Verb) -> &'static str {
    if verb == Verb::Get { "get" } else { "post" }
}

/// The word that says whether a connection closes.
pub fn closing(close: bool) -> &'static str {
    if close { ", close" } else { "" }
}

fn expecting(expects: bool) -> &'static str {
    if expects { ", expects" } else { "" }
}

// The method, the length of the head, the target, the framing and two words; or `partial`.
fn request_head(alloc: Global, head: &ReqHead) -> Result<String> {
    match head {
        ReqHead::Whole {
            length,
            method: verb,
            target: asked,
            framing: framed,
            close,
            expects,
        } => {
            let method = method(*verb);
            let close = closing(*close);
            let expects = expecting(*expects);
            let asked = target(alloc, asked)?;
            let framed = framing(alloc, *framed)?;
            Ok(format!(in alloc; "{method} {length}, {asked}, {framed}{close}{expects}")?)
        }
        ReqHead::Partial => told::text(alloc, "partial"),
    }
}

// What the head of a request says; or the refusal.
fn request(alloc: Global, case: &Case<'_>) -> Result<String> {
    let bytes = case.bytes(alloc, "bytes")?;
    match read_request(alloc, bytes.as_slice()) {
        Ok(head) => request_head(alloc, &head),
        Err(fault) => told::fault(alloc, &fault),
    }
}

fn response_head(alloc: Global, head: &RespHead) -> Result<String> {
    match head {
        RespHead::Whole {
            length,
            status,
            framing: framed,
        } => {
            let framed = framing(alloc, *framed)?;
            Ok(format!(in alloc; "{status} {length}, {framed}")?)
        }
        RespHead::Partial => told::text(alloc, "partial"),
    }
}

fn response(alloc: Global, case: &Case<'_>) -> Result<String> {
    let bytes = case.bytes(alloc, "bytes")?;
    match read_response(alloc, bytes.as_slice()) {
        Ok(head) => response_head(alloc, &head),
        Err(RespFault::Bad) => told::text(alloc, "bad"),
        Err(RespFault::NoMemory) => bail!("no memory"),
    }
}

fn content_of(word: &str) -> Result<Content> {
    match word {
        "plain" => Ok(Content::Plain),
        "mp4" => Ok(Content::Mp4),
        "xml" => Ok(Content::Xml),
        _ => bail!("no such content"),
    }
}

// The status and the content of the row's line `reply`.
fn reply_of(alloc: Global, case: &Case<'_>) -> Result<(u16, Content)> {
    let words = case.words_of(alloc, "reply")?;
    let status = u16::try_from(words.short(0)?)?;
    let kind = content_of(words.text(1)?)?;
    Ok((status, kind))
}

fn written_response(alloc: Global, case: &Case<'_>) -> Result<String> {
    let (status, kind) = reply_of(alloc, case)?;
    ensure!(status >= 100 && status < 1000, "no status");
    let body = case.bytes(alloc, "body")?;
    let text = put_response(alloc, status, kind, body.as_slice(), case.has("close"))?;
    told::text(alloc, str::from_utf8(text.as_slice())?)
}

// Whether a part of a reply shows a status, and what it shows of the body.
fn shown(alloc: Global, status: u16, part: &[u8]) -> Result<String> {
    let shows = plain::shows_status(alloc, status, part)?;
    let body = hex(alloc, plain::body_of(part))?;
    Ok(format!(in alloc; "{shows} [{body}]")?)
}

fn shows(alloc: Global, case: &Case<'_>) -> Result<String> {
    let status = u16::try_from(case.number(alloc, "status")?)?;
    let part = case.bytes(alloc, "bytes")?;
    shown(alloc, status, part.as_slice())
}

// The texts that are ready before memory is wanted.
fn ready(alloc: Global) -> Result<String> {
    let proceed = str::from_utf8(CONTINUE)?;
    let none = str::from_utf8(NO_MEMORY)?;
    Ok(format!(in alloc; "{proceed}{none}")?)
}

// What an answer begins with.
fn reply(alloc: Global, reply: &Reply<'_>) -> Result<String> {
    match reply {
        Reply::Whole { status, at, body } => {
            let body = hex(alloc, body.as_slice())?;
            Ok(format!(in alloc; "whole {status} {at} [{body}]")?)
        }
        Reply::Cut => told::text(alloc, "cut"),
        Reply::Bad { at } => Ok(format!(in alloc; "bad at {at}")?),
    }
}

fn read_quickly(alloc: Global, bytes: &[u8]) -> Result<String> {
    let read = read_reply(alloc, bytes)?;
    reply(alloc, &read)
}

fn read_plainly(alloc: Global, bytes: &[u8]) -> Result<String> {
    let read = read_reply_plainly(alloc, bytes)?;
    reply(alloc, &read)
}

// The same by both readers.
fn answer_begun(alloc: Global, bytes: &[u8]) -> Result<String> {
    let quick = read_quickly(alloc, bytes)?;
    let plain = read_plainly(alloc, bytes)?;
    ensure!(
        plain.as_str() == quick.as_str(),
        "the plain program says {plain}"
    );
    Ok(quick)
}

fn answer_of(alloc: Global, case: &Case<'_>) -> Result<String> {
    let bytes = case.bytes(alloc, "bytes")?;
    answer_begun(alloc, bytes.as_slice())
}

// Appends a line where what a front begins with is another than of the front before, and answers it.
fn push_front(alloc: Global, out: &mut String, last: &str, front: &[u8]) -> Result<String> {
    let begun = answer_begun(alloc, front)?;
    if begun.as_str() != last {
        let end = front.len();
        let line = format!(in alloc; "from {end} {begun}\n")?;
        out.push_str(line.as_str())?;
    }
    Ok(begun)
}

// What each front of an answer begins with, from so many bytes on: a line where it is another than of the front before.
fn fronts_from(alloc: Global, bytes: &[u8], first: usize) -> Result<String> {
    let mut last = String::new(alloc);
    let mut out = String::new(alloc);
    for end in first..bytes.len().saturating_add(1) {
        let front = bytes.get(..end).unwrap_or(bytes);
        last = push_front(alloc, &mut out, last.as_str(), front)?;
    }
    Ok(out)
}

fn fronts(alloc: Global, case: &Case<'_>) -> Result<String> {
    let bytes = case.bytes(alloc, "bytes")?;
    let first = usize::try_from(case.number(alloc, "since")?)?;
    fronts_from(alloc, bytes.as_slice(), first)
}

// The words of each fault of these crates.
fn faults(alloc: Global) -> Result<String> {
    let refused = RespFault::Bad;
    let memory = RespFault::NoMemory;
    let failed = DialError::Failed;
    let starved = DialError::NoMemory;
    let head = ReadFault::from(NoMemory);
    Ok(format!(in alloc; "{refused}\n{memory}\n{failed}\n{starved}\n{head}\n")?)
}

/// What a call of `sm_addr`, `sm_head` or `sm_fetch` gives.
pub fn answer(alloc: Global, case: &Case<'_>) -> Result<String> {
    match case.call() {
        "sm_addr read_target" => read_target_of(alloc, case),
        "sm_addr put_target" => written_target(alloc, case),
        "sm_head read_request" => request(alloc, case),
        "sm_head read_response" => response(alloc, case),
        "sm_head put_response" => written_response(alloc, case),
        "sm_head plain" => shows(alloc, case),
        "sm_head ready texts" => ready(alloc),
        "sm_head faults" => faults(alloc),
        "sm_fetch read_reply" => answer_of(alloc, case),
        "sm_fetch read_reply of fronts" => fronts(alloc, case),
        _ => bail!("no such call"),
    }
}
