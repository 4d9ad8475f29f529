//! Exchanges with an origin whose answers lie in memory.
use crate::commands::tell_requests;
use crate::ends::{answers, one};
use crate::places::{name, place};
use anyhow::Result;
use sm_fetch::{
    Fetched, Got, MemoryDial, Place, Pushed, fetch_fragment, get_fragment, get_manifest, push_body,
};
use sm_model::{Address, Bytes, RawFragment};
use sm_rows::tales::Tale;
use sm_rows::values::tell_samples;
use sm_rows::{Case, Line, Words};
use std::alloc::Global;

// Where all of them go: the path has a byte that is escaped.
fn origin(alloc: Global) -> Result<Place> {
    place(alloc, b"origin.example", 8080, b"live a/x")
}

// Tells how many streams a manifest lists.
fn tell_manifest(alloc: Global, streams: u64, tale: &mut Tale) -> Result<()> {
    let line = format!(in alloc; "streams {streams}")?;
    tale.say(line.as_str())
}

// Tells a fragment with its samples.
fn tell_fragment(alloc: Global, raw: &RawFragment, tale: &mut Tale) -> Result<()> {
    let (id, time, duration, signed) = (raw.id, raw.time, raw.duration, raw.signed);
    let ahead = raw.ahead.len();
    let samples = tell_samples(alloc, &raw.samples)?;
    let line = format!(in alloc;
        "fragment {id} {time} {duration} signed {signed} ahead {ahead}\n{samples}"
    )?;
    tale.say(line.as_str().trim_end_matches('\n'))
}

// Tells what was got by its own text.
fn tell_other(alloc: Global, got: &Got, tale: &mut Tale) -> Result<()> {
    let line = format!(in alloc; "{got:?}")?;
    tale.say(line.as_str())
}

// Tells what was got: how many streams a manifest lists, a fragment with its samples, and all else by its own text.
fn tell_got(alloc: Global, got: &Got, tale: &mut Tale) -> Result<()> {
    match got {
        Got::Manifest(listing) => tell_manifest(alloc, listing.streams.len(), tale),
        Got::Fragment(raw) => tell_fragment(alloc, raw, tale),
        other => tell_other(alloc, other, tale),
    }
}

fn tell_fetched(alloc: Global, fetched: &Fetched, tale: &mut Tale) -> Result<()> {
    tell_got(alloc, &fetched.got, tale)?;
    tale.count(fetched.bytes)
}

// Tells the status and the line of a reply to a push, the line by its length where it is long.
fn tell_reply(status: u16, line: &[u8], tale: &mut Tale) -> Result<()> {
    tale.count(u64::from(status))?;
    if line.len() > 1_000 {
        return tale.count(line.len() as u64);
    }
    tale.text(line)
}

// Tells the status and the line of a reply to a push, and all else by its own text.
fn tell_pushed(alloc: Global, pushed: &Pushed, tale: &mut Tale) -> Result<()> {
    match pushed {
        Pushed::Status { status, line } => tell_reply(*status, line.as_slice(), tale),
        other => {
            let line = format!(in alloc; "{other:?}")?;
            tale.say(line.as_str())
        }
    }
}

// The address of a fragment of the pictures at this time.
fn address(alloc: Global, words: &Words) -> Result<Address> {
    let time = words.number(0)?;
    let stream = name(alloc, b"video")?;
    Ok(Address {
        stream,
        bitrate: 350_000,
        time,
    })
}

fn tell_limits(dial: &MemoryDial, tale: &mut Tale) -> Result<()> {
    for made in dial.exchanges() {
        tale.count(made.limit)?;
    }
    Ok(())
}

// Tells what was asked so far: `exchanges`, how many; `limits`, the limit of each; `requests`, the text of each; `faults`, how many were
// lost.
fn answer(dial: &MemoryDial, line: &Line, tale: &mut Tale) -> Result<()> {
    match line.key() {
        "exchanges" => tale.count(dial.exchanges().len() as u64),
        "limits" => tell_limits(dial, tale),
        "requests" => tell_requests(dial, tale),
        "faults" => tale.count(dial.faults()),
        _ => Ok(()),
    }
}

// Asks for the manifest.
fn manifest(alloc: Global, dial: &mut MemoryDial, tale: &mut Tale) -> Result<()> {
    let place = origin(alloc)?;
    let got = get_manifest(alloc, dial, &place);
    tell_got(alloc, &got, tale)
}

// Asks for the fragment of a time, by the words behind it as its template.
fn ask(alloc: Global, dial: &mut MemoryDial, words: &Words) -> Result<Got> {
    let url = words.bytes(alloc, 1)?;
    let address = address(alloc, words)?;
    let place = origin(alloc)?;
    Ok(get_fragment(alloc, dial, &place, &url, &address))
}

fn fragment(alloc: Global, dial: &mut MemoryDial, words: &Words, tale: &mut Tale) -> Result<()> {
    let got = ask(alloc, dial, words)?;
    tell_got(alloc, &got, tale)
}

// Asks for the fragment of a time, and tells how much came too.
fn fetch(alloc: Global, dial: &mut MemoryDial, words: &Words, tale: &mut Tale) -> Result<()> {
    let url = words.bytes(alloc, 1)?;
    let address = address(alloc, words)?;
    let place = origin(alloc)?;
    let fetched = fetch_fragment(alloc, dial, &place, &url, &address);
    tell_fetched(alloc, &fetched, tale)
}

// Pushes a body as a stream of that name.
fn push(alloc: Global, dial: &mut MemoryDial, words: &Words, tale: &mut Tale) -> Result<()> {
    let id = name(alloc, words.raw(0)?)?;
    let body = words.bytes(alloc, 1)?;
    let place = origin(alloc)?;
    let pushed = push_body(alloc, dial, &place, &id, &body);
    tell_pushed(alloc, &pushed, tale)
}

// Makes the exchange of a line: `manifest`; `fragment TIME` and a template; `fetch TIME` and a template, which tells how much came too;
// `push ID` and a body.
fn exchange(
    alloc: Global,
    case: &Case<'_>,
    dial: &mut MemoryDial,
    line: &Line,
    tale: &mut Tale,
) -> Result<()> {
    let words = case.words(alloc, line)?;
    match line.key() {
        "manifest" => manifest(alloc, dial, tale),
        "fragment" => fragment(alloc, dial, &words, tale),
        "fetch" => fetch(alloc, dial, &words, tale),
        "push" => push(alloc, dial, &words, tale),
        _ => answer(dial, line, tale),
    }
}

// Makes the exchanges of a row one after another.
fn exchanges(alloc: Global, case: &Case<'_>, dial: &mut MemoryDial, tale: &mut Tale) -> Result<()> {
    for line in case.lines() {
        exchange(alloc, case, dial, line, tale)?;
    }
    Ok(())
}

/// Makes the exchanges of a row one after another, and tells what they got and what the lines between them ask.
pub fn play(alloc: Global, case: &Case<'_>, tale: &mut Tale) -> Result<()> {
    let answers = answers(alloc, case)?;
    let mut dial = MemoryDial::new(alloc, answers);
    exchanges(alloc, case, &mut dial, tale)
}

// What an origin gives that answers these bytes.
fn ask_one(alloc: Global, words: &Words, reply: &[u8]) -> Result<Got> {
    let bytes = Bytes::from_slice(alloc, reply)?;
    let answers = one(alloc, bytes)?;
    let mut dial = MemoryDial::new(alloc, answers);
    ask(alloc, &mut dial, words)
}

// Tells a front of a reply, if what was got isn't told to be one.
fn tell_front(alloc: Global, count: u64, got: &Got, tale: &mut Tale) -> Result<()> {
    if matches!(got, Got::Cut) {
        return Ok(());
    }
    tale.count(count)?;
    tell_got(alloc, got, tale)
}

fn front(alloc: Global, words: &Words, reply: &[u8], tale: &mut Tale) -> Result<()> {
    let got = ask_one(alloc, words, reply)?;
    tell_front(alloc, reply.len() as u64, &got, tale)
}

/// Asks for the fragment of the line `fragment` at origins that answer each front of the bytes of `reply`, without the whole, and tells
/// those that are no front of a reply: how long they are, and what was got.
pub fn play_fronts(alloc: Global, case: &Case<'_>, tale: &mut Tale) -> Result<()> {
    let reply = case.bytes(alloc, "reply")?;
    let words = case.words_of(alloc, "fragment")?;
    for (count, _) in reply.iter().enumerate() {
        front(alloc, &words, &reply[..count], tale)?;
    }
    tale.count(reply.len() as u64)
}
