//! Commands, and what they give.
use crate::ends::{Ends, failing, most};
use anyhow::{Result, bail};
use sm_ends::{CountedSource, MemorySource, MemoryTracks, ShortSource, Sink, Source, Tracks};
use sm_fetch::{Dial, MemoryDial};
use sm_model::Bytes;
use sm_policy::{Fixed, Ladder, Policy, Steps};
use sm_rows::scripts::{Cut, site};
use sm_rows::tales::Tale;
use sm_rows::{Case, Line, Words};
use sm_site::MemorySite;
use sm_tool::tool;
use std::alloc::Global;

fn words_of(alloc: Global, words: &Words) -> Result<Vec<String>> {
    let mut all = Vec::new(alloc);
    for at in 0..words.len() {
        all.push(String::from_str(alloc, words.text(at)?)?)?;
    }
    Ok(all)
}

// Runs the command of these words, with the policies of the program, and gives its status.
fn run_by_policies<I: Source, O: Sink, C: Dial, T: Tracks>(
    alloc: Global,
    words: &[String],
    source: &mut I,
    sink: &mut O,
    site: &mut MemorySite,
    dial: &mut C,
    tracks: &mut T,
) -> Result<u8> {
    let steps: Box<dyn Policy> = Box::new(alloc, Steps::new())?;
    let ladder: Box<dyn Policy> = Box::new(alloc, Ladder::new())?;
    let fixed: Box<dyn Policy> = Box::new(alloc, Fixed::new(0))?;
    let policies = vec![in alloc; steps, ladder, fixed]?;
    Ok(tool(alloc, words, source, sink, site, dial, tracks, policies))
}

/// Runs the command of these words, and gives its status.
pub fn run_over<I: Source, O: Sink, C: Dial, T: Tracks>(
    alloc: Global,
    words: &Words,
    source: &mut I,
    sink: &mut O,
    site: &mut MemorySite,
    dial: &mut C,
    tracks: &mut T,
) -> Result<u8> {
    let words = words_of(alloc, words)?;
    run_by_policies(alloc, &words, source, sink, site, dial, tracks)
}

fn run<I: Source>(
    alloc: Global,
    words: &Words,
    source: &mut I,
    site: &mut MemorySite,
    ends: &mut Ends,
) -> Result<u8> {
    let Ends { sink, dial, tracks } = ends;
    run_over(alloc, words, source, sink, site, dial, tracks)
}

fn tell_text(alloc: Global, status: u8, text: &str, tale: &mut Tale) -> Result<()> {
    let line = format!(in alloc; "{status} {text:?}")?;
    tale.say(line.as_str())
}

fn tell_bytes(status: u8, printed: &[u8], tale: &mut Tale) -> Result<()> {
    tale.count(u64::from(status))?;
    tale.bytes(printed)
}

fn tell_input(alloc: Global, status: u8, tale: &mut Tale) -> Result<()> {
    let line = format!(in alloc; "{status} the input")?;
    tale.say(line.as_str())
}

/// Tells the status, and behind it what was printed, as a text between quotes, or that it is the input; where it is no text, in
/// hexadecimal digits on a line of their own.
pub fn tell(
    alloc: Global,
    status: u8,
    printed: &[u8],
    input: &[u8],
    tale: &mut Tale,
) -> Result<()> {
    if !printed.is_empty() && printed == input {
        return tell_input(alloc, status, tale);
    }
    match str::from_utf8(printed) {
        Ok(text) => tell_text(alloc, status, text, tale),
        Err(_) => tell_bytes(status, printed, tale),
    }
}

// Runs a command over an input of so many zeros, and gives how many are left.
fn run_long(
    alloc: Global,
    case: &Case<'_>,
    words: &Words,
    site: &mut MemorySite,
    ends: &mut Ends,
    tale: &mut Tale,
) -> Result<u64> {
    let mut source = CountedSource {
        byte: 0,
        left: case.number(alloc, "zeros-input")?,
    };
    let status = run(alloc, words, &mut source, site, ends)?;
    tell(alloc, status, ends.sink.inner.held(), &[], tale)?;
    Ok(source.left)
}

// Runs a command over this input, of which a call moves so many bytes at most, and gives how many are left.
fn run_over_input(
    alloc: Global,
    words: &Words,
    input: &[u8],
    source: &mut ShortSource<MemorySource>,
    site: &mut MemorySite,
    ends: &mut Ends,
    tale: &mut Tale,
) -> Result<u64> {
    let status = run(alloc, words, source, site, ends)?;
    tell(alloc, status, ends.sink.inner.held(), input, tale)?;
    Ok(source.inner.left().len() as u64)
}

// Where a command reads this input: `fails-reads` numbers the calls that fail.
fn memory_source(alloc: Global, case: &Case<'_>, input: &[u8]) -> Result<MemorySource> {
    let calls = failing(alloc, case, "fails-reads")?;
    let bytes = Bytes::from_slice(alloc, input)?;
    Ok(MemorySource::new(bytes, calls))
}

fn short_source(alloc: Global, case: &Case<'_>, input: &[u8]) -> Result<ShortSource<MemorySource>> {
    let most = most(alloc, case)?;
    let inner = memory_source(alloc, case, input)?;
    Ok(ShortSource { inner, most })
}

// The input of the row, or nothing.
fn input_of(alloc: Global, case: &Case<'_>) -> Result<Vec<u8>> {
    if case.has("input") {
        return Ok(case.bytes(alloc, "input")?);
    }
    Ok(Vec::new(alloc))
}

// Runs a command over the input of the row, and gives how many bytes are left.
fn run_short(
    alloc: Global,
    case: &Case<'_>,
    words: &Words,
    site: &mut MemorySite,
    ends: &mut Ends,
    tale: &mut Tale,
) -> Result<u64> {
    let input = input_of(alloc, case)?;
    let mut source = short_source(alloc, case, &input)?;
    run_over_input(alloc, words, &input, &mut source, site, ends, tale)
}

// Runs a command over the zeros or the input of the row, and gives how many bytes are left.
fn run_row(
    alloc: Global,
    case: &Case<'_>,
    words: &Words,
    site: &mut MemorySite,
    ends: &mut Ends,
    tale: &mut Tale,
) -> Result<u64> {
    if case.has("zeros-input") {
        return run_long(alloc, case, words, site, ends, tale);
    }
    run_short(alloc, case, words, site, ends, tale)
}

/// Whether a line asks what a command left.
pub fn is_question(key: &str) -> bool {
    matches!(key, "left" | "exchanges" | "requests" | "held")
}

/// Tells the text of each request.
pub fn tell_requests(dial: &MemoryDial, tale: &mut Tale) -> Result<()> {
    for made in dial.exchanges() {
        tale.text(made.request.as_slice())?;
    }
    Ok(())
}

/// Tells what the track of a line holds.
pub fn tell_held(
    alloc: Global,
    case: &Case<'_>,
    line: &Line,
    tracks: &MemoryTracks,
    tale: &mut Tale,
) -> Result<()> {
    let words = case.words(alloc, line)?;
    tale.text(tracks.held(words.short(0)?))
}

// Tells what a line asks: `left`, how many bytes of the input are left, `exchanges`, how many were made, `requests`, the text of each,
// and `held N`, what that track holds.
fn answer(
    alloc: Global,
    case: &Case<'_>,
    line: &Line,
    ends: &Ends,
    left: u64,
    tale: &mut Tale,
) -> Result<()> {
    match line.key() {
        "left" => tale.count(left),
        "exchanges" => tale.count(ends.dial.exchanges().len() as u64),
        "requests" => tell_requests(&ends.dial, tale),
        "held" => tell_held(alloc, case, line, &ends.tracks, tale),
        _ => bail!("no such question"),
    }
}

// Runs the command of these words between these ends, and tells what it gives and what the lines behind it ask.
fn play_between(
    alloc: Global,
    case: &Case<'_>,
    site: &mut MemorySite,
    words: &Words,
    lines: &[Line],
    ends: &mut Ends,
    tale: &mut Tale,
) -> Result<()> {
    let left = run_row(alloc, case, words, site, ends, tale)?;
    for line in lines {
        answer(alloc, case, line, ends, left, tale)?;
    }
    Ok(())
}

/// Runs the command of these words over the site and the ends of the row, and tells its status and what it printed, and what the
/// lines behind it ask.
pub fn play(
    alloc: Global,
    case: &Case<'_>,
    site: &mut MemorySite,
    words: &Words,
    lines: &[Line],
    tale: &mut Tale,
) -> Result<()> {
    let mut ends = Ends::new(alloc, case)?;
    play_between(alloc, case, site, words, lines, &mut ends, tale)
}

// Whether this is the answer that an input of so many bytes is cut off at its end.
fn is_cut_off(alloc: Global, count: usize, status: u8, printed: &[u8]) -> Result<bool> {
    let cut_off = format!(in alloc;
        "error: input at {count}: 21 CutOff\nThe input ends inside a box, or between a moof and its mdat.\n"
    )?;
    Ok(status == 3 && printed == cut_off.as_bytes())
}

// Tells what a command gives over a front of the input, where it is not that the input is cut off at its end.
fn tell_front(
    alloc: Global,
    count: usize,
    status: u8,
    printed: &[u8],
    input: &[u8],
    tale: &mut Tale,
) -> Result<()> {
    if is_cut_off(alloc, count, status, printed)? {
        return Ok(());
    }
    tale.count(count as u64)?;
    tell(alloc, status, printed, input, tale)
}

// Runs the command over a front of the input between these ends, and gives its status.
fn run_front(
    alloc: Global,
    case: &Case<'_>,
    words: &Words,
    input: &[u8],
    site: &mut MemorySite,
    ends: &mut Ends,
) -> Result<u8> {
    let mut source = memory_source(alloc, case, input)?;
    run(alloc, words, &mut source, site, ends)
}

// Runs the command over a front of the input, and tells it where the answer is not that the input is cut off at its end.
fn front(
    alloc: Global,
    case: &Case<'_>,
    words: &Words,
    input: &[u8],
    site: &mut MemorySite,
    tale: &mut Tale,
) -> Result<()> {
    let mut ends = Ends::new(alloc, case)?;
    let status = run_front(alloc, case, words, input, site, &mut ends)?;
    let printed = ends.sink.inner.held();
    tell_front(alloc, input.len(), status, printed, input, tale)
}

// Runs the command over each front of the input.
fn fronts(
    alloc: Global,
    case: &Case<'_>,
    words: &Words,
    input: &[u8],
    site: &mut MemorySite,
    tale: &mut Tale,
) -> Result<()> {
    for (count, _) in input.iter().enumerate() {
        front(alloc, case, words, &input[..count], site, tale)?;
    }
    Ok(())
}

/// Runs the command of the line `tool` over each front of the input, from nothing on and without the whole, and tells those where the
/// answer is not that the input is cut off at its end: how long the front is, and what is told.
pub fn play_fronts(alloc: Global, case: &Case<'_>, tale: &mut Tale) -> Result<()> {
    let input = case.bytes(alloc, "input")?;
    let words = case.words_of(alloc, "tool")?;
    let mut site = site(alloc, case, Cut::Of(65_536))?;
    fronts(alloc, case, &words, &input, &mut site, tale)
}
