//! Inputs, outputs and tracks in memory, whose calls fail by number.
use anyhow::{Result, bail};
use sm_ends::{
    Calls, CountedSource, Failed, InputFault, MemorySink, MemorySource, MemoryTracks, ShortSink,
    ShortSource, Source, Tracks, read_input, write_all,
};
use sm_model::Bytes;
use sm_rows::tales::Tale;
use sm_rows::{Case, Words};
use std::alloc::Global;

// The calls that fail.
fn failing(alloc: Global, case: &Case<'_>) -> Result<Calls> {
    let mut calls = Vec::new(alloc);
    if case.has("fails") {
        let words = case.words_of(alloc, "fails")?;
        for at in 0..words.len() {
            calls.push(words.number(at)?)?;
        }
    }
    Ok(Calls::from_vec(calls))
}

fn most(alloc: Global, case: &Case<'_>) -> Result<usize> {
    let most = usize::try_from(case.number(alloc, "most")?)?;
    if most == 0 {
        bail!("a call moves nothing");
    }
    Ok(most)
}

// Reads an input up to a limit, and tells it, or why there is none.
fn read<I: Source>(alloc: Global, source: &mut I, limit: u64) -> Result<Result<Bytes, InputFault>> {
    Ok(read_input(alloc, source, limit))
}

fn tell_input(alloc: Global, read: &Result<Bytes, InputFault>, tale: &mut Tale) -> Result<()> {
    match read {
        Ok(bytes) => tale.text(bytes.as_slice()),
        Err(fault) => tale.say(format!(in alloc; "{fault}")?.as_str()),
    }
}

/// Reads an input of the bytes of `input` by calls that take at most `most` bytes, up to the limit of each line `read`, and tells each
/// input or its fault, what is left then, and how often the source has failed.
pub fn play_input(alloc: Global, case: &Case<'_>) -> Result<String> {
    let bytes = Bytes::from_slice(alloc, case.bytes(alloc, "input")?.as_slice())?;
    let most = most(alloc, case)?;
    if most == 0 {
        bail!("a call moves nothing");
    }
    let mut source = ShortSource {
        inner: MemorySource::new(bytes, failing(alloc, case)?),
        most,
    };
    let mut tale = Tale::new(alloc);
    for line in case.lines() {
        if line.key() == "read" {
            let limit = case.words(alloc, line)?.number(0)?;
            let read = read(alloc, &mut source, limit)?;
            tell_input(alloc, &read, &mut tale)?;
            tale.text(source.inner.left())?;
            tale.count(source.inner.faults())?;
        }
    }
    Ok(tale.into_text())
}

/// Reads an input of `left` equal bytes up to `limit`, and tells how long it is and its last byte, or its fault; and how many bytes are
/// left then.
pub fn play_counted(alloc: Global, case: &Case<'_>) -> Result<String> {
    let mut source = CountedSource {
        byte: b'x',
        left: case.number(alloc, "left")?,
    };
    let mut tale = Tale::new(alloc);
    match read_input(alloc, &mut source, case.number(alloc, "limit")?) {
        Ok(input) => {
            tale.count(input.len())?;
            match input.as_slice().split_last() {
                Some((last, _)) => tale.text(&[*last])?,
                None => tale.say("empty")?,
            }
        }
        Err(fault) => tale.say(format!(in alloc; "{fault}")?.as_str())?,
    }
    tale.count(source.left)?;
    Ok(tale.into_text())
}

/// Writes the bytes of each line `write` by calls that take at most `most` bytes, and tells whether that failed and what is held then;
/// then how often the sink has failed.
pub fn play_output(alloc: Global, case: &Case<'_>) -> Result<String> {
    let most = most(alloc, case)?;
    if most == 0 {
        bail!("a call moves nothing");
    }
    let mut sink = ShortSink {
        inner: MemorySink::new(alloc, failing(alloc, case)?),
        most,
    };
    let mut tale = Tale::new(alloc);
    for line in case.lines() {
        if line.key() == "write" {
            let bytes = case.words(alloc, line)?.bytes(alloc, 0)?;
            match write_all(&mut sink, bytes.as_slice()) {
                Ok(()) => tale.say("written")?,
                Err(Failed) => tale.say("failed")?,
            }
            tale.text(sink.inner.held())?;
        }
    }
    tale.count(sink.inner.faults())?;
    tale.say(if sink.inner.starved() {
        "starved"
    } else {
        "not starved"
    })?;
    Ok(tale.into_text())
}

// Adds to a track, and tells whether that failed and what the track holds then.
fn append(alloc: Global, tracks: &mut MemoryTracks, words: &Words, tale: &mut Tale) -> Result<()> {
    let track = words.short(0)?;
    let bytes = words.bytes(alloc, 1)?;
    match tracks.append(track, bytes.as_slice()) {
        Ok(()) => tale.say("added")?,
        Err(Failed) => tale.say("failed")?,
    }
    tale.text(tracks.held(track))
}

/// Adds the bytes of each line `append N` to that track, and tells what each line `held N` asks for; then how often a call has failed.
pub fn play_tracks(alloc: Global, case: &Case<'_>) -> Result<String> {
    let mut tracks = MemoryTracks::new(alloc, failing(alloc, case)?);
    let mut tale = Tale::new(alloc);
    for line in case.lines() {
        match line.key() {
            "append" => append(alloc, &mut tracks, &case.words(alloc, line)?, &mut tale)?,
            "held" => tale.text(tracks.held(case.words(alloc, line)?.short(0)?))?,
            _ => {}
        }
    }
    tale.count(tracks.faults())?;
    tale.say(if tracks.starved() {
        "starved"
    } else {
        "not starved"
    })?;
    Ok(tale.into_text())
}
