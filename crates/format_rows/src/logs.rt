//! Calls of `sm_log`.
use crate::catalogs::{place, spans, verdict};
use crate::told;
use anyhow::{Result, bail};
use sm_log::plain;
use sm_model::{Bytes, Entry, Fragment, Name, Sample, Samples};
use sm_rows::values::channel_of;
use sm_rows::{Case, Line, Words};
use std::alloc::Global;

// One sample of so many bytes.
fn samples(alloc: Global, len: u32) -> Result<Samples> {
    let bytes = Bytes::from_vec(vec![in alloc; 65; len as usize]?);
    let sample = Sample {
        duration: 1,
        flags: 0,
        offset: 0,
        bytes,
    };
    let samples = vec![in alloc; sample]?;
    Ok(Samples::from_vec(samples))
}

// A fragment with one sample: stream, bitrate, time and duration, and how many bytes it has, if not one.
fn fragment(alloc: Global, words: &Words) -> Result<Fragment> {
    let len = if words.len() > 4 { words.short(4)? } else { 1 };
    let bitrate = words.short(1)?;
    let time = words.number(2)?;
    let duration = words.number(3)?;
    let stream = Name::read(alloc, words.raw(0)?)?;
    let samples = samples(alloc, len)?;
    Ok(Fragment {
        stream,
        bitrate,
        time,
        duration,
        signed: false,
        samples,
    })
}

fn declared(alloc: Global, case: &Case<'_>) -> Result<Entry> {
    let channel = channel_of(alloc, case)?;
    Ok(Entry::Declare(channel))
}

fn fragment_at(alloc: Global, case: &Case<'_>, line: &Line) -> Result<Fragment> {
    let words = case.words(alloc, line)?;
    fragment(alloc, &words)
}

fn kept(alloc: Global, case: &Case<'_>, line: &Line) -> Result<Entry> {
    let fragment = fragment_at(alloc, case, line)?;
    Ok(Entry::Keep(fragment))
}

// Appends the entry of a line, where it says one.
fn push_entry(alloc: Global, case: &Case<'_>, line: &Line, log: &mut Vec<Entry>) -> Result<()> {
    let entry = match line.key() {
        "declare" => declared(alloc, case)?,
        "keep" => kept(alloc, case, line)?,
        _ => return Ok(()),
    };
    log.push(entry)?;
    Ok(())
}

// The log of a row: the tracks at each line `declare`, and the fragments of the lines `keep`.
fn log_of(alloc: Global, case: &Case<'_>) -> Result<Vec<Entry>> {
    let mut log = Vec::new(alloc);
    for line in case.lines() {
        push_entry(alloc, case, line, &mut log)?;
    }
    Ok(log)
}

fn judged(alloc: Global, log: &[Entry], words: &Words) -> Result<String> {
    let fragment = fragment(alloc, words)?;
    let judged = plain::judge(alloc, log, &fragment)?;
    verdict(alloc, judged)
}

fn sound(alloc: Global, log: &[Entry]) -> Result<String> {
    let sound = plain::is_sound(alloc, log)?;
    Ok(format!(in alloc; "{sound}\n")?)
}

fn listed(alloc: Global, log: &[Entry], words: &Words) -> Result<String> {
    let listed = plain::listed(alloc, log, words.raw(0)?)?;
    spans(alloc, listed.as_slice())
}

fn times(alloc: Global, log: &[Entry], words: &Words) -> Result<String> {
    let times = plain::times(alloc, log, words.raw(0)?)?;
    spans(alloc, times.as_slice())
}

fn ahead(alloc: Global, log: &[Entry], words: &Words) -> Result<String> {
    let stream = words.raw(0)?;
    let time = words.number(1)?;
    let ahead = plain::ahead(alloc, log, stream, time)?;
    spans(alloc, ahead.as_slice())
}

fn kept_at(alloc: Global, log: &[Entry], words: &Words) -> Result<String> {
    let stream = words.raw(0)?;
    let bitrate = words.short(1)?;
    let time = words.number(2)?;
    place(alloc, plain::kept(log, stream, bitrate, time))
}

fn channel(alloc: Global, log: &[Entry]) -> Result<String> {
    let Some(tracks) = plain::channel(log) else {
        return told::text(alloc, "none\n");
    };
    let count = tracks.len();
    Ok(format!(in alloc; "{count} tracks\n")?)
}

fn asked(alloc: Global, log: &[Entry], key: &str, words: &Words) -> Result<String> {
    match key {
        "judge" => judged(alloc, log, words),
        "sound" => sound(alloc, log),
        "listed" => listed(alloc, log, words),
        "times" => times(alloc, log, words),
        "ahead" => ahead(alloc, log, words),
        "kept" => kept_at(alloc, log, words),
        "channel" => channel(alloc, log),
        _ => Ok(String::new(alloc)),
    }
}

// The first entry that is asked about, and the first one that is not.
fn entries_of(words: &Words) -> Result<(usize, usize)> {
    let first = usize::try_from(words.number(0)?)?;
    let end = usize::try_from(words.number(1)?)?;
    Ok((first, end))
}

fn push_asked(
    alloc: Global,
    log: Option<&[Entry]>,
    key: &str,
    words: &Words,
    out: &mut String,
) -> Result<()> {
    let Some(log) = log else {
        bail!("there are no such entries");
    };
    let text = asked(alloc, log, key, words)?;
    out.push_str(text.as_str())?;
    Ok(())
}

fn steps_of(alloc: Global, case: &Case<'_>, log: &[Entry]) -> Result<String> {
    let mut first = 0usize;
    let mut end = log.len();
    let mut out = String::new(alloc);
    for line in case.lines() {
        let key = line.key();
        if !key.starts_with("gives") {
            let words = case.words(alloc, line)?;
            if key == "entries" {
                (first, end) = entries_of(&words)?;
            } else {
                push_asked(alloc, log.get(first..end), key, &words, &mut out)?;
            }
        }
    }
    Ok(out)
}

// What is asked of a log, or of its entries from one number to another.
fn steps(alloc: Global, case: &Case<'_>) -> Result<String> {
    let log = log_of(alloc, case)?;
    steps_of(alloc, case, log.as_slice())
}

fn fragments(alloc: Global, case: &Case<'_>) -> Result<Vec<Fragment>> {
    let mut kept = Vec::new(alloc);
    for line in case.lines() {
        if line.key() == "keep" {
            let fragment = fragment_at(alloc, case, line)?;
            kept.push(fragment)?;
        }
    }
    Ok(kept)
}

// How many of the fragments of a row are in a window.
fn window(alloc: Global, case: &Case<'_>) -> Result<String> {
    let kept = fragments(alloc, case)?;
    let count = plain::window(kept.as_slice()).len();
    Ok(format!(in alloc; "{count}\n")?)
}

/// What a call of `sm_log` gives.
pub fn answer(alloc: Global, case: &Case<'_>) -> Result<String> {
    match case.call() {
        "sm_log plain" => steps(alloc, case),
        "sm_log plain::window" => window(alloc, case),
        _ => bail!("no such call"),
    }
}
