//! How values are told that several crates give.
use anyhow::{Result, bail};
use sm_model::{Cause, Defaults, RawFragment, ReadFault, Row, Run};
use sm_rows::values::tell_samples;
use sm_rows::{Case, Words};
use std::alloc::Global;

/// A text of its own.
pub fn text(alloc: Global, text: &str) -> Result<String> {
    Ok(String::from_str(alloc, text)?)
}

/// A word and a number, in a line.
pub fn numbered(alloc: Global, word: &str, number: u64) -> Result<String> {
    Ok(format!(in alloc; "{word} {number}\n")?)
}

/// Why boxes or a head are not read: the number and the name of the cause.
pub fn fault(alloc: Global, fault: &ReadFault) -> Result<String> {
    match fault {
        ReadFault::Refused(cause) => refused(alloc, cause),
        ReadFault::NoMemory => bail!("no memory"),
    }
}

/// The number and the name of a cause.
pub fn refused(alloc: Global, cause: &Cause) -> Result<String> {
    let number = cause.number();
    let name = cause.name();
    Ok(format!(in alloc; "{number} {name}")?)
}

/// The word that says whether offsets are signed.
pub fn signed(is_signed: bool) -> &'static str {
    if is_signed { "signed" } else { "unsigned" }
}

fn push_pair(alloc: Global, out: &mut String, time: u64, duration: u64) -> Result<()> {
    let line = format!(in alloc; "ahead {time} {duration}\n")?;
    out.push_str(line.as_str())?;
    Ok(())
}

/// A line for each pair.
pub fn pairs(alloc: Global, pairs: &[(u64, u64)]) -> Result<String> {
    let mut all = String::new(alloc);
    for (time, duration) in pairs {
        push_pair(alloc, &mut all, *time, *duration)?;
    }
    Ok(all)
}

fn push_row(alloc: Global, out: &mut String, row: &Row) -> Result<()> {
    let duration = row.duration;
    let size = row.size;
    let flags = row.flags;
    let offset = row.offset;
    let line = format!(in alloc; "row {duration} {size} {flags} {offset}\n")?;
    out.push_str(line.as_str())?;
    Ok(())
}

fn rows(alloc: Global, rows: &[Row]) -> Result<String> {
    let mut all = String::new(alloc);
    for one in rows {
        push_row(alloc, &mut all, one)?;
    }
    Ok(all)
}

// Where the samples of a run start, behind a space, where it says so.
fn start(alloc: Global, start: Option<i64>) -> Result<String> {
    match start {
        Some(start) => Ok(format!(in alloc; " start {start}")?),
        None => Ok(String::new(alloc)),
    }
}

/// A run: track_ID, time, duration, whether its offsets are signed and where its samples start; then its rows and pairs.
pub fn run(alloc: Global, run: &Run) -> Result<String> {
    let id = run.id;
    let time = run.time;
    let duration = run.duration;
    let signed = signed(run.signed);
    let start = start(alloc, run.start)?;
    let rows = rows(alloc, run.samples.as_slice())?;
    let ahead = pairs(alloc, run.ahead.as_slice())?;
    Ok(format!(in alloc; "run {id} {time} {duration} {signed}{start}\n{rows}{ahead}")?)
}

/// A fragment of a track_ID: that, its time, duration and whether its offsets are signed; then its samples and pairs.
pub fn raw(alloc: Global, raw: &RawFragment) -> Result<String> {
    let id = raw.id;
    let time = raw.time;
    let duration = raw.duration;
    let signed = signed(raw.signed);
    let samples = tell_samples(alloc, &raw.samples)?;
    let ahead = pairs(alloc, raw.ahead.as_slice())?;
    Ok(format!(in alloc; "fragment of {id} {time} {duration} {signed}\n{samples}{ahead}")?)
}

fn defaults_at(words: &Words) -> Result<Defaults> {
    let duration = words.short(0)?;
    let size = words.short(1)?;
    let flags = words.short(2)?;
    Ok(Defaults {
        duration,
        size,
        flags,
    })
}

/// The defaults that a row says, or zeros.
pub fn defaults(alloc: Global, case: &Case<'_>) -> Result<Defaults> {
    if !case.has("defaults") {
        return Ok(sm_model::NO_DEFAULTS);
    }
    let words = case.words_of(alloc, "defaults")?;
    defaults_at(&words)
}

// Appends a pair as often as its words say.
fn push_pairs(pairs: &mut Vec<(u64, u64)>, words: &Words) -> Result<()> {
    let time = words.number(0)?;
    let duration = words.number(1)?;
    let times = if words.len() > 2 { words.number(2)? } else { 1 };
    for _ in 0..times {
        pairs.push((time, duration))?;
    }
    Ok(())
}

/// The pairs of a row: its lines `pair`, each with a time, a duration, and how often it stands if not once.
pub fn pairs_of(alloc: Global, case: &Case<'_>) -> Result<Vec<(u64, u64)>> {
    let mut pairs = Vec::new(alloc);
    for line in case.lines() {
        if line.key() == "pair" {
            let words = case.words(alloc, line)?;
            push_pairs(&mut pairs, &words)?;
        }
    }
    Ok(pairs)
}
