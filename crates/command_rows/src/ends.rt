//! What stands around the commands of a row.
ghost use Rattle.std.specs.Prelude.{◌<◌, IfOk};

use anyhow::{Result, bail};
use sm_ends::{Calls, MemorySink, MemoryTracks, ShortSink};
use sm_fetch::{Answers, Given, MemoryDial};
use sm_model::Bytes;
use sm_rows::{Case, Line};
use std::alloc::Global;

/// Where a command prints, whom it asks and where it plays to.
#[derive(Drop)]
pub struct Ends {
    pub sink: ShortSink<MemorySink>,
    pub dial: MemoryDial,
    pub tracks: MemoryTracks,
}

/// The numbers of the calls that fail, which the first line with this key says, if there is one.
pub fn failing(alloc: Global, case: &Case<'_>, key: &str) -> Result<Calls> {
    let mut calls = Vec::new(alloc);
    if case.has(key) {
        let words = case.words_of(alloc, key)?;
        for at in 0..words.len() {
            calls.push(words.number(at)?)?;
        }
    }
    Ok(Calls::from_vec(calls))
}

/// How many bytes a call moves at most: the number of the line `most`, if there is one.
pub fn most(alloc: Global, case: &Case<'_>) -> Result<usize>
    ensures { IfOk result (λ most. 0 < most) }
{
    if !case.has("most") {
        return Ok(usize::MAX);
    }
    let most = usize::try_from(case.number(alloc, "most")?)?;
    if most == 0 {
        bail!("a call moves nothing");
    }
    Ok(most)
}

/// These bytes as the one answer of an origin.
pub fn one(alloc: Global, bytes: Bytes) -> Result<Answers> {
    Ok(Answers::from_vec(vec![in alloc; Given::Bytes(bytes)]?))
}

// The answer that a line says, if it says one.
fn given(alloc: Global, case: &Case<'_>, line: &Line) -> Result<Option<Given>> {
    match line.key() {
        "answers" => {
            let words = case.words(alloc, line)?;
            let bytes = words.bytes(alloc, 0)?;
            Ok(Some(Given::Bytes(Bytes::from_vec(bytes))))
        }
        "loses" => Ok(Some(Given::Lost)),
        _ => Ok(None),
    }
}

// Adds the answer that a line says, if it says one.
fn add(alloc: Global, case: &Case<'_>, line: &Line, answers: &mut Vec<Given>) -> Result<()> {
    if let Some(given) = given(alloc, case, line)? {
        answers.push(given)?;
    }
    Ok(())
}

/// What an origin answers: the bytes of each line `answers`, or nothing for each line `loses`.
pub fn answers(alloc: Global, case: &Case<'_>) -> Result<Answers> {
    let mut answers = Vec::new(alloc);
    for line in case.lines() {
        add(alloc, case, line, &mut answers)?;
    }
    Ok(Answers::from_vec(answers))
}

// What is printed to: `fails-writes` numbers the writes that fail.
fn sink(alloc: Global, case: &Case<'_>) -> Result<ShortSink<MemorySink>> {
    let most = most(alloc, case)?;
    let failing = failing(alloc, case, "fails-writes")?;
    let inner = MemorySink::new(alloc, failing);
    Ok(ShortSink { inner, most })
}

impl Ends {
    /// The ends of a row, new: `fails-writes` and `fails-tracks` number the calls that fail.
    pub fn new(alloc: Global, case: &Case<'_>) -> Result<Ends> {
        let sink = sink(alloc, case)?;
        let answers = answers(alloc, case)?;
        let failing = failing(alloc, case, "fails-tracks")?;
        Ok(Ends {
            sink,
            dial: MemoryDial::new(alloc, answers),
            tracks: MemoryTracks::new(alloc, failing),
        })
    }
}
