//! Plays of an origin whose answers lie in memory.
ghost use Rattle.std.specs.Prelude.{◌≤◌, ◌<◌, ◌^◌, ◌-◌, IfOk, length};

use crate::commands::tell_held;
use crate::ends::Ends;
use crate::places::{name, place};
use anyhow::{Result, bail};
use sm_client::{End, Names, Plan, Report, play as play_at};
use sm_fetch::MemoryDial;
use sm_policy::{Fixed, Ladder, Policy, Steps};
use sm_rows::tales::Tale;
use sm_rows::{Case, Line, Words};
use std::alloc::Global;

// A policy that a row may name.
#[derive(Clone, Copy)]
enum Named {
    Steps,
    Ladder,
    Lowest,
}

fn policy_named(name: &str) -> Result<Named> {
    match name {
        "steps" => Ok(Named::Steps),
        "ladder" => Ok(Named::Ladder),
        "lowest" => Ok(Named::Lowest),
        _ => bail!("no policy"),
    }
}

// The policies with these names.
fn policies_named(alloc: Global, words: &Words) -> Result<Vec<Named>> {
    let mut all = Vec::new(alloc);
    for at in 0..words.len() {
        let name = policy_named(words.text(at)?)?;
        all.push(name)?;
    }
    Ok(all)
}

// The policies of the line `policies`, or the one that takes the lowest quality.
fn names_of(alloc: Global, case: &Case<'_>) -> Result<Vec<Named>> {
    if !case.has("policies") {
        return Ok(vec![in alloc; Named::Lowest]?);
    }
    let words = case.words_of(alloc, "policies")?;
    policies_named(alloc, &words)
}

fn streams(alloc: Global, words: &Words) -> Result<Names> {
    let mut names = Vec::new(alloc);
    for at in 0..words.len() {
        let name = name(alloc, words.raw(at)?)?;
        names.push(name)?;
    }
    Ok(Names::from_vec(names))
}

// The streams of a row, at most 16.
fn streams_of(alloc: Global, case: &Case<'_>) -> Result<Names>
    ensures { IfOk result (λ names. length names ≤ 16) }
{
    let words = case.words_of(alloc, "streams")?;
    let streams = streams(alloc, &words)?;
    if streams.len() > 16 {
        bail!("no plan");
    }
    Ok(streams)
}

// The number of the first line with this key.
fn number(alloc: Global, case: &Case<'_>, key: &str) -> Result<u32> {
    let words = case.words_of(alloc, key)?;
    Ok(words.short(0)?)
}

// The tries of a row, at least one.
fn tries_of(alloc: Global, case: &Case<'_>) -> Result<u32>
    ensures { IfOk result (λ tries. 0 < tries) }
{
    let tries = number(alloc, case, "tries")?;
    if tries == 0 {
        bail!("no plan");
    }
    Ok(tries)
}

// The plan of a row: `streams`, `count` and `tries`; three manifests are read for a start.
fn plan(alloc: Global, case: &Case<'_>) -> Result<Plan>
    ensures streams { IfOk result (λ p. length p.streams ≤ 16) }
    ensures count { IfOk result (λ p. p.count ≤ 2 ^ 32 - 1) }
    ensures tries { IfOk result (λ p. 0 < p.tries) }
    ensures refresh { IfOk result (λ p. 0 < p.refresh) }
{
    let count = number(alloc, case, "count")?;
    let tries = tries_of(alloc, case)?;
    let streams = streams_of(alloc, case)?;
    let place = place(alloc, b"h", 80, b"p")?;
    Ok(Plan {
        place,
        streams,
        from: None,
        count: u64::from(count),
        tries,
        refresh: 3,
    })
}

fn tell_end(alloc: Global, end: &End, tale: &mut Tale) -> Result<()> {
    let line = format!(in alloc; "{end:?}")?;
    tale.say(line.as_str())
}

// Tells how a play ended, how many fragments were written, and how many exchanges and pauses it took.
fn tell(alloc: Global, report: &Report, dial: &MemoryDial, tale: &mut Tale) -> Result<()> {
    tell_end(alloc, &report.end, tale)?;
    let (played, exchanges, pauses) = (report.played, dial.exchanges().len(), dial.pauses());
    let line = format!(in alloc; "played {played} exchanges {exchanges} pauses {pauses}")?;
    tale.say(line.as_str())
}

// The first line of a request.
fn first_line(request: &[u8]) -> &[u8] {
    let end = request.iter().position(|byte| *byte == b'\r');
    request
        .get(..end.unwrap_or(request.len()))
        .unwrap_or(request)
}

// Tells the first line of each request.
fn tell_targets(dial: &MemoryDial, tale: &mut Tale) -> Result<()> {
    for made in dial.exchanges() {
        tale.text(first_line(made.request.as_slice()))?;
    }
    Ok(())
}

// Tells what a line asks: `held N`, what that track holds, `track-faults`, how often a track failed, and `targets`, the first line of each
// request.
fn answer(alloc: Global, case: &Case<'_>, line: &Line, ends: &Ends, tale: &mut Tale) -> Result<()> {
    match line.key() {
        "held" => tell_held(alloc, case, line, &ends.tracks, tale),
        "track-faults" => tale.count(ends.tracks.faults()),
        "targets" => tell_targets(&ends.dial, tale),
        _ => Ok(()),
    }
}

// Tells how a play ended and what the row asks.
fn tell_row(
    alloc: Global,
    case: &Case<'_>,
    report: &Report,
    ends: &Ends,
    tale: &mut Tale,
) -> Result<()> {
    tell(alloc, report, &ends.dial, tale)?;
    for line in case.lines() {
        answer(alloc, case, line, ends, tale)?;
    }
    Ok(())
}

// Plays a plan between these ends by the policies with these names.
fn play_by(alloc: Global, names: &[Named], plan: &Plan, ends: &mut Ends) -> Result<Report>
    requires streams { length plan.now.streams ≤ 16 }
    requires count { plan.now.count ≤ 2 ^ 32 - 1 }
    requires tries { 0 < plan.now.tries }
    requires refresh { 0 < plan.now.refresh }
{
    let mut policies: Vec<Box<dyn Policy>> = Vec::new(alloc);
    for name in names {
        let policy: Box<dyn Policy> = match name {
            Named::Steps => Box::new(alloc, Steps::new())?,
            Named::Ladder => Box::new(alloc, Ladder::new())?,
            Named::Lowest => Box::new(alloc, Fixed::new(0))?,
        };
        policies.push(policy)?;
    }
    if policies.is_empty() {
        bail!("no policy");
    }
    let Ends { dial, tracks, .. } = ends;
    Ok(play_at(alloc, dial, tracks, policies, plan))
}

// Plays what a row says between these ends.
fn played(alloc: Global, case: &Case<'_>, ends: &mut Ends) -> Result<Report> {
    let names = names_of(alloc, case)?;
    let plan = plan(alloc, case)?;
    play_by(alloc, &names, &plan, ends)
}

/// Plays what a row says, and tells how that ended and what the row asks.
pub fn play(alloc: Global, case: &Case<'_>, tale: &mut Tale) -> Result<()> {
    let mut ends = Ends::new(alloc, case)?;
    let report = played(alloc, case, &mut ends)?;
    tell_row(alloc, case, &report, &ends, tale)
}
