//! Plays of an origin behind which a rehearsal is.
ghost use Rattle.std.specs.Prelude.{◌≡◌, ◌<◌, ◌≤◌, ◌^◌, IfOk, length};

use crate::places::{name, place};
use anyhow::{Result, bail};
use sm_client::{End, Names, Plan, Report, play as play_at};
use sm_ends::{Calls, MemoryTracks};
use sm_fetch::{Answer, Exchange};
use sm_policy::{Fixed, Policy};
use sm_rows::Case;
use sm_rows::tales::Tale;
use sm_site::{MemorySite, Numbers};
use sm_world::{OriginDial, Rehearsal, rehearse};
use std::alloc::Global;

// The stream of the pictures.
fn streams(alloc: Global) -> Result<Names>
    ensures { IfOk result (λ names. length names ≡ 1) }
{
    let name = name(alloc, b"video")?;
    Ok(Names::from_vec(vec![in alloc; name]?))
}

// So many fragments of the pictures, from the first that is listed.
fn plan(alloc: Global, count: u32) -> Result<Plan>
    ensures streams { IfOk result (λ p. length p.streams ≡ 1) }
    ensures numbers { IfOk result (λ p. (p.count ≡ count) × (p.tries ≡ 1) × (p.refresh ≡ 1)) }
{
    let place = place(alloc, b"h", 1, b"p")?;
    let streams = streams(alloc)?;
    Ok(Plan {
        place,
        streams,
        from: None,
        count: u64::from(count),
        tries: 1,
        refresh: 1,
    })
}

// The head of a reply with the blank line behind it, or all of it where there is none.
fn head(reply: &[u8]) -> &[u8] {
    let end = reply
        .windows(4)
        .position(|part| part == b"\r\n\r\n".as_slice());
    match end {
        Some(at) => reply.get(..at).unwrap_or(reply),
        None => reply,
    }
}

/// No exchange, and no call.
pub fn no_numbers(alloc: Global) -> Numbers {
    Numbers::from_vec(Vec::new(alloc))
}

// Holds the rehearsal of that number and size.
fn rehearsed(alloc: Global, number: u64, size: u64) -> Result<Rehearsal>
    requires number { number < 2 ^ 31 }
    requires size { size ≤ 2000 }
{
    let first: Box<dyn Policy> = Box::new(alloc, Fixed::new(0))?;
    let second: Box<dyn Policy> = Box::new(alloc, Fixed::new(0))?;
    let third: Box<dyn Policy> = Box::new(alloc, Fixed::new(0))?;
    let policies = vec![in alloc; first, second, third]?;
    Ok(rehearse(alloc, number, size, policies)?)
}

/// The origin of a rehearsal of that number and size, at which nothing is lost and nothing fails any more.
pub fn origin(alloc: Global, number: u64, size: u64) -> Result<OriginDial<MemorySite>> {
    if number > 2_147_483_647 || size > 2_000 {
        bail!("no world");
    }
    let Rehearsal { mut dial, .. } = rehearsed(alloc, number, size)?;
    dial.renumber(no_numbers(alloc), no_numbers(alloc));
    Ok(dial)
}

// Plays a plan at the origin of a rehearsal by the policy that takes the lowest quality.
fn play_plan(
    alloc: Global,
    dial: &mut OriginDial<MemorySite>,
    tracks: &mut MemoryTracks,
    plan: &Plan,
) -> Result<Report>
    requires streams { length plan.now.streams ≡ 1 }
    requires count { plan.now.count < 2 ^ 32 }
    requires tries { 0 < plan.now.tries }
    requires refresh { 0 < plan.now.refresh }
{
    let lowest: Box<dyn Policy> = Box::new(alloc, Fixed::new(0))?;
    let policies = vec![in alloc; lowest]?;
    Ok(play_at(alloc, dial, tracks, policies, plan))
}

// Plays so many fragments at the origin of a rehearsal.
fn played(alloc: Global, count: u32, dial: &mut OriginDial<MemorySite>) -> Result<Report> {
    let mut tracks = MemoryTracks::new(alloc, Calls::from_vec(Vec::new(alloc)));
    let plan = plan(alloc, count)?;
    play_plan(alloc, dial, &mut tracks, &plan)
}

// Tells how a play ended, and how many fragments were played.
fn tell(report: &Report, tale: &mut Tale) -> Result<()> {
    tale.say(if matches!(report.end, End::Done) {
        "done"
    } else {
        "not done"
    })?;
    tale.count(report.played)
}

// Tells the head of the reply of an exchange.
fn tell_head(answer: &Answer, tale: &mut Tale) -> Result<()> {
    match answer {
        Answer::Bytes(bytes) => tale.text(head(bytes.as_slice())),
        Answer::Lost | Answer::NoMemory => tale.say("none"),
    }
}

// Tells how many exchanges were made, and the head of each reply behind the first.
fn tell_exchanges(made: &[Exchange], tale: &mut Tale) -> Result<()> {
    tale.count(made.len() as u64)?;
    for exchange in made.iter().skip(1) {
        tell_head(&exchange.answer, tale)?;
    }
    Ok(())
}

// Plays so many fragments at the origin of a rehearsal, and tells what came of it.
fn play_at_origin(
    alloc: Global,
    count: u32,
    dial: &mut OriginDial<MemorySite>,
    tale: &mut Tale,
) -> Result<()> {
    let before = dial.exchanges().len();
    let report = played(alloc, count, dial)?;
    tell(&report, tale)?;
    let made = dial.exchanges().get(before..).unwrap_or(&[]);
    tell_exchanges(made, tale)
}

fn count_of(alloc: Global, case: &Case<'_>) -> Result<u32> {
    let words = case.words_of(alloc, "count")?;
    Ok(words.short(0)?)
}

// The origin of the line `world`.
fn origin_of(alloc: Global, case: &Case<'_>) -> Result<OriginDial<MemorySite>> {
    let words = case.words_of(alloc, "world")?;
    let (number, size) = (words.number(0)?, words.number(1)?);
    origin(alloc, number, size)
}

/// Rehearses the world of the line `world`, a number and a size, and then plays as many fragments as `count` says; tells how many were
/// played, how many exchanges that took, and the head of each reply behind the first, which is the manifest.
pub fn play(alloc: Global, case: &Case<'_>, tale: &mut Tale) -> Result<()> {
    let count = count_of(alloc, case)?;
    let mut dial = origin_of(alloc, case)?;
    play_at_origin(alloc, count, &mut dial, tale)
}
