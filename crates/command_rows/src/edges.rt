//! Commands that pull from an origin in memory into a store.
use crate::commands::{run_over, tell};
use crate::ends::Ends;
use crate::places::{name, place};
use crate::worlds::origin;
use anyhow::{Result, bail};
use sm_ends::{Calls, MemorySource};
use sm_fetch::{Pushed, push_body};
use sm_model::Bytes;
use sm_rows::scripts::{Cut, is_quiet, numbers, site};
use sm_rows::tales::Tale;
use sm_rows::{Case, Line, Words, disks};
use sm_site::{Crashing, Disk, Failed, MemorySite};
use sm_world::OriginDial;
use std::alloc::Global;

// The most numbers of writes and syncs behind which a disk is stopped.
const STOPS: u64 = 1_000;

// Pushes a body, all of which has to be taken.
fn push(alloc: Global, dial: &mut OriginDial<MemorySite>, body: &[u8]) -> Result<()> {
    let id = name(alloc, b"a")?;
    let place = place(alloc, b"h", 1, b"live")?;
    match push_body(alloc, dial, &place, &id, body) {
        Pushed::Status { status: 200, .. } => Ok(()),
        _ => bail!("a push wasn't taken"),
    }
}

// Pushes what a line says, if it says a push.
fn push_line(
    alloc: Global,
    case: &Case<'_>,
    line: &Line,
    dial: &mut OriginDial<MemorySite>,
) -> Result<()> {
    if line.key() != "pushes" {
        return Ok(());
    }
    let words = case.words(alloc, line)?;
    let body = words.bytes(alloc, 0)?;
    push(alloc, dial, &body)
}

// Counts exchanges from 1 on: `lost` and `cut` say which of them fail.
fn renumber(alloc: Global, case: &Case<'_>, dial: &mut OriginDial<MemorySite>) -> Result<()> {
    let lost = numbers(alloc, case, "lost")?;
    let cut = numbers(alloc, case, "cut")?;
    dial.renumber(lost, cut);
    Ok(())
}

// Pushes what each line `pushes` says, and counts exchanges from there on.
fn prepare(alloc: Global, case: &Case<'_>, dial: &mut OriginDial<MemorySite>) -> Result<()> {
    for line in case.lines() {
        push_line(alloc, case, line, dial)?;
    }
    renumber(alloc, case, dial)
}

// The bytes of the first file.
fn file(alloc: Global, site: &mut MemorySite) -> Result<Vec<u8>> {
    let Ok(size) = site.size(0) else {
        bail!("no size");
    };
    let mut bytes = vec![in alloc; 0; usize::try_from(size)?]?;
    match site.read_at(0, 0, &mut bytes) {
        Ok(()) => Ok(bytes),
        Err(Failed) => bail!("no bytes"),
    }
}

// The number in the four bytes at a place, of which those count that are there.
fn length_at(bytes: &[u8], place: usize) -> usize {
    let mut length: u32 = 0;
    for byte in bytes.iter().skip(place).take(4) {
        length = (length << 8) | u32::from(*byte);
    }
    length as usize
}

// How many gates of the first file are another value than the origin's, where all other bytes are the same: a crash fills the gate that is being
// opened with its choice, which opens it too. None where the files differ otherwise.
fn filled_gates(ours: &[u8], theirs: &[u8], choice: u8) -> Option<u64> {
    if ours.len() != theirs.len() {
        return None;
    }
    let mut filled: u64 = 0;
    let mut place: usize = 0;
    let mut next_record: usize = 13;
    for (one, other) in ours.iter().zip(theirs) {
        let is_gate = place == 0 || place == next_record;
        if place == next_record {
            let length = length_at(theirs, place.saturating_add(1));
            next_record = place.saturating_add(length.saturating_add(5));
        }
        if one != other {
            if !is_gate || *other != 1 || *one != choice {
                return None;
            }
            filled = filled.saturating_add(1);
        }
        place = place.saturating_add(1);
    }
    Some(filled)
}

// Runs the command of these words over the input of the row, between the two, and gives its status.
fn run(
    alloc: Global,
    case: &Case<'_>,
    words: &Words,
    dial: &mut OriginDial<MemorySite>,
    follower: &mut MemorySite,
    ends: &mut Ends,
) -> Result<u8> {
    let input = case.bytes(alloc, "input")?;
    let mut source = MemorySource::new(Bytes::from_vec(input), Calls::from_vec(Vec::new(alloc)));
    let Ends { sink, tracks, .. } = ends;
    run_over(alloc, words, &mut source, sink, follower, dial, tracks)
}

// Runs the command of these words, and tells what it gives.
fn command(
    alloc: Global,
    case: &Case<'_>,
    words: &Words,
    dial: &mut OriginDial<MemorySite>,
    follower: &mut MemorySite,
    tale: &mut Tale,
) -> Result<()> {
    let mut ends = Ends::new(alloc, case)?;
    let status = run(alloc, case, words, dial, follower, &mut ends)?;
    tell(alloc, status, ends.sink.inner.held(), &[], tale)
}

// Whether a line says what the origin has or is asked in the end, and is no step.
fn is_of_origin(key: &str) -> bool {
    matches!(key, "pushes" | "lost" | "cut" | "equal")
}

// Plays a line, if it is a step. Exchanges are counted from so many on.
fn part(
    alloc: Global,
    case: &Case<'_>,
    line: &Line,
    since: usize,
    dial: &mut OriginDial<MemorySite>,
    follower: &mut MemorySite,
    tale: &mut Tale,
) -> Result<()> {
    if is_quiet(line.key()) || is_of_origin(line.key()) {
        return Ok(());
    }
    let words = case.words(alloc, line)?;
    match line.key() {
        "tool" => command(alloc, case, &words, dial, follower, tale),
        "exchanges" => tale.count(dial.exchanges().len().saturating_sub(since) as u64),
        _ => disks::step(alloc, follower, line, &words, tale),
    }
}

// Plays the steps of a row between the two.
fn parts(
    alloc: Global,
    case: &Case<'_>,
    dial: &mut OriginDial<MemorySite>,
    follower: &mut MemorySite,
    tale: &mut Tale,
) -> Result<()> {
    prepare(alloc, case, dial)?;
    let since = dial.exchanges().len();
    for line in case.lines() {
        part(alloc, case, line, since, dial, follower, tale)?;
    }
    Ok(())
}

// Tells whether the two disks have the same bytes, if the row asks it.
fn tell_equal(
    alloc: Global,
    case: &Case<'_>,
    origin: &mut MemorySite,
    follower: &mut MemorySite,
    tale: &mut Tale,
) -> Result<()> {
    if !case.has("equal") {
        return Ok(());
    }
    let theirs = file(alloc, origin)?;
    let ours = file(alloc, follower)?;
    let equal = theirs == ours;
    tale.say(if equal { "equal" } else { "not equal" })
}

/// Plays the steps of a row between an origin in memory and the store of another site: `tool` and words are a command over both, all
/// other steps are on the site; `exchanges` asks how many were made. `equal` asks in the end whether the two disks have the same bytes.
pub fn play(alloc: Global, case: &Case<'_>, tale: &mut Tale) -> Result<()> {
    let mut follower = site(alloc, case, Cut::Of(65_536))?;
    let mut dial = origin(alloc, 0, 0)?;
    parts(alloc, case, &mut dial, &mut follower, tale)?;
    let mut site = dial.into_site();
    tell_equal(alloc, case, &mut site, &mut follower, tale)
}

// Where a disk is stopped: behind so many writes and syncs. A crash follows, by that choice.
#[derive(Clone, Copy)]
struct Stop {
    calls: u64,
    choice: u8,
}

// What a command gave before a stop and behind the crash.
#[derive(Clone, Copy)]
struct Statuses {
    first: u8,
    again: u8,
}

// What a stop led to.
#[derive(Clone, Copy, Debug)]
enum StopEnd {
    // The command ended before it.
    Past,
    // The command was run again, behind a crash that left so many gates filled.
    Here(u64),
}

// Runs a command over a disk that stops, crashes the site, and runs it again, or gives nothing where it ended before the stop.
fn run_twice(
    alloc: Global,
    case: &Case<'_>,
    words: &Words,
    stop: Stop,
    dial: &mut OriginDial<MemorySite>,
    follower: &mut MemorySite,
    ends: &mut Ends,
) -> Result<Option<Statuses>> {
    follower.stop_after(stop.calls);
    let first = run(alloc, case, words, dial, follower, ends)?;
    if first == 0 {
        return Ok(None);
    }
    follower.crash_here(stop.choice);
    let again = run(alloc, case, words, dial, follower, ends)?;
    Ok(Some(Statuses { first, again }))
}

// Runs a command twice, from new ends on.
fn try_over(
    alloc: Global,
    case: &Case<'_>,
    words: &Words,
    stop: Stop,
    dial: &mut OriginDial<MemorySite>,
    follower: &mut MemorySite,
) -> Result<Option<Statuses>> {
    prepare(alloc, case, dial)?;
    let mut ends = Ends::new(alloc, case)?;
    run_twice(alloc, case, words, stop, dial, follower, &mut ends)
}

// Tells a stop.
fn tell_stop(
    alloc: Global,
    stop: Stop,
    statuses: Statuses,
    filled: Option<u64>,
    tale: &mut Tale,
) -> Result<()> {
    let Stop { calls, choice } = stop;
    let Statuses { first, again } = statuses;
    let line = format!(in alloc; "stop {calls} choice {choice}: {first}, {again}, {filled:?}")?;
    tale.say(line.as_str())
}

// How many gates the crash has filled, or nothing where the disk isn't the origin's otherwise.
fn gates(
    alloc: Global,
    choice: u8,
    origin: &mut MemorySite,
    follower: &mut MemorySite,
) -> Result<Option<u64>> {
    let theirs = file(alloc, origin)?;
    let ours = file(alloc, follower)?;
    Ok(filled_gates(&ours, &theirs, choice))
}

// What a stop led to. Tells it where the first run wasn't status 5, or the other one wasn't 0 or left a disk that isn't the origin's, but for
// gates that the crash has filled.
fn end_of_stop(
    alloc: Global,
    stop: Stop,
    statuses: Statuses,
    origin: &mut MemorySite,
    follower: &mut MemorySite,
    tale: &mut Tale,
) -> Result<StopEnd> {
    let filled = gates(alloc, stop.choice, origin, follower)?;
    if statuses.first != 5 || statuses.again != 0 || filled.is_none() {
        tell_stop(alloc, stop, statuses, filled, tale)?;
    }
    Ok(StopEnd::Here(filled.unwrap_or(0)))
}

// Tries a stop between an origin and a site, both new.
fn try_stop(
    alloc: Global,
    case: &Case<'_>,
    words: &Words,
    stop: Stop,
    tale: &mut Tale,
) -> Result<StopEnd> {
    let mut follower = site(alloc, case, Cut::Of(65_536))?;
    let mut dial = origin(alloc, 0, 0)?;
    let tried = try_over(alloc, case, words, stop, &mut dial, &mut follower)?;
    let mut site = dial.into_site();
    match tried {
        Some(statuses) => end_of_stop(alloc, stop, statuses, &mut site, &mut follower, tale),
        None => Ok(StopEnd::Past),
    }
}

// Tries each stop by a choice, from behind so many writes and syncs on, and tells how many stops there were and how many gates were filled.
fn try_choice(
    alloc: Global,
    case: &Case<'_>,
    words: &Words,
    behind: u64,
    choice: u8,
    tale: &mut Tale,
) -> Result<()> {
    let mut count = 0;
    let mut filled: u64 = 0;
    for at in 0..STOPS {
        let calls = behind.saturating_add(at);
        match try_stop(alloc, case, words, Stop { calls, choice }, tale)? {
            StopEnd::Past => break,
            StopEnd::Here(gates) => {
                count = at + 1;
                filled = filled.saturating_add(gates);
            }
        }
    }
    tale.count(count)?;
    tale.count(filled)
}

/// Runs the command of the line `tool` with a disk that stops behind each number of writes and syncs, from that of the line `behind` on, until
/// it doesn't come to the stop; crashes the site by each choice of the line `choices`, and runs the command again. Tells how many stops
/// there were for each choice, and how many gates the crashes have left filled.
pub fn play_stops(alloc: Global, case: &Case<'_>, tale: &mut Tale) -> Result<()> {
    let words = case.words_of(alloc, "tool")?;
    let choices = case.words_of(alloc, "choices")?;
    let behind = case.number(alloc, "behind")?;
    for at in 0..choices.len() {
        let choice = u8::try_from(choices.number(at)?)?;
        try_choice(alloc, case, &words, behind, choice, tale)?;
    }
    Ok(())
}
