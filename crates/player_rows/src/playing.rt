//! Players over wires in memory.

use crate::counting::CountingLink;
use crate::meeting::Meeting;
use crate::publishing::publish;
use anyhow::{Result, bail};
use sm_players::{Crew, NoForward, NoGate, Played, PlayerHandle, Spawner, Stop, player};
use sm_rows::scripts::{Cut, is_quiet, site};
use sm_rows::tales::Tale;
use sm_rows::{Case, Line, disks};
use sm_shelf::{Readers, ShelfReader, ShelfWriter, make};
use sm_site::MemorySite;
use std::alloc::Global;
use std::sync::atomic::{AtomicBool, AtomicU64, Ordering};
use std::sync::{Arc, Wait};
use std::thread::Threads;

// Far more turns than a row has events.
const TURNS: u64 = 1_000;

fn one(readers: Readers) -> Result<ShelfReader> {
    match readers.into_vec().pop() {
        Some(reader) => Ok(reader),
        None => bail!("no reader"),
    }
}

// Lets the loop publish what the row says that comes.
fn publish_row<R: Wait>(
    rt: &R,
    alloc: Global,
    case: &Case<'_>,
    writer: &mut ShelfWriter,
) -> Result<()> {
    let mut loop_site = site(alloc, case, Cut::Of(65_536))?;
    publish(rt, alloc, &mut loop_site, writer)
}

// Lets a player whose forward fails each time deal with what comes over its wire.
fn play_over(alloc: Global, wire: &mut MemorySite, reader: &mut ShelfReader) -> Played {
    player(
        alloc,
        wire,
        &mut NoForward::new(),
        &mut NoGate,
        reader,
        TURNS,
    )
}

// Tells how a player ended.
fn tell(alloc: Global, played: &Played, tale: &mut Tale) -> Result<()> {
    match played {
        Played::Done { answered } => tale.say(format!(in alloc; "answered {answered}")?.as_str()),
        Played::LinkFault => tale.say("link fault"),
        Played::NoMemory => tale.say("out of memory"),
    }
}

// Makes the step of a line on the wire, if it is one.
fn step(
    alloc: Global,
    case: &Case<'_>,
    wire: &mut MemorySite,
    line: &Line,
    tale: &mut Tale,
) -> Result<()> {
    if is_quiet(line.key()) {
        return Ok(());
    }
    let words = case.words(alloc, line)?;
    disks::step(alloc, wire, line, &words, tale)
}

// Tells how the player ended, and what the steps of the row ask of its wire.
fn tell_row(
    alloc: Global,
    case: &Case<'_>,
    wire: &mut MemorySite,
    played: &Played,
    tale: &mut Tale,
) -> Result<()> {
    tell(alloc, played, tale)?;
    for line in case.lines() {
        step(alloc, case, wire, line, tale)?;
    }
    Ok(())
}

// Lets a player deal with what the row says.
fn play_row(
    alloc: Global,
    case: &Case<'_>,
    reader: &mut ShelfReader,
    tale: &mut Tale,
) -> Result<()> {
    let mut wire = site(alloc, case, Cut::InTurn)?;
    let played = play_over(alloc, &mut wire, reader);
    tell_row(alloc, case, &mut wire, &played, tale)
}

// Lets a player deal with what the row says, behind what the loop has published of the same.
fn behind_loop<R: Wait>(
    rt: &R,
    alloc: Global,
    case: &Case<'_>,
    writer: &mut ShelfWriter,
    readers: Readers,
    tale: &mut Tale,
) -> Result<()> {
    let mut reader = one(readers)?;
    publish_row(rt, alloc, case, writer)?;
    play_row(alloc, case, &mut reader, tale)
}

/// One player, whose forward fails each time.
pub fn play<R: Threads + Wait>(
    rt: &R,
    alloc: Global,
    case: &Case<'_>,
    tale: &mut Tale,
) -> Result<()> {
    let (mut writer, readers) = make(rt, alloc, 1)?;
    let played = behind_loop(rt, alloc, case, &mut writer, readers, tale);
    writer.end(rt);
    played
}

type Two<R> = Crew<R, CountingLink<MemorySite>, NoForward, Meeting>;

// What two players share: a flag of each, whether one waited in vain, and how many sent the reply.
#[derive(Drop)]
struct Shared {
    first: Arc<AtomicBool>,
    second: Arc<AtomicBool>,
    missed: Arc<AtomicBool>,
    count: Arc<AtomicU64>,
}

impl Shared {
    fn new(alloc: Global) -> Result<Shared> {
        Ok(Shared {
            first: Arc::new(alloc, AtomicBool::new(false))?,
            second: Arc::new(alloc, AtomicBool::new(false))?,
            missed: Arc::new(alloc, AtomicBool::new(false))?,
            count: Arc::new(alloc, AtomicU64::new(0))?,
        })
    }

    // The gate of a player that raises one flag and waits for the other.
    fn gate(&self, mine: &Arc<AtomicBool>, other: &Arc<AtomicBool>) -> Result<Meeting> {
        Ok(Meeting {
            mine: Arc::try_clone(mine)?,
            other: Arc::try_clone(other)?,
            missed: Arc::try_clone(&self.missed)?,
        })
    }

    // The wire of a player.
    fn wire(&self, alloc: Global, case: &Case<'_>) -> Result<CountingLink<MemorySite>> {
        let reply = case.bytes(alloc, "reply")?;
        let count = Arc::try_clone(&self.count)?;
        let link = site(alloc, case, Cut::Of(65_536))?;
        Ok(CountingLink { link, reply, count })
    }
}

// Adds a player with this gate.
fn add<R: Threads + Drop>(
    alloc: Global,
    case: &Case<'_>,
    crew: &mut Two<R>,
    shared: &Shared,
    gate: Meeting,
) -> Result<()> {
    let wire = shared.wire(alloc, case)?;
    Ok(crew.add(wire, NoForward::new(), gate)?)
}

// Adds the two players.
fn add_both<R: Threads + Drop>(
    alloc: Global,
    case: &Case<'_>,
    crew: &mut Two<R>,
    shared: &Shared,
) -> Result<()> {
    let first = shared.gate(&shared.first, &shared.second)?;
    add(alloc, case, crew, shared, first)?;
    let second = shared.gate(&shared.second, &shared.first)?;
    add(alloc, case, crew, shared, second)
}

// The players that run.
type Running = Vec<PlayerHandle<CountingLink<MemorySite>, NoForward>>;

// Starts a player for each reader, and answers how many were refused.
fn start<R: Threads + Drop>(crew: &mut Two<R>, readers: Readers, running: &mut Running) -> u32 {
    let mut refused = 0u32;
    for reader in readers.into_vec() {
        let runs = match crew.start(reader) {
            Ok(handle) => running.push(handle).is_ok(),
            Err(_) => false,
        };
        if !runs {
            refused = refused.saturating_add(1);
        }
    }
    refused
}

// Tells how many players are done and were refused, how many sent the reply, and whether one waited in vain.
fn tell_met(
    alloc: Global,
    done: u32,
    refused: u32,
    shared: &Shared,
    tale: &mut Tale,
) -> Result<()> {
    let sent = shared.count.load(Ordering::SeqCst);
    let missed = shared.missed.load(Ordering::SeqCst);
    let line = format!(in alloc; "done {done} refused {refused} sent {sent} missed {missed}")?;
    tale.say(line.as_str())
}

// Starts both players, waits until they have ended, and tells how they did.
fn play_both<R: Threads + Drop>(
    alloc: Global,
    case: &Case<'_>,
    crew: &mut Two<R>,
    readers: Readers,
    tale: &mut Tale,
) -> Result<()> {
    let shared = Shared::new(alloc)?;
    add_both(alloc, case, crew, &shared)?;
    let mut running = Vec::new(alloc);
    let refused = start(crew, readers, &mut running);
    if running.len() > 2 {
        bail!("more than two players run");
    }
    let room = Vec::with_capacity(alloc, running.len())?;
    let finished = crew.finish(running, room);
    tell_met(alloc, finished.done, refused, &shared, tale)
}

// Lets two players meet, behind what the loop has published.
fn meet<R: Threads + Wait + Copy + Drop>(
    rt: &R,
    alloc: Global,
    case: &Case<'_>,
    writer: &mut ShelfWriter,
    readers: Readers,
    tale: &mut Tale,
) -> Result<()> {
    publish_row(rt, alloc, case, writer)?;
    let stop = Stop::new(alloc)?;
    let mut crew = Crew::new(alloc, *rt, stop, TURNS);
    play_both(alloc, case, &mut crew, readers, tale)
}

/// Two players of a crew, which meet before their first answers.
pub fn play_two<R: Threads + Wait + Copy + Drop>(
    rt: &R,
    alloc: Global,
    case: &Case<'_>,
    tale: &mut Tale,
) -> Result<()> {
    let (mut writer, readers) = make(rt, alloc, 2)?;
    let played = meet(rt, alloc, case, &mut writer, readers, tale);
    writer.end(rt);
    played
}
