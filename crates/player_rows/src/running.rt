//! The top call with players that have nothing to do.
ghost use Rattle.std.specs.Prelude.{◌≡◌, length};

use anyhow::Result;
use sm_ends::{Calls, MemorySink, MemorySource, MemoryTracks};
use sm_fetch::{Answers, MemoryDial};
use sm_model::Bytes;
use sm_players::MemorySpawner;
use sm_policy::{Fixed, Ladder, Policy, Steps};
use sm_rows::scripts::{Cut, is_quiet, numbers, site};
use sm_rows::tales::Tale;
use sm_rows::{Case, Line, disks};
use sm_run::run;
use sm_site::MemorySite;
use std::alloc::Global;
use std::sync::Wait;
use std::thread::Threads;

// Where the call reads and prints, whom it asks and where it plays to.
#[derive(Drop)]
struct Ends {
    source: MemorySource,
    sink: MemorySink,
    dial: MemoryDial,
    tracks: MemoryTracks,
}

impl Ends {
    // Ends with this input, at which the writes of these numbers fail.
    fn new(alloc: Global, input: Vec<u8>, failing: Vec<u64>) -> Ends {
        let never = Calls::from_vec(Vec::new(alloc));
        let no_answers = Answers::from_vec(Vec::new(alloc));
        Ends {
            source: MemorySource::new(Bytes::from_vec(input), never),
            sink: MemorySink::new(alloc, Calls::from_vec(failing)),
            dial: MemoryDial::new(alloc, no_answers),
            tracks: MemoryTracks::new(alloc, Calls::from_vec(Vec::new(alloc))),
        }
    }
}

fn words_of(alloc: Global, case: &Case<'_>) -> Result<Vec<String>> {
    let words = case.words_of(alloc, "words")?;
    let mut all = Vec::new(alloc);
    for at in 0..words.len() {
        all.push(String::from_str(alloc, words.text(at)?)?)?;
    }
    Ok(all)
}

// The input of the row, or nothing.
fn input(alloc: Global, case: &Case<'_>) -> Result<Vec<u8>> {
    if case.has("input") {
        return Ok(case.bytes(alloc, "input")?);
    }
    Ok(Vec::new(alloc))
}

// The ends of a row.
fn ends_of(alloc: Global, case: &Case<'_>) -> Result<Ends> {
    let input = input(alloc, case)?;
    let failing = numbers(alloc, case, "fails-writes")?;
    Ok(Ends::new(alloc, input, failing.into_vec()))
}

fn spawner<R: Threads + Copy + Drop>(
    rt: &R,
    alloc: Global,
    case: &Case<'_>,
) -> Result<MemorySpawner<R>> {
    let refused = numbers(alloc, case, "refuses")?;
    Ok(MemorySpawner::new(alloc, *rt, refused)?)
}

// Runs these words between the ends, with three policies, and gives the status.
fn run_over<R: Threads + Wait + Copy + Drop>(
    rt: &R,
    alloc: Global,
    words: &[String],
    ends: &mut Ends,
    site: &mut MemorySite,
    spawner: &mut MemorySpawner<R>,
    policies: Vec<Box<dyn Policy>>,
) -> u8
    requires policies { length policies.items ≡ 3 }
{
    let Ends {
        source,
        sink,
        dial,
        tracks,
    } = ends;
    run(
        rt, alloc, words, source, sink, site, dial, tracks, spawner, policies,
    )
}

// Runs these words between the ends, with the policies of the program, and gives the status.
fn run_by_policies<R: Threads + Wait + Copy + Drop>(
    rt: &R,
    alloc: Global,
    words: &[String],
    ends: &mut Ends,
    site: &mut MemorySite,
    spawner: &mut MemorySpawner<R>,
) -> Result<u8> {
    let steps: Box<dyn Policy> = Box::new(alloc, Steps::new())?;
    let ladder: Box<dyn Policy> = Box::new(alloc, Ladder::new())?;
    let fixed: Box<dyn Policy> = Box::new(alloc, Fixed::new(0))?;
    let policies = vec![in alloc; steps, ladder, fixed]?;
    Ok(run_over(rt, alloc, words, ends, site, spawner, policies))
}

// Runs the words of the row between the ends, and gives the status.
fn status<R: Threads + Wait + Copy + Drop>(
    rt: &R,
    alloc: Global,
    case: &Case<'_>,
    ends: &mut Ends,
    site: &mut MemorySite,
) -> Result<u8> {
    let words = words_of(alloc, case)?;
    let mut spawner = spawner(rt, alloc, case)?;
    run_by_policies(rt, alloc, &words, ends, site, &mut spawner)
}

// Tells the status and what was printed.
fn tell(alloc: Global, status: u8, printed: &[u8], tale: &mut Tale) -> Result<()> {
    match str::from_utf8(printed) {
        Ok(text) => tale.say(format!(in alloc; "{status} {text:?}")?.as_str()),
        Err(_) => tale.say("no text"),
    }
}

// Runs the words of the row, and tells the status and what was printed.
fn run_words<R: Threads + Wait + Copy + Drop>(
    rt: &R,
    alloc: Global,
    case: &Case<'_>,
    site: &mut MemorySite,
    tale: &mut Tale,
) -> Result<()> {
    let mut ends = ends_of(alloc, case)?;
    let status = status(rt, alloc, case, &mut ends, site)?;
    tell(alloc, status, ends.sink.held(), tale)
}

// A step on the site.
fn on_site(
    alloc: Global,
    case: &Case<'_>,
    line: &Line,
    site: &mut MemorySite,
    tale: &mut Tale,
) -> Result<()> {
    let words = case.words(alloc, line)?;
    disks::step(alloc, site, line, &words, tale)
}

fn step<R: Threads + Wait + Copy + Drop>(
    rt: &R,
    alloc: Global,
    case: &Case<'_>,
    line: &Line,
    site: &mut MemorySite,
    tale: &mut Tale,
) -> Result<()> {
    match line.key() {
        "words" => run_words(rt, alloc, case, site, tale),
        key if is_quiet(key) || key == "refuses" => Ok(()),
        _ => on_site(alloc, case, line, site, tale),
    }
}

/// Runs the words of the row over its site, and tells what the steps of the row ask of that.
pub fn play<R: Threads + Wait + Copy + Drop>(
    rt: &R,
    alloc: Global,
    case: &Case<'_>,
    tale: &mut Tale,
) -> Result<()> {
    let mut site = site(alloc, case, Cut::Of(65_536))?;
    for line in case.lines() {
        step(rt, alloc, case, line, &mut site, tale)?;
    }
    Ok(())
}
