//! What serving beside players came to, as an answer.
ghost use Rattle.std.specs.Prelude.{◌≡◌, ℕ, List, IfOk, OnErr};
ghost use Rattle.sm_serve.specs.declared.outcome.Served.TheVariants as served;
ghost use Rattle.sm_tool.specs.declared.answer.Answer.TheVariants.{Found};
ghost use Rattle.sm_run.specs.Telling.{TellsShown, TellsUnshown, answer_of, shown_line};

use crate::fault::ShowFault;
use crate::showing::Ended;
use sm_model::{Bytes, NoMemory};
use sm_players::{Finished, SpawnError};
use sm_serve::Served;
use sm_tool::{Answer, or_starved, refused};
use std::alloc::Global;

fn shown_line(alloc: Global, turns: u64, behind: u64) -> Result<Bytes, NoMemory>
    ensures { IfOk result (λ line. line ≡ shown_line turns behind) }
{
    let line = format!(in alloc; "turns {turns} behind {behind}\n")?;
    Ok(Bytes::from_vec(line.into_bytes()))
}

// How a loop ended that took so many events, and its players.
#[tactic(auto, using(crate::proofs::Ending::found_at))]
fn done(
    alloc: Global,
    turns: u64,
    behind: u64,
    short: u64,
    finished: Finished,
) -> Result<Answer, NoMemory>
    ensures ok { IfOk result (λ answer. answer ≡ answer_of (served.Done turns behind short) finished) }
    ensures err { OnErr result ((line : List ℕ) × (answer_of (served.Done turns behind short) finished ≡ Found line)) }
{
    if finished.faulted != 0 {
        return Ok(Answer::LinkFault);
    }
    if finished.starved != 0 || short != 0 {
        return Ok(Answer::Starved);
    }
    let line = shown_line(alloc, turns, behind)?;
    Ok(Answer::Found(line))
}

// How the loop and its players ended.
fn answer_of(alloc: Global, served: Served, finished: Finished) -> Result<Answer, NoMemory>
    ensures ok { IfOk result (λ answer. answer ≡ answer_of served finished) }
    ensures err { OnErr result ((line : List ℕ) × (answer_of served finished ≡ Found line)) }
{
    match served {
        Served::Done {
            turns,
            behind,
            short,
        } => done(alloc, turns, behind, short, finished),
        Served::LinkFault => Ok(Answer::LinkFault),
        Served::NoMemory => Ok(Answer::Starved),
    }
}

/// How the loop and its players ended; without memory for its line that alone is told.
pub fn ended(alloc: Global, end: Ended) -> Answer
    ensures { TellsShown end.served end.finished result }
{
    or_starved(answer_of(alloc, end.served, end.finished))
}

/// Why no event was waited for; without memory for its line that alone is told.
pub fn unshown(alloc: Global, fault: ShowFault) -> Answer
    ensures { TellsUnshown fault result }
{
    match fault {
        ShowFault::Store(why) => or_starved(refused(alloc, why)),
        ShowFault::Spawn(SpawnError::Failed) => Answer::LinkFault,
        ShowFault::Spawn(SpawnError::NoMemory) => Answer::Starved,
    }
}
