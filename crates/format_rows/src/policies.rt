//! Calls of `sm_policy`.
use anyhow::{Result, bail, ensure};
use sm_policy::{Fixed, Heard, Ladder, Outcome, Policy, Steps};
use sm_rows::{Case, Line, Words};
use std::alloc::Global;

fn ladder_of(alloc: Global, words: &Words) -> Result<Vec<u32>> {
    let mut ladder = Vec::new(alloc);
    for at in 1..words.len() {
        let bitrate = words.short(at)?;
        ladder.push(bitrate)?;
    }
    Ok(ladder)
}

// The place that a policy chooses, in a line.
fn choose(alloc: Global, words: &Words, policy: &mut dyn Policy, out: &mut String) -> Result<()> {
    let ahead = words.number(0)?;
    let ladder = ladder_of(alloc, words)?;
    ensure!(ladder.len() > 0, "an empty ladder");
    let level = policy.choose(ladder.as_slice(), ahead);
    let line = format!(in alloc; "{level}\n")?;
    out.push_str(line.as_str())?;
    Ok(())
}

fn retired(alloc: Global, policy: &mut dyn Policy, out: &mut String) -> Result<()> {
    let retired = policy.retired();
    let line = format!(in alloc; "{retired}\n")?;
    out.push_str(line.as_str())?;
    Ok(())
}

// Lets a policy hear an outcome at level 0 so often.
fn hear(policy: &mut dyn Policy, times: u64, outcome: Outcome) {
    for _ in 0..times {
        policy.hear(Heard { level: 0, outcome });
    }
}

// Makes a step of a row: `choose AHEAD LADDER..` answers a place, `retired` a word, and `took N` and `missed N` nothing, since the
// policy hears that so often.
fn step(
    alloc: Global,
    case: &Case<'_>,
    line: &Line,
    policy: &mut dyn Policy,
    out: &mut String,
) -> Result<()> {
    match line.key() {
        "choose" => choose(alloc, &case.words(alloc, line)?, policy, out),
        "retired" => retired(alloc, policy, out),
        "took" => {
            let times = case.words(alloc, line)?.number(0)?;
            hear(policy, times, Outcome::Took { bytes: 202 });
            Ok(())
        }
        "missed" => {
            let times = case.words(alloc, line)?.number(0)?;
            hear(policy, times, Outcome::Missed);
            Ok(())
        }
        _ => Ok(()),
    }
}

// What a policy answers to each line.
fn steps(alloc: Global, case: &Case<'_>, policy: &mut dyn Policy) -> Result<String> {
    let mut out = String::new(alloc);
    for line in case.lines() {
        step(alloc, case, line, policy, &mut out)?;
    }
    Ok(out)
}

fn fixed(alloc: Global, case: &Case<'_>) -> Result<String> {
    let level = usize::try_from(case.number(alloc, "level")?)?;
    steps(alloc, case, &mut Fixed::new(level))
}

/// What a call of `sm_policy` gives.
pub fn answer(alloc: Global, case: &Case<'_>) -> Result<String> {
    match case.call() {
        "sm_policy Fixed" => fixed(alloc, case),
        "sm_policy Ladder" => steps(alloc, case, &mut Ladder::new()),
        "sm_policy Steps" => steps(alloc, case, &mut Steps::new()),
        _ => bail!("no such call"),
    }
}
