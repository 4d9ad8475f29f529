//! Rows that are commands on one site in memory, one after another.
//!
//! `tool` and words are a command; lines behind it ask what it left. All other steps are on the site itself.
use crate::commands;
use anyhow::Result;
use sm_rows::scripts::{Cut, is_quiet, site};
use sm_rows::tales::Tale;
use sm_rows::{Case, Line, Words, disks};
use sm_site::MemorySite;
use std::alloc::Global;

// How many of these lines ask what a command left.
fn questions(lines: &[Line]) -> usize {
    let end = lines
        .iter()
        .position(|line| !commands::is_question(line.key()));
    end.unwrap_or(lines.len())
}

// Runs the command of these words, with the questions behind it, and answers how many those are.
fn command(
    alloc: Global,
    case: &Case<'_>,
    site: &mut MemorySite,
    words: &Words,
    behind: &[Line],
    tale: &mut Tale,
) -> Result<usize> {
    let count = questions(behind);
    if let Some((asked, _)) = behind.split_at_checked(count) {
        commands::play(alloc, case, site, words, asked, tale)?;
    }
    Ok(count)
}

// Plays a line, with the questions behind it, and answers how many those are.
fn part(
    alloc: Global,
    case: &Case<'_>,
    site: &mut MemorySite,
    first: &Line,
    behind: &[Line],
    tale: &mut Tale,
) -> Result<usize> {
    if is_quiet(first.key()) {
        return Ok(0);
    }
    let words = case.words(alloc, first)?;
    if first.key() == "tool" {
        return command(alloc, case, site, &words, behind, tale);
    }
    disks::step(alloc, site, first, &words, tale)?;
    Ok(0)
}

fn parts(alloc: Global, case: &Case<'_>, site: &mut MemorySite, tale: &mut Tale) -> Result<()> {
    let mut rest = case.lines();
    for _ in 0..case.lines().len() {
        let Some((first, behind)) = rest.split_first() else {
            break;
        };
        let asked = part(alloc, case, site, first, behind, tale)?;
        rest = behind.get(asked..).unwrap_or(&[]);
    }
    Ok(())
}

/// Tells what the steps of a row tell.
pub fn play(alloc: Global, case: &Case<'_>, tale: &mut Tale) -> Result<()> {
    let mut site = site(alloc, case, Cut::Of(65_536))?;
    parts(alloc, case, &mut site, tale)
}
