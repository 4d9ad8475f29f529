//! Rows that are steps on a site in memory.
//!
//! A line that opens something is followed by the steps on it, up to the next that opens, to `shut` or to a crash; all other steps are
//! on the site itself.
use crate::{files, logs, origins, serving, stores};
use anyhow::Result;
use sm_rows::scripts::{Cut, is_quiet, site};
use sm_rows::tales::Tale;
use sm_rows::{Case, Line, Words, disks};
use sm_site::{MemorySite, Script};
use std::alloc::Global;

fn is_opening(key: &str) -> bool {
    matches!(
        key,
        "open-file" | "open-log" | "open-store" | "open-origin" | "serve"
    )
}

fn is_closing(key: &str) -> bool {
    is_opening(key) || matches!(key, "shut" | "crash" | "crash-here")
}

// How many of the lines behind this one are steps on what it opens.
fn own_steps(first: &Line, behind: &[Line]) -> usize {
    if !is_opening(first.key()) {
        return 0;
    }
    let end = behind.iter().position(|line| is_closing(line.key()));
    end.unwrap_or(behind.len())
}

// A site of which a crash left one image, where nothing comes any more.
fn crashed(alloc: Global, site: MemorySite, words: &Words) -> Result<MemorySite> {
    let choice = u8::try_from(words.number(0)?)?;
    Ok(site.crash(choice, Script::from_vec(Vec::new(alloc))))
}

// Plays a line and the steps on what it opens.
fn part(
    alloc: Global,
    case: &Case<'_>,
    site: MemorySite,
    first: &Line,
    steps: &[Line],
    tale: &mut Tale,
) -> Result<MemorySite> {
    let mut site = site;
    let words = case.words(alloc, first)?;
    match first.key() {
        "open-file" => files::play(alloc, case, &mut site, &words, steps, tale)?,
        "open-log" => logs::play(alloc, case, &mut site, steps, tale)?,
        "open-store" => stores::play(alloc, case, &mut site, &words, steps, tale)?,
        "open-origin" => origins::play(alloc, case, &mut site, &words, steps, tale)?,
        "serve" => serving::play(alloc, case, &mut site, &words, steps, tale)?,
        "crash" => return crashed(alloc, site, &words),
        _ => disks::step(alloc, &mut site, first, &words, tale)?,
    }
    Ok(site)
}

/// What the steps of a row tell on this site.
pub fn play_on(alloc: Global, case: &Case<'_>, site: MemorySite) -> Result<String> {
    let mut site = site;
    let mut tale = Tale::new(alloc);
    let mut rest = case.lines();
    for _ in 0..case.lines().len() {
        let Some((first, behind)) = rest.split_first() else {
            break;
        };
        rest = behind;
        if is_quiet(first.key()) {
            continue;
        }
        if let Some((steps, others)) = behind.split_at_checked(own_steps(first, behind)) {
            site = part(alloc, case, site, first, steps, &mut tale)?;
            rest = others;
        }
    }
    Ok(tale.into_text())
}

// What a row tells, where what comes is cut so.
fn play_cut(alloc: Global, case: &Case<'_>, cut: Cut) -> Result<String> {
    play_on(alloc, case, site(alloc, case, cut)?)
}

fn cut_of(words: &Words, at: usize) -> Result<Cut> {
    if words.text(at)? == "turn" {
        return Ok(Cut::InTurn);
    }
    Ok(Cut::Of(usize::try_from(words.number(at)?)?))
}

/// What the steps of a row tell. Where it has a line `sizes`, it is played once for each of them, which is how long the pieces are in
/// which bytes come, or `turn`; and what differs first from what is to come is given.
pub fn play(alloc: Global, case: &Case<'_>) -> Result<String> {
    if !case.has("sizes") {
        return play_cut(alloc, case, Cut::Of(65_536));
    }
    let words = case.words_of(alloc, "sizes")?;
    let mut told = String::new(alloc);
    for at in 0..words.len() {
        told = play_cut(alloc, case, cut_of(&words, at)?)?;
        if case.difference(alloc, told.as_str())?.is_some() {
            return Ok(told);
        }
    }
    Ok(told)
}
