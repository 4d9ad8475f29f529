//! The loop over what a site brings.
ghost use Rattle.std.specs.Prelude.{◌≡◌};
ghost use Rattle.sm_site.specs.Memory.{site_seen};
ghost use Rattle.sm_origin.specs.Machine.{Machine};
ghost use Rattle.sm_serve.specs.Standing.{StandsOn};
ghost use Rattle.sm_serve.specs.Serving.{Known};

use crate::choices::{chosen, limits};
use crate::verdicts::declared;
use anyhow::{Result, bail};
use sm_archive::Declared;
use sm_model::Channel;
use sm_rows::stored::{add_to, channel, is_of_track};
use sm_rows::tales::Tale;
use sm_rows::{Case, Line, Words};
use sm_serve::{Served, State, serve};
use sm_site::MemorySite;
use std::alloc::Global;

// The ladder of these lines, if there is one.
fn ladder(alloc: Global, case: &Case<'_>, lines: &[Line]) -> Result<Option<Channel>> {
    let mut tracks = Vec::new(alloc);
    for line in lines {
        if is_of_track(line.key()) {
            let words = case.words(alloc, line)?;
            add_to(alloc, &mut tracks, line.key(), &words)?;
        }
    }
    if tracks.is_empty() {
        return Ok(None);
    }
    Ok(Some(channel(alloc, &mut tracks)))
}

// Declares a ladder, if there is one.
fn declare(
    state: &mut State,
    site: &mut MemorySite,
    ladder: &Option<Channel>,
) -> Result<Option<Declared>>
    requires stands { (m : Machine) × StandsOn site_seen m state.old.origin site.old }
    requires known { Known site_seen state.old site.old }
    ensures stands { (m : Machine) × StandsOn site_seen m state.new.origin site.new }
    ensures known { Known site_seen state.new site.new }
{
    match ladder {
        None => Ok(None),
        Some(ladder) => {
            if !ladder.is_valid() {
                bail!("no channel");
            }
            Ok(Some(state.declare(site, ladder)))
        }
    }
}

// Tells how the loop ended: how many events were taken only where that is asked, since it depends on the pieces.
fn tell(alloc: Global, served: &Served, is_asked: bool, tale: &mut Tale) -> Result<()> {
    match served {
        Served::Done {
            turns,
            behind: 0,
            short: 0,
        } => {
            if is_asked {
                tale.say(format!(in alloc; "turns {turns}")?.as_str())?;
            }
            Ok(())
        }
        Served::Done {
            turns: _,
            behind,
            short,
        } => tale.say(format!(in alloc; "behind {behind} short {short}")?.as_str()),
        Served::LinkFault => tale.say("link fault"),
        Served::NoMemory => tale.say("out of memory"),
    }
}

// Serves behind a ladder, and tells both, and how many entries there are then.
fn run(
    alloc: Global,
    state: &mut State,
    site: &mut MemorySite,
    ladder: &Option<Channel>,
    words: &Words,
    tale: &mut Tale,
) -> Result<()>
    requires stands { (m : Machine) × StandsOn site_seen m state.old.origin site.old }
    requires known { Known site_seen state.old site.old }
{
    let asked = chosen(words, "turns")?;
    let turns = asked.unwrap_or(100_000_000);
    let answer = declare(state, site, ladder)?;
    let served = serve(site, state, turns);
    if let Some(answer) = answer {
        tale.say(declared(alloc, &answer)?.as_str())?;
    }
    tell(alloc, &served, asked.is_some(), tale)?;
    tale.count(state.archive().len())
}

/// Opens the store of the site and serves so many turns, behind the ladder of the tracks in the lines, if there are any; and tells how the
/// loop ended, and how many entries the store has then.
pub fn play(
    alloc: Global,
    case: &Case<'_>,
    site: &mut MemorySite,
    words: &Words,
    lines: &[Line],
    tale: &mut Tale,
) -> Result<()> {
    let limits = limits(words)?;
    let ladder = ladder(alloc, case, lines)?;
    match State::start(alloc, site, limits) {
        Ok(mut state) => run(alloc, &mut state, site, &ladder, words, tale),
        Err(fault) => tale.say(format!(in alloc; "{fault}")?.as_str()),
    }
}
