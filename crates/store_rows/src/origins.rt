//! Acts on an origin.
ghost use Rattle.std.specs.Prelude.{IsSome, IsTrue};
ghost use Rattle.sm_site.specs.Memory.{site_view, site_may_leave};
ghost use Rattle.sm_origin.specs.Machine.{Machine};
ghost use Rattle.sm_origin.specs.Acting.{StandsFor, IsValidAct};

use crate::choices::limits;
use crate::verdicts::declared;
use anyhow::{Result, bail};
use sm_model::{Act, Cause, Channel, Refusal, Track};
use sm_origin::{Counted, Origin, Reply};
use sm_rows::scripts::is_quiet;
use sm_rows::stored::{add_to, address, channel, fragment};
use sm_rows::tales::Tale;
use sm_rows::{Case, Line, Words};
use sm_site::MemorySite;
use std::alloc::Global;

fn is_valid(act: &Act) -> bool
    ensures { IsTrue result → IsValidAct act.now }
{
    match act {
        Act::Manifest => true,
        Act::Fragment(_) => true,
        Act::Unknown => true,
        Act::Header(channel) => channel.is_valid(),
        Act::Frag(fragment) => fragment.is_valid(),
        Act::End { kept: _, known: _ } => true,
        Act::Refuse(_) => true,
    }
}

fn cause(words: &Words) -> Result<Cause> {
    match words.text(1)? {
        "BadChunk" => Ok(Cause::BadChunk),
        "CutOff" => Ok(Cause::CutOff),
        _ => bail!("no cause"),
    }
}

// The act of a line, where it is one.
fn act(alloc: Global, tracks: &mut Vec<Track>, line: &Line, words: &Words) -> Result<Option<Act>> {
    Ok(match line.key() {
        "manifest" => Some(Act::Manifest),
        "ask" => Some(Act::Fragment(address(alloc, words)?)),
        "unknown" => Some(Act::Unknown),
        "header" => Some(Act::Header(channel(alloc, tracks))),
        "frag" => Some(Act::Frag(fragment(alloc, words)?)),
        "end" => Some(Act::End {
            kept: words.number(0)?,
            known: words.number(1)?,
        }),
        "refuse" => Some(Act::Refuse(Refusal {
            at: words.number(0)?,
            cause: cause(words)?,
        })),
        _ => None,
    })
}

// Tells the status of a reply, what it counts as and whether it closes, and behind that what is sent, if anything is.
fn tell(alloc: Global, reply: &Reply, tale: &mut Tale) -> Result<()> {
    let status = reply.status;
    let counted = match reply.counted {
        Counted::Kept => "kept",
        Counted::Known => "known",
        Counted::Neither => "neither",
    };
    let end = if reply.close { "closes" } else { "stays" };
    tale.say(format!(in alloc; "{status} {counted} {end}")?.as_str())?;
    let bytes = reply.bytes.join(alloc)?;
    if bytes.is_empty() {
        return Ok(());
    }
    tale.text(bytes.as_slice())
}

fn perform(
    alloc: Global,
    origin: &mut Origin,
    site: &mut MemorySite,
    act: &Act,
    tale: &mut Tale,
) -> Result<()>
    requires { (m : Machine) × StandsFor (IsSome (site_view site.old).contents) m origin.old (site_may_leave site.old) }
    ensures { (m : Machine) × StandsFor (IsSome (site_view site.new).contents) m origin.new (site_may_leave site.new) }
{
    if !is_valid(act) {
        bail!("no act");
    }
    let reply = origin.act(alloc, site, act);
    tell(alloc, &reply, tale)
}

fn declare(
    alloc: Global,
    origin: &mut Origin,
    site: &mut MemorySite,
    ladder: &Channel,
    tale: &mut Tale,
) -> Result<()>
    requires { (m : Machine) × StandsFor (IsSome (site_view site.old).contents) m origin.old (site_may_leave site.old) }
    ensures { (m : Machine) × StandsFor (IsSome (site_view site.new).contents) m origin.new (site_may_leave site.new) }
{
    if !ladder.is_valid() {
        bail!("no channel");
    }
    let answer = origin.declare(alloc, site, ladder);
    tale.say(declared(alloc, &answer)?.as_str())
}

// A step that is no act: the lines of a track, `declare` of the tracks before it, `len`, `channel`, `calls` of the disk, and `mark`, from
// where on those are counted.
fn other_step(
    alloc: Global,
    origin: &mut Origin,
    site: &mut MemorySite,
    tracks: &mut Vec<Track>,
    line: &Line,
    words: &Words,
    tale: &mut Tale,
) -> Result<()>
    requires { (m : Machine) × StandsFor (IsSome (site_view site.old).contents) m origin.old (site_may_leave site.old) }
    ensures { (m : Machine) × StandsFor (IsSome (site_view site.new).contents) m origin.new (site_may_leave site.new) }
{
    match line.key() {
        "track" | "private" | "numbers" => add_to(alloc, tracks, line.key(), words),
        "declare" => {
            let ladder = channel(alloc, tracks);
            declare(alloc, origin, site, &ladder, tale)
        }
        "len" => tale.count(origin.archive().len()),
        "channel" => tale.say(if origin.archive().catalog().is_some() {
            "yes"
        } else {
            "no"
        }),
        "calls" => tale.calls(site.disk_calls()),
        "mark" => {
            tale.mark(site.disk_calls());
            Ok(())
        }
        _ => bail!("no such step"),
    }
}

// A step: an act, which is `manifest`, `ask` and an address, `unknown`, `header` of the tracks before it, `frag` and a fragment,
// `end KEPT KNOWN` or `refuse AT CAUSE`, or another one.
fn step(
    alloc: Global,
    origin: &mut Origin,
    site: &mut MemorySite,
    tracks: &mut Vec<Track>,
    line: &Line,
    words: &Words,
    tale: &mut Tale,
) -> Result<()>
    requires { (m : Machine) × StandsFor (IsSome (site_view site.old).contents) m origin.old (site_may_leave site.old) }
    ensures { (m : Machine) × StandsFor (IsSome (site_view site.new).contents) m origin.new (site_may_leave site.new) }
{
    match act(alloc, tracks, line, words)? {
        Some(act) => perform(alloc, origin, site, &act, tale),
        None => other_step(alloc, origin, site, tracks, line, words, tale),
    }
}

// Takes a line, which is a step or is passed over.
fn take(
    alloc: Global,
    case: &Case<'_>,
    origin: &mut Origin,
    site: &mut MemorySite,
    tracks: &mut Vec<Track>,
    line: &Line,
    tale: &mut Tale,
) -> Result<()>
    requires { (m : Machine) × StandsFor (IsSome (site_view site.old).contents) m origin.old (site_may_leave site.old) }
    ensures { (m : Machine) × StandsFor (IsSome (site_view site.new).contents) m origin.new (site_may_leave site.new) }
{
    if is_quiet(line.key()) {
        return Ok(());
    }
    let words = case.words(alloc, line)?;
    step(alloc, origin, site, tracks, line, &words, tale)
}

fn steps(
    alloc: Global,
    case: &Case<'_>,
    origin: &mut Origin,
    site: &mut MemorySite,
    lines: &[Line],
    tale: &mut Tale,
) -> Result<()>
    requires { (m : Machine) × StandsFor (IsSome (site_view site.old).contents) m origin.old (site_may_leave site.old) }
{
    let mut tracks = Vec::new(alloc);
    for line in lines {
        take(alloc, case, origin, site, &mut tracks, line, tale)?;
    }
    Ok(())
}

/// Opens an origin, tells how many entries its store has, and makes the steps on it.
pub fn play(
    alloc: Global,
    case: &Case<'_>,
    site: &mut MemorySite,
    words: &Words,
    lines: &[Line],
    tale: &mut Tale,
) -> Result<()> {
    let limits = limits(words)?;
    match Origin::open_origin(alloc, site, limits) {
        Ok(mut origin) => {
            tale.count(origin.archive().len())?;
            steps(alloc, case, &mut origin, site, lines, tale)
        }
        Err(fault) => tale.say(format!(in alloc; "{fault}")?.as_str()),
    }
}
