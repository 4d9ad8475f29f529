//! Steps on a store.
ghost use Rattle.std.specs.Prelude.{List, Option};
ghost use Rattle.sm_model.specs.declared.entry.Entry.{Entry};
ghost use Rattle.sm_site.specs.Memory.{site_may_leave};
ghost use Rattle.sm_archive.specs.Stands.{Stands};

use crate::choices::limits;
use crate::verdicts::{declared, fetched, kept};
use anyhow::{Result, bail};
use sm_archive::{Archive, Fetched, fewer_images_stand, open_store};
use sm_model::{Address, Channel, Fragment, Track};
use sm_rows::scripts::is_quiet;
use sm_rows::stored::{add_to, address, channel, fragment};
use sm_rows::tales::Tale;
use sm_rows::{Case, Line, Words};
use sm_site::{Crashing, MemorySite};
use std::alloc::Global;

fn declare(
    alloc: Global,
    archive: &mut Archive,
    site: &mut MemorySite,
    header: &Channel,
    tale: &mut Tale,
) -> Result<()>
    requires { (log : List Entry) × (doubt : Option Entry) × Stands archive.old log doubt (site_may_leave site.old) }
    ensures { (log : List Entry) × (doubt : Option Entry) × Stands archive.new log doubt (site_may_leave site.new) }
{
    if !header.is_valid() {
        bail!("no channel");
    }
    let answer = archive.declare(alloc, site, header);
    tale.say(declared(alloc, &answer)?.as_str())
}

fn keep(
    alloc: Global,
    archive: &mut Archive,
    site: &mut MemorySite,
    fragment: &Fragment,
    tale: &mut Tale,
) -> Result<()>
    requires { (log : List Entry) × (doubt : Option Entry) × Stands archive.old log doubt (site_may_leave site.old) }
    ensures { (log : List Entry) × (doubt : Option Entry) × Stands archive.new log doubt (site_may_leave site.new) }
{
    if !fragment.is_valid() {
        bail!("no fragment");
    }
    let answer = archive.keep(alloc, site, fragment);
    tale.say(kept(alloc, &answer)?.as_str())
}

// What is kept at an address.
fn fetch_at(
    alloc: Global,
    archive: &mut Archive,
    site: &mut MemorySite,
    address: &Address,
) -> Fetched
    requires { (log : List Entry) × (doubt : Option Entry) × Stands archive.old log doubt (site_may_leave site.old) }
    ensures { (log : List Entry) × (doubt : Option Entry) × Stands archive.new log doubt (site_may_leave site.new) }
{
    archive.fetch(alloc, site, address)
}

fn fetch(
    alloc: Global,
    archive: &mut Archive,
    site: &mut MemorySite,
    words: &Words,
    tale: &mut Tale,
) -> Result<()>
    requires { (log : List Entry) × (doubt : Option Entry) × Stands archive.old log doubt (site_may_leave site.old) }
    ensures { (log : List Entry) × (doubt : Option Entry) × Stands archive.new log doubt (site_may_leave site.new) }
{
    let address = address(alloc, words)?;
    let answer = fetch_at(alloc, archive, site, &address);
    tale.say(fetched(alloc, &answer)?.as_str())
}

// Lets so many writes and syncs pass.
fn stop(archive: &Archive, site: &mut MemorySite, calls: u64)
    requires { (log : List Entry) × (doubt : Option Entry) × Stands archive.now log doubt (site_may_leave site.old) }
    ensures { (log : List Entry) × (doubt : Option Entry) × Stands archive.now log doubt (site_may_leave site.new) }
{
    fewer_images_stand::<MemorySite>();
    let _len = archive.len();
    site.stop_after(calls);
}

// Tells the track, the time and the duration of an entry, where it is a fragment.
fn meta(alloc: Global, archive: &Archive, place: u64, tale: &mut Tale) -> Result<()> {
    match archive.meta(place) {
        Some(meta) => {
            let (track, time, duration) = (meta.track, meta.time, meta.duration);
            tale.say(format!(in alloc; "{track} {time} {duration}")?.as_str())
        }
        None => tale.say("none"),
    }
}

// A step: `track`, `declare` of the tracks before it, `keep` and a fragment, `fetch` and an address, `stop N`, `len`, `meta N`,
// `doubt`, `channel`, and `calls` of the disk.
fn step(
    alloc: Global,
    archive: &mut Archive,
    site: &mut MemorySite,
    tracks: &mut Vec<Track>,
    line: &Line,
    words: &Words,
    tale: &mut Tale,
) -> Result<()>
    requires { (log : List Entry) × (doubt : Option Entry) × Stands archive.old log doubt (site_may_leave site.old) }
    ensures { (log : List Entry) × (doubt : Option Entry) × Stands archive.new log doubt (site_may_leave site.new) }
{
    match line.key() {
        "track" | "private" | "numbers" => add_to(alloc, tracks, line.key(), words),
        "declare" => {
            let header = channel(alloc, tracks);
            declare(alloc, archive, site, &header, tale)
        }
        "keep" => {
            let fragment = fragment(alloc, words)?;
            keep(alloc, archive, site, &fragment, tale)
        }
        "fetch" => fetch(alloc, archive, site, words, tale),
        "stop" => {
            stop(archive, site, words.number(0)?);
            Ok(())
        }
        "len" => tale.count(archive.len()),
        "meta" => meta(alloc, archive, words.number(0)?, tale),
        "doubt" => tale.say(if archive.in_doubt() { "yes" } else { "no" }),
        "channel" => tale.say(if archive.catalog().is_some() {
            "yes"
        } else {
            "no"
        }),
        "calls" => tale.calls(site.disk_calls()),
        _ => bail!("no such step"),
    }
}

// Takes a line, which is a step or is passed over.
fn take(
    alloc: Global,
    case: &Case<'_>,
    archive: &mut Archive,
    site: &mut MemorySite,
    tracks: &mut Vec<Track>,
    line: &Line,
    tale: &mut Tale,
) -> Result<()>
    requires { (log : List Entry) × (doubt : Option Entry) × Stands archive.old log doubt (site_may_leave site.old) }
    ensures { (log : List Entry) × (doubt : Option Entry) × Stands archive.new log doubt (site_may_leave site.new) }
{
    if is_quiet(line.key()) {
        return Ok(());
    }
    let words = case.words(alloc, line)?;
    step(alloc, archive, site, tracks, line, &words, tale)
}

fn steps(
    alloc: Global,
    case: &Case<'_>,
    archive: &mut Archive,
    site: &mut MemorySite,
    lines: &[Line],
    tale: &mut Tale,
) -> Result<()>
    requires { (log : List Entry) × (doubt : Option Entry) × Stands archive.old log doubt (site_may_leave site.old) }
{
    let mut tracks = Vec::new(alloc);
    for line in lines {
        take(alloc, case, archive, site, &mut tracks, line, tale)?;
    }
    Ok(())
}

/// Opens the store of a disk, tells how many entries it has, and makes the steps on it.
pub fn play(
    alloc: Global,
    case: &Case<'_>,
    site: &mut MemorySite,
    words: &Words,
    lines: &[Line],
    tale: &mut Tale,
) -> Result<()> {
    let limits = limits(words)?;
    match open_store(alloc, site, limits) {
        Ok(mut archive) => {
            tale.count(archive.len())?;
            steps(alloc, case, &mut archive, site, lines, tale)
        }
        Err(fault) => tale.say(format!(in alloc; "{fault}")?.as_str()),
    }
}
