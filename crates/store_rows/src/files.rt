//! Steps on the log in one file.
ghost use Rattle.std.specs.Prelude.{◌≡◌, ◌+◌, ◌<◌, ◌≤◌, ◌^◌, length, true, None, IfOk};
ghost use Rattle.sm_site.specs.Memory.{site_may_leave};
ghost use Rattle.sm_gatelog.specs.Logs.{IsLog};

use crate::answers::{appended, settled};
use anyhow::{Result, bail};
use sm_gatelog::{Appended, GateLog, ReadFault, Settled};
use sm_model::Bytes;
use sm_rows::scripts::is_quiet;
use sm_rows::tales::Tale;
use sm_rows::{Case, Line, Words};
use sm_site::{Crashing, MemorySite};
use std::alloc::Global;

// Takes the memory for a body.
fn ready(log: &mut GateLog, site: &MemorySite, length: u32) -> Result<()>
    requires made { log.old.made ≡ true }
    requires stands { IsLog log.old (site_may_leave site.now) }
    ensures made { log.new.made ≡ true }
    ensures stands { IsLog log.new (site_may_leave site.now) }
    ensures spare { IfOk result (λ ok. 2 ≤ log.new.spare) }
    ensures room { IfOk result (λ ok. length ≤ log.new.room) }
{
    let _calls = site.disk_calls();
    log.reserve(length)?;
    Ok(())
}

// Appends a body for which there is memory.
fn append_ready(log: &mut GateLog, site: &mut MemorySite, body: &[u8]) -> Appended
    requires made { log.old.made ≡ true }
    requires no_doubt { log.old.doubt ≡ None }
    requires spare { 1 ≤ log.old.spare }
    requires some { 1 ≤ length body.now }
    requires short { length body.now < 2 ^ 32 }
    requires room { length body.now ≤ log.old.room }
    requires fits { log.old.end + (6 + length body.now) < 2 ^ 63 }
    requires stands { IsLog log.old (site_may_leave site.old) }
    ensures made { log.new.made ≡ true }
    ensures stands { IsLog log.new (site_may_leave site.new) }
{
    log.append(site, body)
}

fn append(
    alloc: Global,
    log: &mut GateLog,
    site: &mut MemorySite,
    body: &[u8],
    tale: &mut Tale,
) -> Result<()>
    requires made { log.old.made ≡ true }
    requires stands { IsLog log.old (site_may_leave site.old) }
    ensures made { log.new.made ≡ true }
    ensures stands { IsLog log.new (site_may_leave site.new) }
{
    let length = u32::try_from(body.len())?;
    ready(log, site, length)?;
    if log.in_doubt() || length == 0 || log.end() > 1 << 60 {
        bail!("the log takes no body");
    }
    let answer = append_ready(log, site, body);
    tale.say(appended(alloc, answer)?.as_str())
}

fn settle_doubt(log: &mut GateLog, site: &mut MemorySite) -> Result<Settled>
    requires made { log.old.made ≡ true }
    requires stands { IsLog log.old (site_may_leave site.old) }
    ensures made { log.new.made ≡ true }
    ensures stands { IsLog log.new (site_may_leave site.new) }
{
    if !log.in_doubt() {
        bail!("the log has no doubt");
    }
    Ok(log.settle(site))
}

// Lets so many writes and syncs pass.
fn stop(log: &GateLog, site: &mut MemorySite, calls: u64)
    requires stands { IsLog log.now (site_may_leave site.old) }
    ensures stands { IsLog log.now (site_may_leave site.new) }
{
    let _len = log.len();
    site.stop_after(calls);
}

// Tells where the gate of a body stands.
fn gate(log: &GateLog, place: u64, tale: &mut Tale) -> Result<()> {
    if place >= log.len() {
        bail!("there is no such body");
    }
    tale.count(log.gate(place))
}

// The body at a place.
fn body(alloc: Global, log: &GateLog, site: &mut MemorySite, place: u64) -> Result<Bytes, ReadFault>
    requires within { place < length log.now.slots }
    requires stands { IsLog log.now (site_may_leave site.old) }
    ensures stands { IsLog log.now (site_may_leave site.new) }
{
    log.read(alloc, site, place)
}

// Tells a body.
fn read(
    alloc: Global,
    log: &GateLog,
    site: &mut MemorySite,
    place: u64,
    tale: &mut Tale,
) -> Result<()>
    requires stands { IsLog log.now (site_may_leave site.old) }
    ensures stands { IsLog log.now (site_may_leave site.new) }
{
    if place >= log.len() {
        bail!("there is no such body");
    }
    match body(alloc, log, site, place) {
        Ok(body) => tale.bytes(body.as_slice()),
        Err(ReadFault::DiskFault) => tale.say("disk fault"),
        Err(ReadFault::NoMemory) => tale.say("out of memory"),
    }
}

// A step: `append` and a body, `settle`, `stop N`, `body N`, `gate N`, `end`, `len`, and `calls` of the disk.
fn step(
    alloc: Global,
    log: &mut GateLog,
    site: &mut MemorySite,
    line: &Line,
    words: &Words,
    tale: &mut Tale,
) -> Result<()>
    requires made { log.old.made ≡ true }
    requires stands { IsLog log.old (site_may_leave site.old) }
    ensures made { log.new.made ≡ true }
    ensures stands { IsLog log.new (site_may_leave site.new) }
{
    match line.key() {
        "append" => {
            let body = words.bytes(alloc, 0)?;
            append(alloc, log, site, body.as_slice(), tale)
        }
        "settle" => {
            let answer = settle_doubt(log, site)?;
            tale.say(settled(alloc, answer)?.as_str())
        }
        "stop" => {
            stop(log, site, words.number(0)?);
            Ok(())
        }
        "body" => read(alloc, log, site, words.number(0)?, tale),
        "gate" => gate(log, words.number(0)?, tale),
        "end" => tale.count(log.end()),
        "len" => tale.count(log.len()),
        "calls" => tale.calls(site.disk_calls()),
        _ => bail!("no such step"),
    }
}

fn steps(
    alloc: Global,
    case: &Case<'_>,
    log: &mut GateLog,
    site: &mut MemorySite,
    lines: &[Line],
    tale: &mut Tale,
) -> Result<()>
    requires made { log.old.made ≡ true }
    requires stands { IsLog log.old (site_may_leave site.old) }
{
    for line in lines {
        if !is_quiet(line.key()) {
            let words = case.words(alloc, line)?;
            step(alloc, log, site, line, &words, tale)?;
        }
    }
    Ok(())
}

/// Opens the log of a file, tells how many bodies it has, and makes the steps on it.
pub fn play(
    alloc: Global,
    case: &Case<'_>,
    site: &mut MemorySite,
    words: &Words,
    lines: &[Line],
    tale: &mut Tale,
) -> Result<()> {
    match GateLog::open_log(alloc, site, words.short(0)?) {
        Ok(mut log) => {
            tale.count(log.len())?;
            steps(alloc, case, &mut log, site, lines, tale)
        }
        Err(fault) => tale.say(format!(in alloc; "{fault}")?.as_str()),
    }
}
