//! Steps on the log over many files.
ghost use Rattle.std.specs.Prelude.{◌≡◌, ◌<◌, ◌≤◌, ◌^◌, length, None, IfOk};
ghost use Rattle.sm_site.specs.Memory.{site_may_leave};
ghost use Rattle.sm_seglog.specs.Segments.{IsReady};
ghost use Rattle.sm_seglog.specs.Standing.{Fits, IsSegLog};

use crate::answers::{appended, settled};
use anyhow::{Result, bail};
use sm_gatelog::{Appended, Settled};
use sm_rows::scripts::is_quiet;
use sm_rows::tales::Tale;
use sm_rows::{Case, Line, Words};
use sm_seglog::SegLog;
use sm_site::{Crashing, MemorySite};
use std::alloc::Global;

// Takes the memory for a body.
fn ready(log: &mut SegLog, site: &MemorySite, length: u32) -> Result<()>
    requires stands { IsSegLog log.old (site_may_leave site.now) }
    ensures stands { IsSegLog log.new (site_may_leave site.now) }
    ensures ready { IfOk result (λ ok. IsReady log.new length) }
{
    let _calls = site.disk_calls();
    log.reserve(length)?;
    Ok(())
}

// Appends a body for which there are memory and a file.
fn append_ready(log: &mut SegLog, site: &mut MemorySite, body: &[u8]) -> Appended
    requires no_doubt { log.old.last.doubt ≡ None }
    requires some { 1 ≤ length body.now }
    requires short { length body.now < 2 ^ 32 }
    requires ready { IsReady log.old (length body.now) }
    requires fits { Fits log.old (length body.now) }
    requires stands { IsSegLog log.old (site_may_leave site.old) }
    ensures stands { IsSegLog log.new (site_may_leave site.new) }
{
    log.append(site, body)
}

fn append(
    alloc: Global,
    log: &mut SegLog,
    site: &mut MemorySite,
    body: &[u8],
    tale: &mut Tale,
) -> Result<()>
    requires stands { IsSegLog log.old (site_may_leave site.old) }
    ensures stands { IsSegLog log.new (site_may_leave site.new) }
{
    let length = u32::try_from(body.len())?;
    ready(log, site, length)?;
    if log.in_doubt() || length == 0 || !log.fits(length) {
        bail!("the log takes no body");
    }
    let answer = append_ready(log, site, body);
    tale.say(appended(alloc, answer)?.as_str())
}

// Appends a body of so many bytes, each a 7.
fn append_long(
    alloc: Global,
    log: &mut SegLog,
    site: &mut MemorySite,
    length: u32,
    tale: &mut Tale,
) -> Result<()>
    requires stands { IsSegLog log.old (site_may_leave site.old) }
    ensures stands { IsSegLog log.new (site_may_leave site.new) }
{
    let body = vec![in alloc; 7; length as usize]?;
    append(alloc, log, site, body.as_slice(), tale)
}

fn settle_doubt(log: &mut SegLog, site: &mut MemorySite) -> Result<Settled>
    requires stands { IsSegLog log.old (site_may_leave site.old) }
    ensures stands { IsSegLog log.new (site_may_leave site.new) }
{
    if !log.in_doubt() {
        bail!("the log has no doubt");
    }
    Ok(log.settle(site))
}

// Lets so many writes and syncs pass.
fn stop(log: &SegLog, site: &mut MemorySite, calls: u64)
    requires stands { IsSegLog log.now (site_may_leave site.old) }
    ensures stands { IsSegLog log.now (site_may_leave site.new) }
{
    let _len = log.len();
    site.stop_after(calls);
}

// A step: `append` and a body, `append-long N`, `settle`, `stop N`, `len`, and `calls` of the disk.
fn step(
    alloc: Global,
    log: &mut SegLog,
    site: &mut MemorySite,
    line: &Line,
    words: &Words,
    tale: &mut Tale,
) -> Result<()>
    requires stands { IsSegLog log.old (site_may_leave site.old) }
    ensures stands { IsSegLog log.new (site_may_leave site.new) }
{
    match line.key() {
        "append" => {
            let body = words.bytes(alloc, 0)?;
            append(alloc, log, site, body.as_slice(), tale)
        }
        "append-long" => append_long(alloc, log, site, words.short(0)?, tale),
        "settle" => {
            let answer = settle_doubt(log, site)?;
            tale.say(settled(alloc, answer)?.as_str())
        }
        "stop" => {
            stop(log, site, words.number(0)?);
            Ok(())
        }
        "len" => tale.count(log.len()),
        "calls" => tale.calls(site.disk_calls()),
        _ => bail!("no such step"),
    }
}

// Takes a line, which is a step or is passed over.
fn take(
    alloc: Global,
    case: &Case<'_>,
    log: &mut SegLog,
    site: &mut MemorySite,
    line: &Line,
    tale: &mut Tale,
) -> Result<()>
    requires stands { IsSegLog log.old (site_may_leave site.old) }
    ensures stands { IsSegLog log.new (site_may_leave site.new) }
{
    if is_quiet(line.key()) {
        return Ok(());
    }
    let words = case.words(alloc, line)?;
    step(alloc, log, site, line, &words, tale)
}

fn steps(
    alloc: Global,
    case: &Case<'_>,
    log: &mut SegLog,
    site: &mut MemorySite,
    lines: &[Line],
    tale: &mut Tale,
) -> Result<()>
    requires stands { IsSegLog log.old (site_may_leave site.old) }
{
    for line in lines {
        take(alloc, case, log, site, line, tale)?;
    }
    Ok(())
}

/// Opens the log of a disk, tells how many bodies it has, and makes the steps on it.
pub fn play(
    alloc: Global,
    case: &Case<'_>,
    site: &mut MemorySite,
    lines: &[Line],
    tale: &mut Tale,
) -> Result<()> {
    match SegLog::open_log(alloc, site) {
        Ok(mut log) => {
            tale.count(log.len())?;
            steps(alloc, case, &mut log, site, lines, tale)
        }
        Err(fault) => tale.say(format!(in alloc; "{fault}")?.as_str()),
    }
}
