//! Steps on the disk and the link of a site themselves.
use crate::scripts::{Cut, extend};
use crate::tales::Tale;
use crate::{Line, Words};
use anyhow::{Result, bail};
use sm_site::{
    Crashing, Disk, Event, Failed, Link, LinkError, MemorySite, Selection, Site, SiteError,
};
use std::alloc::Global;

fn done(tale: &mut Tale, outcome: Result<(), Failed>) -> Result<()> {
    tale.say(match outcome {
        Ok(()) => "done",
        Err(Failed) => "failed",
    })
}

// Writes these bytes to a file at a place that is inside it. Whether it is is asked of the disk but for the place 0.
fn write<D: Disk>(disk: &mut D, file: u32, at: u64, bytes: &[u8]) -> Result<(), Failed> {
    if bytes.len() > 1 << 40 || at > 1 << 40 || (at > 0 && at > disk.size(file)?) {
        return Err(Failed);
    }
    disk.write_at(file, at, bytes)
}

// Tells so many bytes of a file.
fn read<D: Disk>(
    alloc: Global,
    disk: &mut D,
    tale: &mut Tale,
    file: u32,
    at: u64,
    count: usize,
) -> Result<()> {
    let mut into = vec![in alloc; 7; count]?;
    match disk.read_at(file, at, &mut into) {
        Ok(()) => tale.bytes(into.as_slice()),
        Err(Failed) => tale.say("failed"),
    }
}

fn size<D: Disk>(disk: &mut D, tale: &mut Tale, file: u32) -> Result<()> {
    match disk.size(file) {
        Ok(size) => tale.count(size),
        Err(Failed) => tale.say("failed"),
    }
}

// Greets the connection that comes next, and closes it.
fn greet<L: Link>(link: &mut L, greeting: &[u8]) -> Result<Option<u64>, LinkError> {
    match link.next()? {
        Event::Opened(conn) => {
            let _ = link.send(conn, greeting);
            link.close(conn);
            Ok(Some(conn))
        }
        _ => Ok(None),
    }
}

fn greeted(link: &mut MemorySite, tale: &mut Tale, greeting: &[u8]) -> Result<()> {
    match greet(link, greeting) {
        Ok(Some(conn)) => tale.count(conn),
        Ok(None) => tale.say("nobody"),
        Err(LinkError::Failed) => tale.say("failed"),
        Err(LinkError::NoMemory) => tale.say("out of memory"),
    }
}

fn next(alloc: Global, link: &mut MemorySite, tale: &mut Tale) -> Result<()> {
    let line = match link.next() {
        Ok(Event::Opened(number)) => format!(in alloc; "opened {number}")?,
        Ok(Event::Piece(number, _)) => format!(in alloc; "piece {number}")?,
        Ok(Event::Closed(number)) => format!(in alloc; "closed {number}")?,
        Ok(Event::Ended) => String::from_str(alloc, "ended")?,
        Err(LinkError::Failed) => String::from_str(alloc, "failed")?,
        Err(LinkError::NoMemory) => String::from_str(alloc, "out of memory")?,
    };
    tale.say(line.as_str())
}

fn select(alloc: Global, site: &mut MemorySite, tale: &mut Tale) -> Result<()> {
    let selection = Selection {
        store: String::from_str(alloc, "store")?,
        port: 0,
        make: true,
        bind: None,
        journal: None,
    };
    tale.say(match site.select(selection) {
        Ok(()) => "done",
        Err(SiteError::Disk) => "disk",
        Err(SiteError::Link) => "link",
        Err(_) => "out of memory",
    })
}

// A step on the disk.
fn on_disk(
    alloc: Global,
    site: &mut MemorySite,
    line: &Line,
    words: &Words,
    tale: &mut Tale,
) -> Result<()> {
    let file = words.short(0)?;
    match line.key() {
        "size" => size(site, tale, file),
        "sync" => {
            let synced = site.sync(file);
            done(tale, synced)
        }
        "read" => {
            let count = usize::try_from(words.number(2)?)?;
            read(alloc, site, tale, file, words.number(1)?, count)
        }
        _ => {
            let bytes = words.bytes(alloc, 2)?;
            let written = write(site, file, words.number(1)?, bytes.as_slice());
            done(tale, written)
        }
    }
}

// A step on what the site is told.
fn on_site(alloc: Global, site: &mut MemorySite, line: &Line, words: &Words) -> Result<()> {
    match line.key() {
        "reach" => site.reach(words.text(0)? == "yes"),
        "stop" => site.stop_after(words.number(0)?),
        "crash-here" => site.crash_here(u8::try_from(words.number(0)?)?),
        _ => {
            let bytes = words.bytes(alloc, 0)?;
            extend(alloc, site, bytes.as_slice(), Cut::Of(65_536))?;
        }
    }
    Ok(())
}

/// A step on a site.
///
/// `write FILE AT` with bytes, `read FILE AT COUNT`, `size FILE` and `sync FILE` are calls of its disk; `next` and `greet` with bytes
/// are of its link; `more` with bytes is one more connection that comes; `reach yes`, `stop N` and `crash-here N` are what it is told;
/// `select`, `calls`, `starved`, `next-number` and `sent N` ask it.
pub fn step(
    alloc: Global,
    site: &mut MemorySite,
    line: &Line,
    words: &Words,
    tale: &mut Tale,
) -> Result<()> {
    match line.key() {
        "size" | "sync" | "read" | "write" => on_disk(alloc, site, line, words, tale),
        "reach" | "stop" | "crash-here" | "more" => on_site(alloc, site, line, words),
        "next" => next(alloc, site, tale),
        "greet" => {
            let greeting = words.bytes(alloc, 0)?;
            greeted(site, tale, greeting.as_slice())
        }
        "select" => select(alloc, site, tale),
        "calls" => tale.calls(site.disk_calls()),
        "starved" => tale.say(if site.starved() { "yes" } else { "no" }),
        "next-number" => match site.next_number() {
            Some(number) => tale.count(number),
            None => tale.say("none"),
        },
        "sent" => tale.text(site.sent(words.number(0)?)?.as_slice()),
        "shut" => Ok(()),
        _ => bail!("no such step"),
    }
}
