//! Steps on disks and links of the machine, of which contracts are told neither contents nor a transcript.
ghost use Rattle.std.specs.Prelude.{◌≤◌, ℕ, IfSome, length};
ghost use Rattle.sm_site.specs.Image.{bytes_of};
ghost use Rattle.sm_site.specs.Meanings.{IsLive};

use anyhow::{Result, bail};
use sm_rows::tales::Tale;
use sm_rows::{Line, Words, hex};
use sm_site::{Disk, Event, Failed, Link, LinkError};
use std::alloc::Global;

// The greatest place and length of a write.
const MOST: u64 = 1 << 40;

/// Whether a step is one of a disk.
pub fn is_of_disk(key: &str) -> bool {
    matches!(key, "size" | "read" | "write" | "sync")
}

/// Whether a step is one of a link.
pub fn is_of_link(key: &str) -> bool {
    matches!(key, "next" | "send" | "send-both" | "close")
}

/// What became of a call.
pub fn done(outcome: Result<(), Failed>) -> &'static str {
    match outcome {
        Ok(()) => "done",
        Err(Failed) => "failed",
    }
}

fn size<D: Disk>(disk: &mut D, file: u32, tale: &mut Tale) -> Result<()> {
    match disk.size(file) {
        Ok(size) => tale.count(size),
        Err(Failed) => tale.say("failed"),
    }
}

// Tells so many bytes of a file.
fn read<D: Disk>(
    alloc: Global,
    disk: &mut D,
    file: u32,
    at: u64,
    count: usize,
    tale: &mut Tale,
) -> Result<()> {
    let mut into = vec![in alloc; 7u8; count]?;
    match disk.read_at(file, at, &mut into) {
        Ok(()) => tale.text(into.as_slice()),
        Err(Failed) => tale.say("failed"),
    }
}

fn sync<D: Disk>(disk: &mut D, file: u32, tale: &mut Tale) -> Result<()> {
    tale.say(done(disk.sync(file)))
}

fn write<D: Disk>(disk: &mut D, file: u32, at: u64, bytes: &[u8], tale: &mut Tale) -> Result<()>
    requires untold { (k at : ℕ) → IfSome (D.seen.view disk.old).contents (λ c. at ≤ length (bytes_of c k)) }
{
    if at > MOST || bytes.len() as u64 > MOST {
        bail!("no such place");
    }
    tale.say(done(disk.write_at(file, at, bytes)))
}

/// A step on a disk, with the number of a file: `size`; `read` with a place and a count, which tells so many bytes; `write` with a place and
/// bytes; `sync`.
pub fn on_disk<D: Disk>(
    alloc: Global,
    disk: &mut D,
    line: &Line,
    words: &Words,
    tale: &mut Tale,
) -> Result<()>
    requires untold { (k at : ℕ) → IfSome (D.seen.view disk.old).contents (λ c. at ≤ length (bytes_of c k)) }
{
    let file = words.short(0)?;
    match line.key() {
        "size" => size(disk, file, tale),
        "sync" => sync(disk, file, tale),
        "read" => {
            let count = usize::try_from(words.number(2)?)?;
            read(alloc, disk, file, words.number(1)?, count, tale)
        }
        _ => {
            let bytes = words.bytes(alloc, 2)?;
            write(disk, file, words.number(1)?, bytes.as_slice(), tale)
        }
    }
}

// The bytes as they stand, where they are a text.
fn text(alloc: Global, bytes: &[u8]) -> Result<String> {
    Ok(match str::from_utf8(bytes) {
        Ok(text) => String::from_str(alloc, text)?,
        Err(_) => hex(alloc, bytes)?,
    })
}

/// What a link brings next.
pub fn next<L: Link>(alloc: Global, link: &mut L) -> Result<String> {
    Ok(match link.next() {
        Ok(Event::Opened(number)) => format!(in alloc; "opened {number}")?,
        Ok(Event::Piece(number, piece)) => {
            let text = text(alloc, piece.as_slice())?;
            format!(in alloc; "piece {number} {text}")?
        }
        Ok(Event::Closed(number)) => format!(in alloc; "closed {number}")?,
        Ok(Event::Ended) => String::from_str(alloc, "ended")?,
        Err(LinkError::Failed) => String::from_str(alloc, "failed")?,
        Err(LinkError::NoMemory) => String::from_str(alloc, "out of memory")?,
    })
}

fn send<L: Link>(link: &mut L, number: u64, bytes: &[u8], tale: &mut Tale) -> Result<()>
    requires untold { (n : ℕ) → IfSome (L.seen.view link.old).transcript (IsLive n) }
{
    tale.say(done(link.send(number, bytes)))
}

fn send_both<L: Link>(
    link: &mut L,
    number: u64,
    head: &[u8],
    tail: &[u8],
    tale: &mut Tale,
) -> Result<()>
    requires untold { (n : ℕ) → IfSome (L.seen.view link.old).transcript (IsLive n) }
{
    tale.say(done(link.send_both(number, head, tail)))
}

/// A step on a link: `next`, which tells what comes; and with the number of a connection `send` with bytes, `send-both` with two texts, and
/// `close`.
pub fn on_link<L: Link>(
    alloc: Global,
    link: &mut L,
    line: &Line,
    words: &Words,
    tale: &mut Tale,
) -> Result<()>
    requires untold { (n : ℕ) → IfSome (L.seen.view link.old).transcript (IsLive n) }
{
    match line.key() {
        "next" => tale.say(next(alloc, link)?.as_str()),
        "send" => {
            let bytes = words.bytes(alloc, 1)?;
            send(link, words.number(0)?, bytes.as_slice(), tale)
        }
        "send-both" => send_both(link, words.number(0)?, words.raw(1)?, words.raw(2)?, tale),
        _ => {
            link.close(words.number(0)?);
            Ok(())
        }
    }
}
