//! Sites in memory that bring what the lines of a row say.
ghost use Rattle.std.specs.Prelude.{◌∷◌, List, IfSome, IsTrue};
ghost use Rattle.sm_site.specs.declared.event.Event.{Event};
ghost use Rattle.sm_site.specs.Scripts.{is_script};

use crate::{Case, Line};
use anyhow::{Result, bail};
use sm_site::{Crashing, Event, MemorySite, Numbers, Piece, Script};
use std::alloc::Global;

/// How long the pieces are in which bytes come.
#[derive(Clone, Copy)]
pub enum Cut {
    /// Of that many bytes, at most 65,536, but for the last one.
    Of(usize),
    /// Of 1 to 7 bytes in turn.
    InTurn,
}

impl Cut {
    fn first(self) -> usize {
        match self {
            Cut::Of(size) => size,
            Cut::InTurn => 1,
        }
    }

    fn next(self, size: usize) -> usize {
        match self {
            Cut::Of(size) => size,
            Cut::InTurn => (size % 7).saturating_add(1),
        }
    }
}

// The number from which those of later connections have to rise, or None where the event can't stand in a script.
fn next_number(from: u64, event: &Event) -> Option<u64>
    ensures { IfSome result (λ next. (rest : List Event) → IsTrue (is_script next rest) → IsTrue (is_script from (event.now ∷ rest))) }
{
    match event {
        Event::Opened(number) => {
            if *number < from {
                return None;
            }
            number.checked_add(1)
        }
        Event::Piece(_, piece) => {
            if piece.len() == 0 || piece.len() > 65_536 {
                return None;
            }
            Some(from)
        }
        Event::Closed(_) => Some(from),
        Event::Ended => None,
    }
}

// These events as a script, if they are one.
fn script_of(first: u64, events: Vec<Event>) -> Option<Script>
    ensures { IfSome result (λ script. IsTrue (is_script first script)) }
{
    let mut from = first;
    for i in 0..events.len() {
        from = next_number(from, &events[i])?;
    }
    Some(Script::from_vec(events))
}

// Adds the events of a connection that is open and sends these bytes.
fn send(alloc: Global, events: &mut Vec<Event>, number: u64, bytes: &[u8], cut: Cut) -> Result<()> {
    let mut rest = bytes;
    let mut size = cut.first();
    for _ in 0..bytes.len() {
        if rest.is_empty() {
            return Ok(());
        }
        let (piece, behind) = rest.split_at(size.min(rest.len()));
        events.push(Event::Piece(number, Piece::from_vec(Vec::from_slice(alloc, piece)?)))?;
        rest = behind;
        size = cut.next(size);
    }
    Ok(())
}

// Adds what a line says that comes.
fn add(
    alloc: Global,
    case: &Case<'_>,
    events: &mut Vec<Event>,
    line: &Line,
    cut: Cut,
) -> Result<()> {
    let words = case.words(alloc, line)?;
    let number = words.number(0)?;
    match line.key() {
        "opened" => {
            let last = if words.len() > 1 {
                words.number(1)?
            } else {
                number
            };
            for number in number..=last {
                events.push(Event::Opened(number))?;
            }
        }
        "closed" => events.push(Event::Closed(number))?,
        "piece" => {
            let bytes = words.bytes(alloc, 1)?;
            send(alloc, events, number, bytes.as_slice(), cut)?;
        }
        _ => {
            let bytes = words.bytes(alloc, 1)?;
            events.push(Event::Opened(number))?;
            send(alloc, events, number, bytes.as_slice(), cut)?;
        }
    }
    Ok(())
}

/// The numbers of the first line with this key, if there is one.
pub fn numbers(alloc: Global, case: &Case<'_>, key: &str) -> Result<Numbers> {
    let mut all = Vec::new(alloc);
    if case.has(key) {
        let words = case.words_of(alloc, key)?;
        for at in 0..words.len() {
            all.push(words.number(at)?)?;
        }
    }
    Ok(Numbers::from_vec(all))
}

/// Whether a line says what comes, what fails or what is to come of it, and is no step.
pub fn is_quiet(key: &str) -> bool {
    let comes = matches!(
        key,
        "opened" | "closed" | "piece" | "sends" | "input" | "zeros-input" | "answers" | "loses"
    );
    let limits = matches!(key, "most" | "sizes") || key.starts_with("fails-");
    comes || limits || matches!(key, "gives" | "gives-hex" | "gives-text")
}

/// The site of a row: `opened N`, or `opened N M` of all numbers from N to M, `closed N`, `piece N` with bytes and `sends N` with
/// bytes, which opens first, are what comes, and `fails-disk` and `fails-link` the numbers of the calls that fail.
pub fn site(alloc: Global, case: &Case<'_>, cut: Cut) -> Result<MemorySite> {
    let mut events = Vec::new(alloc);
    for line in case.lines() {
        if matches!(line.key(), "opened" | "closed" | "piece" | "sends") {
            add(alloc, case, &mut events, line, cut)?;
        }
    }
    let disk = numbers(alloc, case, "fails-disk")?;
    let link = numbers(alloc, case, "fails-link")?;
    match script_of(0, events) {
        Some(script) => Ok(MemorySite::new(alloc, script, disk, link)),
        None => bail!("no script"),
    }
}

/// Lets the site bring these bytes on one more connection, whose number it gives.
pub fn extend(alloc: Global, site: &mut MemorySite, bytes: &[u8], cut: Cut) -> Result<u64> {
    let Some(number) = site.next_number() else {
        bail!("no number");
    };
    let mut events = vec![in alloc; Event::Opened(number)]?;
    send(alloc, &mut events, number, bytes, cut)?;
    match script_of(number, events) {
        Some(script) => site.extend(script)?,
        None => bail!("no script"),
    }
    Ok(number)
}
