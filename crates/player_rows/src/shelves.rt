//! A shelf on which a row lays entries itself.
ghost use Rattle.std.specs.Prelude.{◌<◌, ◌≤◌, IfOk};
ghost use Rattle.sm_model.specs.Channels.{IsChannel};
ghost use Rattle.sm_model.specs.Fragments.{IsValid};
ghost use Rattle.sm_shelf.specs.Laying.{IsValidEntry};

use crate::filling::Filling;
use crate::seats::{Seats, is_of_reader};
use crate::values::{channel, fragment};
use anyhow::{Result, bail};
use sm_model::{Channel, Entry, Fragment, Track};
use sm_rows::scripts::is_quiet;
use sm_rows::stored::add_to;
use sm_rows::tales::Tale;
use sm_rows::{Case, Line, Words};
use sm_shelf::{Readers, ShelfWriter, Told, make};
use sm_site::{MemorySite, Numbers, Script};
use std::alloc::Global;
use std::sync::Wait;
use std::thread::Threads;

// What a row lays next, what the writer told and isn't learnt yet, and the readers.
#[derive(Drop)]
struct Stage {
    alloc: Global,
    tracks: Vec<Track>,
    filling: Option<Filling>,
    notes: Vec<Told>,
    seats: Seats,
}

// Tells what became of a call on the shelf, where that isn't that it was done.
fn outcome(is_done: bool, tale: &mut Tale) -> Result<()> {
    if is_done {
        return Ok(());
    }
    tale.say("out of memory")
}

// A site at which nothing comes.
fn site(alloc: Global) -> MemorySite {
    MemorySite::new(
        alloc,
        Script::from_vec(Vec::new(alloc)),
        Numbers::from_vec(Vec::new(alloc)),
        Numbers::from_vec(Vec::new(alloc)),
    )
}

fn put<R: Wait>(
    rt: &R,
    alloc: Global,
    writer: &mut ShelfWriter,
    entry: &Entry,
    tale: &mut Tale,
) -> Result<()>
    requires { IsValidEntry entry.now }
{
    let is_done = writer.put(rt, &site(alloc), entry).is_ok();
    outcome(is_done, tale)
}

fn declare<R: Wait>(
    rt: &R,
    alloc: Global,
    writer: &mut ShelfWriter,
    ladder: Channel,
    tale: &mut Tale,
) -> Result<()>
    requires { IsChannel ladder }
{
    put(rt, alloc, writer, &Entry::Declare(ladder), tale)
}

fn keep<R: Wait>(
    rt: &R,
    alloc: Global,
    writer: &mut ShelfWriter,
    fragment: Fragment,
    tale: &mut Tale,
) -> Result<()>
    requires { IsValid fragment }
{
    put(rt, alloc, writer, &Entry::Keep(fragment), tale)
}

impl Stage {
    fn new(alloc: Global, readers: Readers) -> Stage {
        Stage {
            alloc,
            tracks: Vec::new(alloc),
            filling: None,
            notes: Vec::new(alloc),
            seats: Seats::new(alloc, readers),
        }
    }

    // Begins a catalog of the tracks before it.
    fn begin(&mut self) -> Result<()> {
        let ladder = channel(self.alloc, &mut self.tracks)?;
        self.filling = Some(Filling::new(self.alloc, ladder)?);
        Ok(())
    }

    // Adds a fragment to the catalog.
    fn add(&mut self, words: &Words) -> Result<()> {
        let fragment = fragment(self.alloc, words)?;
        match &mut self.filling {
            Some(filling) => filling.add(self.alloc, fragment),
            None => bail!("no catalog"),
        }
    }

    // Fills the shelf with the catalog.
    fn fill<R: Wait>(&self, rt: &R, writer: &mut ShelfWriter, tale: &mut Tale) -> Result<()> {
        match &self.filling {
            Some(filling) => outcome(filling.fill(rt, &site(self.alloc), writer), tale),
            None => bail!("no catalog"),
        }
    }

    // Tells what is published so many times, to be learnt later.
    fn note(&mut self, writer: &mut ShelfWriter, times: u32) -> Result<()> {
        for _ in 0..times {
            self.notes.push(writer.tell())?;
        }
        Ok(())
    }

    // Lets a reader learn what was told last.
    fn learn(&mut self) -> Result<()> {
        match self.notes.pop() {
            Some(told) => self.seats.learn(told),
            None => bail!("nothing was told"),
        }
    }

    // Lets a reader learn what another shelf tells, on which the tracks before it are declared.
    fn stray<R: Threads + Wait>(&mut self, rt: &R, tale: &mut Tale) -> Result<()> {
        let ladder = channel(self.alloc, &mut self.tracks)?;
        let (mut writer, _readers) = make(rt, self.alloc, 1)?;
        let declared = declare(rt, self.alloc, &mut writer, ladder, tale);
        let learnt = self.seats.learn(writer.tell());
        writer.end(rt);
        declared?;
        learnt
    }

    // A step of the writer: the lines of a track; `catalog` of the tracks before it, `add` and a fragment, and `fill` with both; `declare`
    // of the tracks before it, and `keep` and a fragment, which put an entry; and `height`.
    fn write<R: Threads + Wait>(
        &mut self,
        rt: &R,
        writer: &mut ShelfWriter,
        line: &Line,
        words: &Words,
        tale: &mut Tale,
    ) -> Result<()> {
        match line.key() {
            "track" | "private" | "numbers" => {
                add_to(self.alloc, &mut self.tracks, line.key(), words)
            }
            "catalog" => self.begin(),
            "add" => self.add(words),
            "fill" => self.fill(rt, writer, tale),
            "declare" => {
                let ladder = channel(self.alloc, &mut self.tracks)?;
                declare(rt, self.alloc, writer, ladder, tale)
            }
            "keep" => {
                let fragment = fragment(self.alloc, words)?;
                keep(rt, self.alloc, writer, fragment, tale)
            }
            "height" => tale.count(writer.height()),
            _ => self.tell(rt, writer, line, words, tale),
        }
    }

    // A step of what is told: `tell`, which the reader whose turn it is learns at once; `note N`, which tells N times, and `learn`, by which
    // the reader learns what was told last and isn't learnt yet; and `stray`, by which it learns what another shelf tells, on which the
    // tracks before it are declared.
    fn tell<R: Threads + Wait>(
        &mut self,
        rt: &R,
        writer: &mut ShelfWriter,
        line: &Line,
        words: &Words,
        tale: &mut Tale,
    ) -> Result<()> {
        match line.key() {
            "tell" => self.seats.learn(writer.tell()),
            "note" => self.note(writer, words.short(0)?),
            "learn" => self.learn(),
            "stray" => self.stray(rt, tale),
            _ => bail!("no such step"),
        }
    }

    fn step<R: Threads + Wait>(
        &mut self,
        rt: &R,
        case: &Case<'_>,
        writer: &mut ShelfWriter,
        line: &Line,
        tale: &mut Tale,
    ) -> Result<()> {
        if is_quiet(line.key()) || line.key() == "readers" {
            return Ok(());
        }
        let words = case.words(self.alloc, line)?;
        if is_of_reader(line.key()) {
            return self.seats.step(rt, line, &words, tale);
        }
        self.write(rt, writer, line, &words, tale)
    }
}

fn steps<R: Threads + Wait>(
    rt: &R,
    case: &Case<'_>,
    writer: &mut ShelfWriter,
    stage: &mut Stage,
    tale: &mut Tale,
) -> Result<()> {
    for line in case.lines() {
        stage.step(rt, case, writer, line, tale)?;
    }
    Ok(())
}

// How many readers the row has: the number of the line `readers`, or one.
fn count_of_readers(alloc: Global, case: &Case<'_>) -> Result<u32>
    ensures some { IfOk result (λ count. 0 < count) }
    ensures few { IfOk result (λ count. count ≤ 16) }
{
    if !case.has("readers") {
        return Ok(1);
    }
    let count = case.words_of(alloc, "readers")?.short(0)?;
    if count == 0 || count > 16 {
        bail!("1 to 16 readers");
    }
    Ok(count)
}

/// Makes a shelf with as many readers as the line `readers` says, or one, and makes the steps of the row on it.
pub fn play<R: Threads + Wait>(
    rt: &R,
    alloc: Global,
    case: &Case<'_>,
    tale: &mut Tale,
) -> Result<()> {
    let count = count_of_readers(alloc, case)?;
    let (mut writer, readers) = make(rt, alloc, count)?;
    let mut stage = Stage::new(alloc, readers);
    let played = steps(rt, case, &mut writer, &mut stage, tale);
    writer.end(rt);
    played
}
