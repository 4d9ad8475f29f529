//! The readers of a row.
use crate::asking::{Answered, ask_fragment, ask_manifest};
use crate::watching::{Sight, Watched, start};
use anyhow::{Result, bail};
use sm_model::Text;
use sm_rows::stored::address;
use sm_rows::tales::Tale;
use sm_rows::{Line, Words};
use sm_shelf::{Readers, ShelfReader, Shown, Told};
use std::alloc::Global;
use std::thread::{JoinHandle, Threads};

/// The readers, of which one is asked, and those that watch.
#[derive(Drop)]
pub struct Seats {
    alloc: Global,
    idle: Vec<ShelfReader>,
    watching: Vec<JoinHandle<Watched>>,
}

// Tells a reply, or only its length.
fn tell_reply(alloc: Global, text: &Text, is_short: bool, tale: &mut Tale) -> Result<()> {
    let bytes = text.join(alloc)?;
    if is_short {
        return tale.count(bytes.len());
    }
    tale.text(bytes.as_slice())
}

fn tell(alloc: Global, shown: &Shown, is_short: bool, tale: &mut Tale) -> Result<()> {
    match shown {
        Shown::Reply(text) => tell_reply(alloc, text, is_short, tale),
        Shown::Forward => tale.say("forward"),
        Shown::NoMemory => tale.say("out of memory"),
    }
}

/// Whether a line asks a reader, or has readers watch.
pub fn is_of_reader(key: &str) -> bool {
    matches!(
        key,
        "manifest" | "ask" | "length" | "next" | "watch" | "watched"
    )
}

impl Seats {
    pub fn new(alloc: Global, readers: Readers) -> Seats {
        Seats {
            alloc,
            idle: readers.into_vec(),
            watching: Vec::new(alloc),
        }
    }

    // The reader whose turn it is.
    fn reader(&mut self) -> Result<ShelfReader> {
        match self.idle.pop() {
            Some(reader) => Ok(reader),
            None => bail!("no reader"),
        }
    }

    /// Lets the reader whose turn it is learn what was told. It learns here, and sees it in the thread in which it is asked next.
    pub fn learn(&mut self, told: Told) -> Result<()> {
        let mut reader = self.reader()?;
        reader.learn(told);
        self.idle.push(reader)?;
        Ok(())
    }

    // Takes the reader back, and tells what it answered.
    fn take(&mut self, answered: Answered, is_short: bool, tale: &mut Tale) -> Result<()> {
        let Answered { reader, shown } = answered;
        self.idle.push(reader)?;
        tell(self.alloc, &shown, is_short, tale)
    }

    fn manifest<R: Threads>(&mut self, rt: &R, tale: &mut Tale) -> Result<()> {
        let reader = self.reader()?;
        let answered = ask_manifest(rt, self.alloc, reader)?;
        self.take(answered, false, tale)
    }

    fn fragment<R: Threads>(
        &mut self,
        rt: &R,
        words: &Words,
        is_short: bool,
        tale: &mut Tale,
    ) -> Result<()> {
        let address = address(self.alloc, words)?;
        let reader = self.reader()?;
        let answered = ask_fragment(rt, self.alloc, reader, address)?;
        self.take(answered, is_short, tale)
    }

    // From now on it is the turn of the reader behind this one.
    fn turn(&mut self) -> Result<()> {
        let reader = self.reader()?;
        self.idle.insert(0, reader)?;
        Ok(())
    }

    // Lets all readers watch until they are shown so many times.
    fn watch<R: Threads>(&mut self, rt: &R, times: u64) -> Result<()> {
        for _ in 0..self.idle.len() {
            let Some(reader) = self.idle.pop() else {
                break;
            };
            self.watching.push(start(rt, self.alloc, reader, times)?)?;
        }
        Ok(())
    }

    // Waits for all of them, and tells how they ended.
    fn watched<R: Threads>(&mut self, rt: &R, tale: &mut Tale) -> Result<()> {
        for _ in 0..self.watching.len() {
            let Some(child) = self.watching.pop() else {
                break;
            };
            let watched = child.join(rt);
            self.idle.push(watched.reader)?;
            tale.say(match watched.sight {
                Sight::Rose => "rose",
                Sight::Fell => "fell",
                Sight::Lost => "lost",
            })?;
        }
        Ok(())
    }

    /// A step of a reader: `manifest`, `ask` and an address, or `length` and an address, which tells the length of the reply; `next`, from
    /// where on the next reader is asked; `watch N`, by which all readers ask for the manifest until it lists N times, and `watched`,
    /// which tells of each whether it never listed fewer than before.
    pub fn step<R: Threads>(
        &mut self,
        rt: &R,
        line: &Line,
        words: &Words,
        tale: &mut Tale,
    ) -> Result<()> {
        match line.key() {
            "manifest" => self.manifest(rt, tale),
            "next" => self.turn(),
            "watch" => self.watch(rt, words.number(0)?),
            "watched" => self.watched(rt, tale),
            key => self.fragment(rt, words, key == "length", tale),
        }
    }
}
