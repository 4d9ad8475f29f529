//! Steps on two sites of this machine.

use crate::ends::{is_of_disk, is_of_link, on_disk, on_link};
use crate::journals;
use crate::names::Names;
use crate::peers::{Peers, is_of_peer};
use crate::places::{Place, local};
use anyhow::{Result, bail};
use sm_real::{RealSite, Trouble};
use sm_rows::scripts::is_quiet;
use sm_rows::tales::Tale;
use sm_rows::{Case, Line, Words};
use sm_site::{Selection, Site, SiteError};
use std::alloc::Global;
use std::fs::{self, File};
use std::net::{Net, TcpListener, TcpStream};
use std::rt::Files;
use std::time::Clock;

// Two sites: steps are on the one in front. They have one folder, one port and one journal in common.
#[derive(Drop)]
struct Scene<
    R: Files<File = File>
        + Net<Listener = TcpListener, Stream = TcpStream>
        + Clock
        + AllocGlobal
        + Copy
        + Drop,
> {
    rt: R,
    alloc: Global,
    place: Place,
    site: RealSite<R>,
    other: RealSite<R>,
    // Who has the port, if it isn't free.
    holder: Option<TcpListener>,
    port: u16,
    peers: Peers,
}

// Whether this word is among them.
fn has(words: &Words, word: &str) -> Result<bool> {
    for at in 0..words.len() {
        if words.text(at)? == word {
            return Ok(true);
        }
    }
    Ok(false)
}

// The text behind a word, where it is among them.
fn behind(alloc: Global, words: &Words, word: &str) -> Result<Option<String>> {
    for at in 0..words.len() {
        if words.text(at)? == word {
            let text = words.text(at.saturating_add(1))?;
            return Ok(Some(String::from_str(alloc, text)?));
        }
    }
    Ok(None)
}

fn select<S: Site>(site: &mut S, selection: Selection) -> &'static str {
    match site.select(selection) {
        Ok(()) => "done",
        Err(SiteError::Disk) => "disk",
        Err(SiteError::Link) => "link",
        Err(SiteError::NoMemory) => "out of memory",
    }
}

impl<
    R: Files<File = File>
        + Net<Listener = TcpListener, Stream = TcpStream>
        + Clock
        + AllocGlobal
        + Copy
        + Drop,
> Scene<R> {
    fn new(rt: R, alloc: Global, place: Place) -> Result<Scene<R>> {
        let holder = place.listen(&rt)?;
        let port = holder.local_addr()?.port();
        Ok(Scene {
            rt,
            alloc,
            place,
            site: RealSite::new(rt, alloc),
            other: RealSite::new(rt, alloc),
            holder: Some(holder),
            port,
            peers: Peers::new(alloc),
        })
    }

    fn selection(&self, words: &Words) -> Result<Selection> {
        let journal = if has(words, "journal")? {
            Some(self.place.journal(self.alloc)?)
        } else {
            None
        };
        Ok(Selection {
            store: self.place.store(self.alloc)?,
            make: !has(words, "found")?,
            port: if has(words, "port")? { self.port } else { 0 },
            bind: behind(self.alloc, words, "bind")?,
            journal,
        })
    }

    fn names(&self) -> Result<Names> {
        let port = self.port;
        let mut names = Names::new(self.alloc);
        names.add(self.place.store(self.alloc)?, "STORE")?;
        names.add(format!(in self.alloc; "{port}")?, "PORT")?;
        self.peers.add_names(&mut names)?;
        Ok(names)
    }

    fn tell(&self, trouble: Option<Trouble>, tale: &mut Tale) -> Result<()> {
        match trouble {
            Some(trouble) => {
                let text = format!(in self.alloc; "{trouble}")?;
                tale.say(self.names()?.told(text.as_str())?.as_str())
            }
            None => tale.say("none"),
        }
    }

    // Tells the journal.
    fn journal(&self, tale: &mut Tale) -> Result<()> {
        let path = self.place.journal(self.alloc)?;
        let journal = fs::read_to_string(&self.rt, path.as_str())?;
        let told = journals::told(self.alloc, &self.names()?, journal.as_str())?;
        tale.say(told.as_str())
    }

    // A step on both sites, or on what they have in common.
    fn step_beside(&mut self, line: &Line, words: &Words, tale: &mut Tale) -> Result<()> {
        match line.key() {
            "other" => std::mem::swap(&mut self.site, &mut self.other),
            "drop" => self.site = RealSite::new(self.rt, self.alloc),
            "free-port" => self.holder = None,
            "connect" => self.peers.connect(&self.rt, local(self.port))?,
            "remove-folder" => {
                let store = self.place.store(self.alloc)?;
                fs::remove_dir_all(&self.rt, store.as_str())?;
            }
            "journal" => self.journal(tale)?,
            key if is_of_peer(key) => self.peers.step(line, words, tale)?,
            _ => bail!("no such step"),
        }
        Ok(())
    }

    // A step on the site in front.
    fn step(&mut self, line: &Line, words: &Words, tale: &mut Tale) -> Result<()> {
        match line.key() {
            "select" => {
                let selection = self.selection(words)?;
                tale.say(select(&mut self.site, selection))
            }
            "disk-trouble" => self.tell(self.site.disk_trouble(), tale),
            "link-trouble" => self.tell(self.site.link_trouble(), tale),
            "end" => {
                self.site.end();
                Ok(())
            }
            key if is_of_disk(key) => on_disk(self.alloc, &mut self.site, line, words, tale),
            key if is_of_link(key) => on_link(self.alloc, &mut self.site, line, words, tale),
            _ => self.step_beside(line, words, tale),
        }
    }
}

/// What the steps of a row tell.
///
/// `select` is one of the site in front, at the folder of the row: with the word `found` that isn't made; with `port` it listens at a port that
/// is held by somebody else up to `free-port`, and with `bind` and a text at that address alone; and with `journal` it has a journal.
/// `disk-trouble` and `link-trouble` tell what the system said, and `end` ends the site; further steps are those of any disk or link, and of
/// peers that `connect`. `other` puts the other site in front, `drop` a new one in the place of the one in front; `remove-folder` removes the
/// folder, and `journal` tells what the journal has, with names in the place of what differs from run to run.
pub fn play<
    R: Files<File = File>
        + Net<Listener = TcpListener, Stream = TcpStream>
        + Clock
        + AllocGlobal
        + Copy
        + Drop,
>(rt: &R, alloc: Global, place: Place, case: &Case<'_>) -> Result<String> {
    let mut scene = Scene::new(*rt, alloc, place)?;
    let mut tale = Tale::new(alloc);
    for line in case.lines() {
        if !is_quiet(line.key()) {
            let words = case.words(alloc, line)?;
            scene.step(line, &words, &mut tale)?;
        }
    }
    Ok(tale.into_text())
}
