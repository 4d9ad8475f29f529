// What links have in common that take connections of the same listeners.
ghost use Rattle.std.specs.Prelude.{◌≡◌, ◌≤◌};

use crate::Viewers;
use std::alloc::{AllocError, Global};
use std::sync::Arc;
use std::sync::atomic::{AtomicBool, AtomicU64, Ordering};

/// What a link has in common with others that listen at the same place, each in a thread of its own.
///
/// A link takes so many connections, and leaves further ones to those that have fewer; only while all have as many it takes more. So one is
/// refused where none of them has room, and nowhere else. What waits for the peers of all links is no more than one of them may have, but
/// for the equal part of each, which it has whatever waits for the others. Each link ends once a flag is raised.
#[derive(Drop)]
pub struct Sharing {
    most: usize,
    links: u64,
    // How many of the links have as many connections.
    full: Arc<AtomicU64>,
    // How many bytes wait for the peers of all links, and what was told there of this one's.
    waiting: Arc<AtomicU64>,
    waits: u64,
    ending: Arc<AtomicBool>,
    // This one counts among them.
    counted: bool,
    viewers: Viewers,
    // What was told of this one's connections, and what is still to be told of its replies.
    told: u64,
    replies: u64,
}

impl Sharing {
    /// That of the first of so many links, each for so many connections at most. They end once this flag is raised, and are counted there.
    pub fn new(
        alloc: Global,
        links: u64,
        most: usize,
        ending: Arc<AtomicBool>,
        viewers: Viewers,
    ) -> Result<Sharing, AllocError> {
        viewers.begin(links);
        Ok(Sharing {
            most,
            links,
            full: Arc::new(alloc, AtomicU64::new(0))?,
            waiting: Arc::new(alloc, AtomicU64::new(0))?,
            waits: 0,
            ending,
            counted: false,
            viewers,
            told: 0,
            replies: 0,
        })
    }

    /// That of one more of the links.
    pub fn another(&self) -> Result<Sharing, AllocError> {
        Ok(Sharing {
            most: self.most,
            links: self.links,
            full: Arc::try_clone(&self.full)?,
            waiting: Arc::try_clone(&self.waiting)?,
            waits: 0,
            ending: Arc::try_clone(&self.ending)?,
            counted: false,
            viewers: self.viewers.copy()?,
            told: 0,
            replies: 0,
        })
    }

    /// How many links there are.
    pub fn links(&self) -> u64
        ensures { result ≡ self.now.links }
    {
        self.links
    }

    /// Whether the link is to end.
    pub fn is_over(&self) -> bool {
        self.ending.load(Ordering::SeqCst)
    }

    /// Whether a link that has so many connections takes one more.
    pub fn takes(&mut self, connections: usize) -> bool {
        let is_full = connections >= self.most;
        if is_full != self.counted {
            self.counted = is_full;
            self.count(is_full);
        }
        !is_full || self.full.load(Ordering::SeqCst) >= self.links
    }

    /// How many bytes may wait for the peers of this link, where so many may for those of all: what the others leave, and the equal part of
    /// each link in any case.
    pub fn room(&self, whole: usize) -> usize
        ensures { result ≤ whole }
    {
        let all = self.waiting.load(Ordering::SeqCst);
        let others = all.saturating_sub(self.waits).min(whole as u64) as usize;
        let part = (whole as u64).checked_div(self.links).unwrap_or(0) as usize;
        (whole - others).max(part)
    }

    /// A reply went out, and so many bytes wait for the peers of this link.
    pub fn replied(&mut self, waiting: usize) {
        self.replies = self.replies.saturating_add(1);
        self.wait(waiting);
    }

    /// The link has so many connections, which is told with its replies, and so many bytes wait for them.
    pub fn tell(&mut self, connections: usize, waiting: usize) {
        let open = connections as u64;
        self.viewers.tell(self.told, open, self.replies);
        self.told = open;
        self.replies = 0;
        self.wait(waiting);
    }

    // So many bytes wait for the peers of this link, in place of what was told before.
    fn wait(&mut self, waiting: usize) {
        let now = waiting as u64;
        if now > self.waits {
            self.waiting.fetch_add(now - self.waits, Ordering::SeqCst);
        }
        if now < self.waits {
            self.waiting.fetch_sub(self.waits - now, Ordering::SeqCst);
        }
        self.waits = now;
    }

    // One more of the links is full, or one less.
    fn count(&self, is_full: bool) {
        if is_full {
            self.full.fetch_add(1, Ordering::SeqCst);
        } else {
            self.full.fetch_sub(1, Ordering::SeqCst);
        }
    }
}
