// What players in other threads tell the journal of the loop.

use std::alloc::{AllocError, Global};
use std::sync::Arc;
use std::sync::atomic::{AtomicU64, Ordering};

/// What viewers come to who are answered by players, for the journal of the loop. Copies count together; no clause says what another thread
/// counted.
#[derive(Drop)]
pub struct Viewers {
    // Of how many players; 0 until there are any.
    players: Arc<AtomicU64>,
    connections: Arc<AtomicU64>,
    replies: Arc<AtomicU64>,
}

/// How many connections viewers have, and how many replies they got since that was asked last.
#[derive(Clone, Copy)]
pub struct Seen {
    pub connections: u64,
    pub replies: u64,
}

impl Viewers {
    /// No players, and no viewers.
    pub fn new(alloc: Global) -> Result<Viewers, AllocError> {
        Ok(Viewers {
            players: Arc::new(alloc, AtomicU64::new(0))?,
            connections: Arc::new(alloc, AtomicU64::new(0))?,
            replies: Arc::new(alloc, AtomicU64::new(0))?,
        })
    }

    /// The same counts.
    pub fn copy(&self) -> Result<Viewers, AllocError> {
        Ok(Viewers {
            players: Arc::try_clone(&self.players)?,
            connections: Arc::try_clone(&self.connections)?,
            replies: Arc::try_clone(&self.replies)?,
        })
    }

    /// There are so many players.
    pub fn begin(&self, players: u64) {
        self.players.store(players, Ordering::SeqCst);
    }

    /// One player, which had so many connections, has so many now, and gave so many replies.
    pub fn tell(&self, before: u64, now: u64, replies: u64) {
        if now > before {
            self.connections.fetch_add(now - before, Ordering::SeqCst);
        }
        if now < before {
            self.connections.fetch_sub(before - now, Ordering::SeqCst);
        }
        if replies > 0 {
            self.replies.fetch_add(replies, Ordering::SeqCst);
        }
    }

    /// What there is to tell, where there are players.
    pub fn seen(&self) -> Option<Seen> {
        if self.players.load(Ordering::SeqCst) == 0 {
            return None;
        }
        Some(Seen {
            connections: self.connections.load(Ordering::SeqCst),
            replies: self.replies.swap(0, Ordering::SeqCst),
        })
    }
}
