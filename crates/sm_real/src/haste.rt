// How long a dial waits, and how much of its owner's time it takes.

use std::time::{Duration, Instant};

// How much of a second a dial in haste may take, in milliseconds.
const MOST: u128 = 500;

// How long that second is, and how long the dial rests once it has taken so much, in milliseconds.
const WINDOW: u128 = 1_000;

// How long it rests behind an exchange that was lost, in milliseconds.
const REST: u128 = 2_000;

/// How long a dial waits.
#[derive(Clone, Copy)]
pub struct Waits {
    /// For a connection to an address that isn't the last one of its host, and to that one.
    pub soon: Duration,
    pub last: Duration,
    /// One look at what comes or goes, and how many of them may find that the peer takes nothing, or sends nothing.
    pub look: Duration,
    pub stuck: u64,
    pub silent: u32,
    /// How many seconds a reply may take, beside those that its bytes give.
    pub whole: u64,
}

impl Waits {
    /// Whoever pulls, plays or pushes has time.
    pub fn patient() -> Waits {
        Waits {
            soon: Duration::from_secs(3),
            last: Duration::from_secs(30),
            look: Duration::from_secs(1),
            stuck: 30,
            silent: 30,
            whole: 120,
        }
    }

    /// Others wait meanwhile.
    pub fn brief() -> Waits {
        Waits {
            soon: Duration::from_millis(700),
            last: Duration::from_millis(700),
            look: Duration::from_millis(700),
            stuck: 1,
            silent: 1,
            whole: 1,
        }
    }
}

/// The share of its owner's time that a dial in haste has. Where its exchanges took half of a second, it rests for the next one; behind one that
/// was lost it rests for two.
#[derive(Drop)]
pub struct Share {
    since: Option<Instant>,
    taken: u128,
    resting: Option<Instant>,
    rest: u128,
}

impl Share {
    /// Nothing was taken yet.
    pub fn new() -> Share {
        Share {
            since: None,
            taken: 0,
            resting: None,
            rest: 0,
        }
    }

    /// Whether it rests at this moment.
    pub fn rests(&self, now: Instant) -> bool {
        match self.resting {
            Some(since) => now.saturating_duration_since(since).as_millis() < self.rest,
            None => false,
        }
    }

    /// An exchange was made between these moments, and was lost or not.
    pub fn take(&mut self, begun: Instant, now: Instant, is_lost: bool) {
        let took = now.saturating_duration_since(begun).as_millis();
        match self.since {
            Some(since) if now.saturating_duration_since(since).as_millis() < WINDOW => {
                self.taken = self.taken.saturating_add(took);
            }
            Some(_) | None => {
                self.since = Some(begun);
                self.taken = took;
            }
        }
        if is_lost {
            self.rest_from(now, REST);
        } else if self.taken >= MOST {
            self.rest_from(now, WINDOW);
        }
    }

    fn rest_from(&mut self, now: Instant, rest: u128) {
        self.since = None;
        self.taken = 0;
        self.resting = Some(now);
        self.rest = rest;
    }
}
