// How fast the disk is.
ghost use Rattle.std.specs.Prelude.{◌≡◌, ◌≤◌, ◌+◌};

use std::time::{Duration, Instant};

// The least and the most that is soon done whatever it holds, in bytes.
const LEAST: u128 = 512;

const MOST: u128 = 65_536;

// What a piece may take, in bytes and microseconds: a fragment has 137 bytes at least and is brought to rest twice, and those of a
// piece are to take no longer than some 25 milliseconds.
const BYTES_TIMES_MICROS: u128 = 1_600_000;

// For how long the slowest is remembered, in milliseconds.
const MEMORY: u128 = 10_000;

/// How often something was brought to rest for a piece, and how long that took.
#[derive(Clone, Copy)]
pub struct Rests {
    pub count: u32,
    // All of them together, and the longest.
    whole: Duration,
    longest: Duration,
}

impl Rests {
    /// None.
    pub fn none() -> Rests {
        Rests {
            count: 0,
            whole: Duration::ZERO,
            longest: Duration::ZERO,
        }
    }

    /// One more, which took so long.
    pub fn add(&mut self, took: Duration) {
        self.count = self.count.saturating_add(1);
        self.whole = self.whole.saturating_add(took);
        self.longest = self.longest.max(took);
    }

    // How long one takes, in microseconds. The longest may be that of a long fragment, and is left out where there are others.
    fn each(&self) -> u128 {
        match self.count {
            0 | 1 => self.whole.as_micros(),
            count => self.whole.saturating_sub(self.longest).as_micros() / u128::from(count - 1),
        }
    }
}

/// How long it takes of late, at the most, to bring something to rest.
#[derive(Clone, Copy)]
pub struct Pace {
    // In microseconds; nothing was brought to rest yet where it is 0.
    slowest: u128,
    at: Instant,
}

impl Pace {
    /// Nothing was brought to rest yet.
    pub fn new(now: Instant) -> Pace {
        Pace {
            slowest: 0,
            at: now,
        }
    }

    /// The loop is done with a piece for which this was brought to rest.
    pub fn note(&mut self, now: Instant, rests: &Rests) {
        if rests.count == 0 {
            return;
        }
        let each = rests.each().max(1);
        let age = now.saturating_duration_since(self.at).as_millis();
        if each >= self.slowest || age >= MEMORY {
            self.slowest = each;
            self.at = now;
        }
    }

    /// How many bytes are soon done whatever they are, from 512 to 65,536.
    pub fn soon(&self) -> usize
        ensures least { 512 ≤ result }
        ensures most { result ≤ 65536 }
    {
        if self.slowest == 0 {
            return LEAST as usize;
        }
        (BYTES_TIMES_MICROS / self.slowest).max(LEAST).min(MOST) as usize
    }
}
