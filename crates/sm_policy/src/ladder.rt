//! The quality by what is known ahead.
ghost use Rattle.std.specs.Prelude.{◌≡◌, ◌-◌, ◌+◌, ◌≤◌, ℕ, List, min, length, nat_le};
ghost use Rattle.sm_policy.specs.declared.policy.Heard.{Heard};
ghost use Rattle.sm_policy.specs.Counts.{misses};

use crate::{Heard, Outcome, Policy};

/// The higher, the more starts are known ahead. It retires at its third miss.
#[derive(Clone, Copy, Debug)]
pub struct Ladder {
    missed: u8,
}

impl Ladder {
    /// Chooses as many places above the lowest as starts are known ahead, or the last where there are fewer.
    pub fn new() -> Ladder
        ensures picks { (hs : List Heard) (ladder : List ℕ) (ahead : ℕ) → ⟦<Ladder as Policy>⟧.pick_after result hs ladder ahead
            ≡ min ahead (length ladder - 1) }
        ensures retires { (hs : List Heard) → ⟦<Ladder as Policy>⟧.retired_after result hs ≡ nat_le 3 (misses hs) }
    {
        Ladder { missed: 0 }
    }
}

impl Policy for Ladder {
    ghost pick_after = { λ p hs ladder ahead. min ahead (length ladder - 1) };

    ghost retired_after = { λ p hs. nat_le 3 (p.missed + misses hs) };

    fn choose(&self, ladder: &[u32], ahead: u64) -> usize {
        (ahead as usize).min(ladder.len() - 1)
    }

    fn hear(&mut self, heard: Heard) {
        match heard.outcome {
            Outcome::Took { bytes: _ } => {}
            Outcome::Missed => self.missed = self.missed.saturating_add(1),
        }
    }

    fn retired(&self) -> bool {
        self.missed >= 3
    }
}
