//! The quality by what came of the requests before.
ghost use Rattle.std.specs.Prelude.{◌≡◌, ◌+◌, ◌-◌, ℕ, List, min, length, nat_le};
ghost use Rattle.sm_policy.specs.declared.policy.Heard.{Heard};
ghost use Rattle.sm_policy.specs.Counts.{misses, number_of};
ghost use Rattle.sm_policy.specs.Rungs.{level_after};

use crate::{Heard, Outcome, Policy};

/// A step up at each fourth fragment in a row that was taken, a step down at each miss, from the lowest quality on. It
/// retires at its third miss.
#[derive(Clone, Copy, Debug)]
pub struct Steps {
    level: u8,
    row: u8,
    missed: u8,
}

impl Steps {
    /// Chooses the place in the ladder that its number names, or the last where there are fewer. The number starts at 0,
    /// and stays between that and 63.
    pub fn new() -> Steps
        ensures picks { (hs : List Heard) (ladder : List ℕ) (ahead : ℕ) →
            ⟦<Steps as Policy>⟧.pick_after result hs ladder ahead ≡ min (number_of hs) (length ladder - 1) }
        ensures retires { (hs : List Heard) → ⟦<Steps as Policy>⟧.retired_after result hs ≡ nat_le 3 (misses hs) }
    {
        Steps {
            level: 0,
            row: 0,
            missed: 0,
        }
    }
}

impl Policy for Steps {
    ghost pick_after = { λ p hs ladder ahead. min (level_after p.level p.row hs) (length ladder - 1) };

    ghost retired_after = { λ p hs. nat_le 3 (p.missed + misses hs) };

    fn choose(&self, ladder: &[u32], _ahead: u64) -> usize {
        (self.level as usize).min(ladder.len() - 1)
    }

    fn hear(&mut self, heard: Heard) {
        match heard.outcome {
            Outcome::Took { bytes: _ } => {
                if self.row >= 3 {
                    self.row = 0;
                    self.level = if self.level < 63 { self.level + 1 } else { 63 };
                } else {
                    self.row += 1;
                }
            }
            Outcome::Missed => {
                self.row = 0;
                self.level = self.level.saturating_sub(1);
                self.missed = self.missed.saturating_add(1);
            }
        }
    }

    fn retired(&self) -> bool {
        self.missed >= 3
    }
}
