//! One quality.
ghost use Rattle.std.specs.Prelude.{◌≡◌, ◌-◌, ℕ, List, min, length, false};
ghost use Rattle.sm_policy.specs.declared.policy.Heard.{Heard};

use crate::{Heard, Policy};

/// One quality, whatever comes. It never retires.
#[derive(Clone, Copy, Debug)]
pub struct Fixed {
    level: usize,
}

impl Fixed {
    /// Chooses that place in the ladder, or the last where there are fewer.
    pub fn new(level: usize) -> Fixed
        ensures picks { (hs : List Heard) (ladder : List ℕ) (ahead : ℕ) → ⟦<Fixed as Policy>⟧.pick_after result hs ladder ahead
            ≡ min level (length ladder - 1) }
        ensures retires { (hs : List Heard) → ⟦<Fixed as Policy>⟧.retired_after result hs ≡ false }
    {
        Fixed { level }
    }
}

impl Policy for Fixed {
    ghost pick_after = { λ p hs ladder ahead. min p.level (length ladder - 1) };

    ghost retired_after = { λ p hs. false };

    fn choose(&self, ladder: &[u32], _ahead: u64) -> usize {
        self.level.min(ladder.len() - 1)
    }

    fn hear(&mut self, _heard: Heard) {}

    fn retired(&self) -> bool {
        false
    }
}
