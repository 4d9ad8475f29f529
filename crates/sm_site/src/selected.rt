//! What a site is selected with, and how often it was asked.
ghost use Rattle.std.specs.Prelude.{◌≡◌, None};
ghost use Rattle.std.specs.Option.{option_map};
ghost use Rattle.sm_site.specs.Meanings.{asked};

use crate::Selection;
use std::marker::Model;

/// What a site is selected with, if it is, and how often it was asked to be. The count stands still at the last value of 64 bits.
#[derive(Debug, Drop)]
pub struct Selected {
    selection: Option<Selection>,
    asks: u64,
}

impl Model for Selected {
    ghost use Rattle.sm_site.specs.Meanings.{Choice};

    ghost Value = { Choice };

    ghost view = { λ s. record { selection = s.selection; asks = s.asks } };
}

impl Selected {
    /// It was never asked.
    pub fn never() -> Selected
        ensures { result ≡ record { selection = None; asks = 0 } }
    {
        Selected {
            selection: None,
            asks: 0,
        }
    }

    /// It was asked once more, and is selected with this, or after a refusal with nothing.
    pub fn ask(&mut self, selection: Option<Selection>)
        ensures { self.new ≡ asked self.old selection }
    {
        self.asks = self.asks.saturating_add(1);
        self.selection = selection;
    }

    /// What it is selected with.
    pub fn selection(&self) -> Option<&Selection>
        ensures { option_map (λ x. x.now) result ≡ self.now.selection }
    {
        match &self.selection {
            Some(selection) => Some(selection),
            None => None,
        }
    }
}
