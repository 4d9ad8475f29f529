//! Where viewers are answered, and how often that was asked for.
ghost use Rattle.std.specs.Prelude.{◌≡◌, None};
ghost use Rattle.sm_players.specs.Wiring.{rewired};

use crate::wiring::Wiring;
use std::marker::Model;

/// Where the wires of players are, if there are any, and how often they were asked for. The count stands still at the last value of 64 bits.
#[derive(Debug, Drop)]
pub struct Wired {
    wires: Option<Wiring>,
    asks: u64,
}

impl Model for Wired {
    ghost use Rattle.sm_players.specs.Wiring.{Wired as WiredSeen};

    ghost Value = { WiredSeen };

    ghost view = { λ w. record { wires = w.wires; asks = w.asks } };
}

impl Wired {
    /// None were asked for.
    pub fn never() -> Wired
        ensures { result ≡ record { wires = None; asks = 0 } }
    {
        Wired {
            wires: None,
            asks: 0,
        }
    }

    /// Wires were asked for once more, and are there, or after a refusal nowhere.
    pub fn ask(&mut self, wires: Option<Wiring>)
        ensures { self.new ≡ rewired self.old wires }
    {
        self.asks = self.asks.saturating_add(1);
        self.wires = wires;
    }
}
