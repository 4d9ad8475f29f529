//! Where viewers are answered.
use std::marker::Model;

/// Where the wires of players are wanted. Contracts see the text as its bytes.
#[derive(Debug, Drop)]
pub struct Wiring {
    /// The port of the loop. Viewers are answered at the next one.
    pub port: u16,
    /// How many players there are, 1 to 16.
    pub players: u32,
    /// The one address to listen at, a literal of IPv4 or IPv6 without brackets, in place of all addresses of the machine.
    pub bind: Option<String>,
}

impl Model for Wiring {
    ghost use Rattle.sm_site.specs.Texts.{text_of};
    ghost use Rattle.sm_players.specs.Wiring.{Wires};

    ghost Value = { Wires };

    ghost view = { λ w. record { port = w.port; players = w.players; bind = text_of w.bind } };
}
