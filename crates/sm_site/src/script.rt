//! What a link in memory is to bring.
ghost use Rattle.std.specs.Prelude.{◌≡◌, length};

use crate::Event;
use std::marker::Model;

/// Events, in their order. Contracts see them as a list.
#[derive(Debug, Drop)]
pub struct Script {
    items: Vec<Event>,
}

impl Model for Script {
    ghost use Rattle.std.specs.Prelude.{List};
    ghost use Rattle.sm_site.specs.declared.event.Event.{Event};

    ghost Value = { List Event };

    ghost view = { λ s. s.items.items };
}

impl Script {
    /// These events, without a copy.
    pub fn from_vec(items: Vec<Event>) -> Script
        ensures { result ≡ items.items }
    {
        Script { items }
    }

    /// The events back, without a copy.
    pub fn into_vec(self) -> Vec<Event>
        ensures { result.items ≡ self }
    {
        self.items
    }

    /// The events, lent.
    pub fn as_slice(&self) -> &[Event]
        ensures { result.now ≡ self.now }
    {
        &self.items
    }

    /// How many events there are.
    pub fn len(&self) -> u64
        ensures { result ≡ length self.now }
    {
        self.items.len() as u64
    }
}
