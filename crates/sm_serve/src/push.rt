//! The push that is open on a connection.
ghost use Rattle.std.specs.Prelude.{◌<◌, ◌≤◌, ◌+◌, ◌++◌, ℕ, List, [], length, false};
ghost use Rattle.sm_push.specs.Body.{body};
ghost use Rattle.sm_push.specs.Standing.{Stands, Answers, Ends};
ghost use Rattle.sm_serve.specs.Pushes.{GivesValid};

use sm_model::Items;
use sm_push::{Push, PushFault, items_are_valid};
use std::alloc::Global;
use std::marker::Model;

/// A push that comes on a connection. All that it gives is valid.
#[derive(Drop)]
pub struct OpenPush {
    push: Push,
}

impl Model for OpenPush {
    ghost use Rattle.sm_push.specs.Standing.{Standing};
    ghost use Rattle.sm_serve.specs.Pushes.{IsPush};

    ghost Value = { Standing };

    ghost view = { λ p. p.push };

    ghost invariant = { λ p. IsPush p.push };
}

impl OpenPush {
    /// A push of which nothing came.
    pub fn new(alloc: Global) -> OpenPush
        ensures { Stands false result [] }
    {
        OpenPush {
            push: Push::new(alloc),
        }
    }

    /// Takes the next bytes of its body, and answers the headers and fragments that they complete.
    pub fn feed(&mut self, piece: &[u8]) -> Result<Items, PushFault>
        ensures answers { (b : List ℕ) → Stands false self.old b → Answers false b piece.now self.new result }
        ensures valid { GivesValid result }
    {
        items_are_valid();
        self.push.feed(piece)
    }

    /// A piece of so many bytes, or fewer, gives one item at the most.
    pub fn due(&self) -> u64
        ensures some { 0 < result }
        ensures few { (b piece : List ℕ) → Stands false self.now b → length piece ≤ result
            → length (body false (b ++ piece)).items ≤ length (body false b).items + 1 }
    {
        self.push.due()
    }

    /// Says whether the body may end here.
    pub fn end(&mut self) -> Result<(), PushFault>
        ensures { (b : List ℕ) → Stands false self.old b → Ends false b result }
    {
        self.push.end()
    }
}
