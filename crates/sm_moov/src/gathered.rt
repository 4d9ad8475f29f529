//! What several bodies say, one behind the other.
ghost use Rattle.std.specs.Prelude.{◌≡◌, [], None, Some, OnOk};
ghost use Rattle.std.specs.Option.{option_map};
ghost use Rattle.sm_model.specs.Moov.{joined, single};

use sm_model::NoMemory;
use std::alloc::Global;
use std::marker::Model;

/// Items so far, or that a body was malformed. Contracts see a list or none.
#[derive(Drop)]
pub struct Gathered<T> {
    items: Vec<T>,
    malformed: bool,
}

impl<T> Model for Gathered<T> {
    ghost use Rattle.std.specs.Prelude.{List, Option, None, Some, if◌then◌else◌};

    ghost Value = { Option (List T) };

    ghost view = { λ g. if g.malformed then None else Some g.items.items };
}

impl<T: Drop> Gathered<T> {
    pub fn new(alloc: Global) -> Gathered<T>
        ensures { result ≡ Some [] }
    {
        Gathered {
            items: Vec::new(alloc),
            malformed: false,
        }
    }

    /// What one more body says.
    pub fn add(&mut self, item: Option<T>) -> Result<(), NoMemory>
        ensures { OnOk result (self.new ≡ joined self.old (single item)) }
    {
        match item {
            Some(item) => self.items.push(item)?,
            None => self.malformed = true,
        }
        Ok(())
    }

    /// A body was malformed.
    pub fn spoil(&mut self)
        ensures { self.new ≡ None }
    {
        self.malformed = true;
    }

    pub fn into_items(self) -> Option<Vec<T>>
        ensures { option_map (λ v. v.items) result ≡ self }
    {
        if self.malformed {
            None
        } else {
            Some(self.items)
        }
    }
}
