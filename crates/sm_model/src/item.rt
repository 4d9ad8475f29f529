//! What a push gives.
ghost use Rattle.std.specs.Prelude.{◌≡◌, ◌++◌, [], ◌∷◌, length, map, OnOk, OnErr};
ghost use Rattle.sm_model.specs.Items.{given_of, item_of, id_at};

use crate::{Channel, Fragment, NoMemory};
use std::alloc::Global;
use std::marker::Model;

/// One thing that a push says. Contracts see a fragment with its track_ID.
#[derive(Debug, Drop)]
pub enum Item {
    /// The tracks that are pushed. They are a valid channel.
    Header(Channel),
    /// A valid fragment of one track.
    Frag(Fragment),
}

/// Items in the order of the bytes that gave them, which contracts see as a list. The track_IDs of the fragments stand
/// beside them.
#[derive(Debug, Drop)]
pub struct Items {
    items: Vec<Item>,
    ids: Vec<u32>,
}

impl Model for Items {
    ghost use Rattle.std.specs.Prelude.{◌≡◌, List, length};
    ghost use Rattle.sm_model.specs.Items.{Given, givens};

    ghost Value = { List Given };

    ghost view = { λ s. givens s.items.items s.ids.items };

    ghost invariant = { λ s. length s.items.items ≡ length s.ids.items };
}

impl Items {
    /// No items.
    #[tactic(auto, using(crate::proofs::ItemLemmas::none_given))]
    pub fn new(alloc: Global) -> Items
        ensures { result ≡ [] }
    {
        Items {
            items: Vec::new(alloc),
            ids: Vec::new(alloc),
        }
    }

    /// One item more at the end. `id` is the track_ID of a fragment, and isn't used with a header.
    #[tactic(auto, using(crate::proofs::ItemLemmas::given_more))]
    pub fn push(&mut self, item: Item, id: u32) -> Result<(), NoMemory>
        ensures ok { OnOk result (self.new ≡ self.old ++ given_of item id ∷ []) }
        ensures err { OnErr result (self.new ≡ self.old) }
    {
        self.ids.push(id)?;
        if let Err(_) = self.items.push(item) {
            self.ids.pop();
            return Err(NoMemory);
        }
        Ok(())
    }

    /// The items, without a copy and without the track_IDs.
    #[tactic(auto, using(crate::proofs::ItemLemmas::items_are))]
    pub fn into_vec(self) -> Vec<Item>
        ensures { result.items ≡ map item_of self }
    {
        self.items
    }

    /// The items, lent.
    #[tactic(auto, using(crate::proofs::ItemLemmas::items_are))]
    pub fn as_slice(&self) -> &[Item]
        ensures { result.now ≡ map item_of self.now }
    {
        &self.items
    }

    /// How many items there are.
    #[tactic(auto, using(crate::proofs::ItemLemmas::as_many))]
    pub fn len(&self) -> u64
        ensures { result ≡ length self.now }
    {
        self.items.len() as u64
    }

    /// The track_ID of the fragment at an index, counted from 0. None where a header stands there, and past the end.
    #[tactic(auto, using(crate::proofs::ItemLemmas::past_end, crate::proofs::ItemLemmas::beside_header, crate::proofs::ItemLemmas::beside_fragment))]
    pub fn id(&self, index: u64) -> Option<u32>
        ensures { result ≡ id_at self.now index }
    {
        if index >= self.items.len() as u64 {
            return None;
        }
        match &self.items[index as usize] {
            Item::Header(_) => None,
            Item::Frag(_) => Some(self.ids[index as usize]),
        }
    }
}
