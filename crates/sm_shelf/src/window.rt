//! The last fragments.
ghost use Rattle.std.specs.Prelude.{◌≡◌, ◌↔◌, ◌≤◌, ◌<◌, ◌∷◌, ◌++◌, [], All, IsTrue, IfOk, OnOk, OnErr, Some, length, slice_get};
ghost use Rattle.std.specs.Arc.{arc_value};
ghost use Rattle.sm_model.specs.declared.fragment.Fragment.{Fragment};
ghost use Rattle.sm_model.specs.Entries.{address_of};
ghost use Rattle.sm_model.specs.Fragments.{IsValid};
ghost use Rattle.sm_log.specs.Digests.{bytes_of, window_of};
ghost use Rattle.sm_shelf.specs.Parts.{held_in};

use sm_model::{Address, Fragment, NoMemory};
use std::alloc::Global;
use std::collections::VecDeque;
use std::marker::Model;
use std::sync::Arc;

/// The last fragments, whose samples have at most 67,108,864 bytes together. Each is a block that may have several owners.
#[derive(Drop)]
pub struct Window {
    blocks: VecDeque<Arc<Fragment>>,
    bytes: u64,
}

impl Model for Window {
    ghost use Rattle.std.specs.Prelude.{List};
    ghost use Rattle.sm_model.specs.declared.fragment.Fragment.{Fragment};
    ghost use Rattle.sm_shelf.specs.Parts.{held_in, IsWindow};

    ghost Value = { List Fragment };

    ghost view = { λ w. held_in w.blocks.items };

    ghost invariant = { λ w. IsWindow (held_in w.blocks.items) w.bytes };
}

// Drops the first ones, until the samples of the others have at most 67,108,864 bytes. Gives how many bytes they have.
fn trim(blocks: &mut VecDeque<Arc<Fragment>>, bytes: u64) -> u64
    requires bytes { bytes ≡ bytes_of (held_in blocks.old.items) }
    requires valid { All IsValid (held_in blocks.old.items) }
    ensures blocks { held_in blocks.new.items ≡ window_of (held_in blocks.old.items) }
    ensures bytes { result ≡ bytes_of (held_in blocks.new.items) }
    ensures short { result ≤ 67108864 }
    ensures valid { All IsValid (held_in blocks.new.items) }
{
    let mut left = bytes;
    while left > 67_108_864 {
        match blocks.pop_front() {
            Some(front) => left -= front.bytes(),
            None => return 0,
        }
    }
    left
}

impl Window {
    /// No fragment.
    pub fn new(alloc: Global) -> Window
        ensures { result ≡ [] }
    {
        Window {
            blocks: VecDeque::new(alloc),
            bytes: 0,
        }
    }

    /// How many fragments there are.
    pub fn len(&self) -> u64
        ensures { result ≡ length self.now }
    {
        self.blocks.len() as u64
    }

    /// The fragment at that index, from 0.
    pub fn block(&self, index: usize) -> &Arc<Fragment>
        requires { index < length self.now }
        ensures at { slice_get self.now index ≡ Some (arc_value result.now) }
        ensures valid { IsValid (arc_value result.now) }
    {
        &self.blocks[index]
    }

    /// Whether the fragment at that index stands at that address.
    pub fn has(&self, index: usize, address: &Address) -> bool
        requires { index < length self.now }
        ensures { IsTrue result ↔ ((f : Fragment) × (slice_get self.now index ≡ Some f) × (address_of f ≡ address.now)) }
    {
        self.block(index).is_at(address)
    }

    /// Puts a fragment behind the others, and drops the first ones which then do not fit. The block gets one owner more.
    pub fn push(&mut self, fragment: &Arc<Fragment>) -> Result<(), NoMemory>
        requires { IsValid (arc_value fragment.now) }
        ensures ok { OnOk result (self.new ≡ window_of (self.old ++ arc_value fragment.now ∷ [])) }
        ensures err { OnErr result (self.new ≡ self.old) }
    {
        let held = Arc::try_clone(fragment)?;
        let bytes = self.bytes + fragment.bytes();
        self.blocks.push_back(held)?;
        self.bytes = trim(&mut self.blocks, bytes);
        Ok(())
    }

    /// The same fragments, in the same blocks.
    pub fn copy(&self, alloc: Global) -> Result<Window, NoMemory>
        ensures { IfOk result (λ copy. copy ≡ self.now) }
    {
        let mut blocks = VecDeque::new(alloc);
        for i in 0..self.blocks.len() {
            blocks.push_back(Arc::try_clone(&self.blocks[i])?)?;
        }
        Ok(Window {
            blocks,
            bytes: self.bytes,
        })
    }
}

/// The end of these fragments that fits a window, each copied into a block of its own. Samples that have several owners are not copied.
pub fn window_of(alloc: Global, fragments: &[Fragment]) -> Result<Window, NoMemory>
    requires { All IsValid fragments.now }
    ensures { IfOk result (λ window. window ≡ window_of fragments.now) }
{
    let mut window = Window::new(alloc);
    for fragment in fragments {
        window.push(&Arc::new(alloc, fragment.copy(alloc)?)?)?;
    }
    Ok(window)
}
