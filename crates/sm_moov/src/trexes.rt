//! The `trex` boxes of a `moov`, which stand in its `mvex` boxes (ISO/IEC 14496-12, 8.8.1 and 8.8.3).
ghost use Rattle.std.specs.Prelude.{◌≡◌, ◌++◌, ◌∷◌, [], List, ℕ, Option, OnOk, IfOk};
ghost use Rattle.std.specs.Option.{option_map, option_and_then};
ghost use Rattle.sm_model.specs.declared.run.Defaults.{Defaults as DefaultsValue};
ghost use Rattle.sm_model.specs.Boxes.{Box, boxes};
ghost use Rattle.sm_model.specs.Moov.{joined, trex, trexes_in, mvex, trexes_of};

use crate::gathered::Gathered;
use sm_box::{Child, Children, u32_at};
use sm_model::{Defaults, NoMemory, is_same};
use std::alloc::Global;

/// A track_ID, and what holds for that track.
pub type Trex = (u32, Defaults);

/// What a `trex` says, where it is long enough.
#[tactic(auto, unfolding(sm_model::specs::Moov::trex))]
pub fn read_trex(body: &[u8]) -> Option<Trex>
    ensures { result ≡ trex body.now }
{
    if body.len() < 24 {
        return None;
    }
    let defaults = Defaults {
        duration: u32_at(body, 12),
        size: u32_at(body, 16),
        flags: u32_at(body, 20),
    };
    Some((u32_at(body, 4), defaults))
}

// One more child of an mvex.
fn add_trex(trexes: &mut Gathered<Trex>, kind: &[u8; 4], body: &[u8]) -> Result<(), NoMemory>
    ensures { (before : Option (List (ℕ × DefaultsValue))) (xs : List Box) (x : Box) → x.kind ≡ kind.now → x.body ≡ body.now
        → trexes.old ≡ joined before (trexes_in xs) → OnOk result (trexes.new ≡ joined before (trexes_in (xs ++ x ∷ []))) }
{
    if is_same(kind, b"trex") {
        trexes.add(read_trex(body))?;
    }
    Ok(())
}

// What one more mvex says.
#[tactic(auto, unfolding(sm_model::specs::Moov::mvex))]
fn add_mvex(trexes: &mut Gathered<Trex>, body: &[u8]) -> Result<(), NoMemory>
    ensures { OnOk result (trexes.new ≡ joined trexes.old (mvex body.now)) }
{
    let mut children = Children::new(body);
    'walk: loop {
        match children.next() {
            Child::Item {
                kind,
                at,
                body_at,
                size,
            } => add_trex(trexes, &kind, &body[body_at as usize..(at + size) as usize])?,
            Child::Done => return Ok(()),
            Child::Bad { at: _ } => {
                trexes.spoil();
                return Ok(());
            }
        }
    }
}

// One more child of a moov.
fn add_child(trexes: &mut Gathered<Trex>, kind: &[u8; 4], body: &[u8]) -> Result<(), NoMemory>
    ensures { (xs : List Box) (x : Box) → x.kind ≡ kind.now → x.body ≡ body.now
        → trexes.old ≡ trexes_of xs → OnOk result (trexes.new ≡ trexes_of (xs ++ x ∷ [])) }
{
    if is_same(kind, b"mvex") {
        add_mvex(trexes, body)?;
    }
    Ok(())
}

/// What all `mvex` boxes of a `moov` say.
pub fn read_trexes(alloc: Global, body: &[u8]) -> Result<Option<Vec<Trex>>, NoMemory>
    ensures { IfOk result (λ r. option_map (λ v. v.items) r ≡ option_and_then trexes_of (boxes body.now)) }
{
    let mut trexes = Gathered::new(alloc);
    let mut children = Children::new(body);
    'walk: loop {
        match children.next() {
            Child::Item {
                kind,
                at,
                body_at,
                size,
            } => add_child(
                &mut trexes,
                &kind,
                &body[body_at as usize..(at + size) as usize],
            )?,
            Child::Done => return Ok(trexes.into_items()),
            Child::Bad { at: _ } => return Ok(None),
        }
    }
}
