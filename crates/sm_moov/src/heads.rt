//! The tracks of a `moov`.
ghost use Rattle.std.specs.Prelude.{◌≡◌, ◌++◌, ◌∷◌, [], List, OnOk, IfOk};
ghost use Rattle.std.specs.Option.{option_map, option_and_then};
ghost use Rattle.sm_model.specs.Boxes.{Box, boxes};
ghost use Rattle.sm_model.specs.Moov.{traks_of};

use crate::gathered::Gathered;
use crate::trak::read_trak;
use sm_box::{Child, Children};
use sm_model::{NoMemory, TrackHead, is_same};
use std::alloc::Global;

// One more child of a moov.
fn add_child(heads: &mut Gathered<TrackHead>, kind: &[u8; 4], body: &[u8]) -> Result<(), NoMemory>
    ensures { (xs : List Box) (x : Box) → x.kind ≡ kind.now → x.body ≡ body.now
        → heads.old ≡ traks_of xs → OnOk result (heads.new ≡ traks_of (xs ++ x ∷ [])) }
{
    if is_same(kind, b"trak") {
        heads.add(read_trak(body))?;
    }
    Ok(())
}

/// What all `trak` boxes of a `moov` say.
pub fn read_heads(alloc: Global, body: &[u8]) -> Result<Option<Vec<TrackHead>>, NoMemory>
    ensures { IfOk result (λ r. option_map (λ v. v.items) r ≡ option_and_then traks_of (boxes body.now)) }
{
    let mut heads = Gathered::new(alloc);
    let mut children = Children::new(body);
    'walk: loop {
        match children.next() {
            Child::Item {
                kind,
                at,
                body_at,
                size,
            } => add_child(
                &mut heads,
                &kind,
                &body[body_at as usize..(at + size) as usize],
            )?,
            Child::Done => return Ok(heads.into_items()),
            Child::Bad { at: _ } => return Ok(None),
        }
    }
}
