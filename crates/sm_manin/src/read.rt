//! The reader of manifests.
ghost use Rattle.std.specs.Prelude.{◌≡◌, IfOk};
ghost use Rattle.sm_manin.specs.ManifestRead.{IsManifest};
ghost use Rattle.sm_model.specs.Gives.{Answers};
ghost use Rattle.sm_manin.specs.Answers.{WalkedOver};

use crate::judge::fault_of;
use crate::listing::Listing;
use crate::values::read_of;
use crate::walk::Walk;
use sm_model::{NoMemory, Tag, TextFault};
use sm_tag::Tags;
use std::alloc::Global;

/// Walks over the tags up to the end or one at fault, whose place it gives.
pub fn walk_over<'a>(alloc: Global, mut tags: Tags<'a>) -> Result<(Walk, Option<u64>), NoMemory>
    ensures { IfOk result (λ x. WalkedOver tags.entry x.0 x.1) }
{
    let mut walk = Walk::new(alloc);
    'tags: loop {
        let tag = tags.next(alloc)?;
        match tag {
            Tag::End => return Ok((walk, None)),
            Tag::Bad { at } => return Ok((walk, Some(at))),
            other => walk.step(alloc, other)?,
        }
    }
}

/// What a manifest lists, or the least place of a fault: the place of the `<` of the element at fault, or the text's length
/// where the text ends too early ([MS-SSTR] 2.2.2).
pub fn read_manifest(alloc: Global, text: &[u8]) -> Result<Listing, TextFault>
    ensures { Answers result (IsManifest text.now) }
{
    let (walk, bad) = walk_over(alloc, Tags::new(alloc, text))?;
    match fault_of(bad, &walk) {
        Some(at) => Err(TextFault::Bad { at }),
        None => Ok(read_of(alloc, &walk)?),
    }
}
