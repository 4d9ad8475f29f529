//! The readers of live manifests and ladders.
ghost use Rattle.std.specs.Prelude.{◌≡◌, IfOk};
ghost use Rattle.sm_model.specs.Channels.{IsChannel, IsSmil};
ghost use Rattle.sm_smil.specs.LiveManifests.{IsLiveManifest, IsLadder};
ghost use Rattle.sm_model.specs.Gives.{Answers};
ghost use Rattle.sm_smil.specs.Answers.{WalkedOver};

use crate::judge::fault_of;
use crate::raw_track::Form;
use crate::track::{ladder_tracks, smil_tracks};
use crate::walk::Walk;
use sm_model::{Channel, NoMemory, Smil, Tag, TextFault};
use sm_tag::Tags;
use std::alloc::Global;

// Walks over the tags up to the end or one at fault, whose place it gives.
fn walk_over<'a>(
    alloc: Global,
    form: Form,
    mut tags: Tags<'a>,
) -> Result<(Walk, Option<u64>), NoMemory>
    ensures { IfOk result (λ x. WalkedOver form tags.entry x.0 x.1) }
{
    let mut walk = Walk::new(alloc);
    'tags: loop {
        let tag = tags.next(alloc)?;
        match tag {
            Tag::End => return Ok((walk, None)),
            Tag::Bad { at } => return Ok((walk, Some(at))),
            other => walk.step(alloc, form, other)?,
        }
    }
}

/// The tracks of the live server manifest of a push, behind the version and the flags of its box.
///
/// The outermost element is `smil`; each `video`, `audio` and `textstream` inside smil, body and switch is a track, and all
/// other elements are passed over with what they hold. The bitrate is the attribute `systemBitrate`, else the param of that
/// name. A track without `trackName` is named by its kind. Params that aren't read are passed over, `TimeScale` too.
pub fn read_live_manifest(alloc: Global, text: &[u8]) -> Result<Smil, TextFault>
    ensures read { Answers result (IsLiveManifest text.now) }
    ensures valid { IfOk result IsSmil }
{
    let (walk, bad) = walk_over(alloc, Form::Pushed, Tags::new(alloc, text))?;
    if let Some(at) = fault_of(Form::Pushed, text.len() as u64, bad, &walk) {
        return Err(TextFault::Bad { at });
    }
    Ok(Smil::from_vec(smil_tracks(alloc, walk.done())?))
}

/// The channel of a ladder: a live manifest whose tracks need no `trackID`, and may say a `TimeScale` in ticks a second, which
/// is 10,000,000 by default.
pub fn read_ladder(alloc: Global, text: &[u8]) -> Result<Channel, TextFault>
    ensures read { Answers result (IsLadder text.now) }
    ensures valid { IfOk result IsChannel }
{
    let (walk, bad) = walk_over(alloc, Form::Ladder, Tags::new(alloc, text))?;
    if let Some(at) = fault_of(Form::Ladder, text.len() as u64, bad, &walk) {
        return Err(TextFault::Bad { at });
    }
    Ok(Channel::from_vec(ladder_tracks(alloc, walk.done())?))
}
