//! The track of a fragment.
ghost use Rattle.std.specs.Prelude.{◌≡◌, IfOk};
ghost use Rattle.sm_push.specs.Header.{track_with, id_for, is_named};
ghost use Rattle.sm_push.specs.PushBoxes.{track_in};
ghost use Rattle.sm_push.specs.Steps.{defaults_in};

use crate::state::HeaderStage;
use sm_model::{Defaults, HeaderTrack, Name, NoMemory, is_same};
use std::alloc::Global;

pub(crate) const NO_DEFAULTS: Defaults = Defaults {
    duration: 0,
    size: 0,
    flags: 0,
};

// The track with this track_ID.
#[tactic(auto, using(crate::proofs::HeaderLemmas::track_here, crate::proofs::HeaderLemmas::track_on, crate::proofs::HeaderLemmas::track_end))]
fn track_with(
    alloc: Global,
    id: u32,
    tracks: &[HeaderTrack],
) -> Result<Option<HeaderTrack>, NoMemory>
    ensures { IfOk result (λ t. t ≡ track_with id tracks.now) }
{
    for track in tracks {
        if track.id == id {
            return Ok(Some(track.copy(alloc)?));
        }
    }
    Ok(None)
}

// The track of a track_ID: one of the header, and before a header came the one that the number stands for.
pub(crate) fn track_in(
    alloc: Global,
    stage: &HeaderStage,
    id: u32,
) -> Result<Option<HeaderTrack>, NoMemory>
    ensures { IfOk result (λ t. t ≡ track_in stage.now id) }
{
    match stage {
        HeaderStage::Complete(tracks) => track_with(alloc, id, tracks.as_slice()),
        HeaderStage::Gathering {
            manifest: _,
            moov: _,
        } => Ok(Some(HeaderTrack {
            id,
            stream: Name::of_track(alloc, id)?,
            bitrate: id,
            defaults: NO_DEFAULTS,
        })),
    }
}

#[tactic(auto, using(crate::proofs::HeaderLemmas::track_here, crate::proofs::HeaderLemmas::track_on, crate::proofs::HeaderLemmas::track_end))]
fn defaults_with(id: u32, tracks: &[HeaderTrack]) -> Defaults
    ensures { result ≡ defaults_in (track_with id tracks.now) }
{
    for track in tracks {
        if track.id == id {
            return track.defaults;
        }
    }
    NO_DEFAULTS
}

// The defaults of the track of a track_ID; zeros where there is none, and before a header came. It takes no memory.
pub(crate) fn defaults_of(stage: &HeaderStage, id: u32) -> Defaults
    ensures { result ≡ defaults_in (track_in stage.now id) }
{
    match stage {
        HeaderStage::Complete(tracks) => defaults_with(id, tracks.as_slice()),
        HeaderStage::Gathering {
            manifest: _,
            moov: _,
        } => NO_DEFAULTS,
    }
}

fn is_named(track: &HeaderTrack, stream: &Name, bitrate: u32) -> bool
    ensures { result ≡ is_named stream.now bitrate track.now }
{
    is_same(track.stream.as_bytes(), stream.as_bytes()) && track.bitrate == bitrate
}

// The track_ID of the track of this name and bitrate.
#[tactic(auto, using(crate::proofs::HeaderLemmas::name_here, crate::proofs::HeaderLemmas::name_on, crate::proofs::HeaderLemmas::name_end))]
pub(crate) fn id_for(stream: &Name, bitrate: u32, tracks: &[HeaderTrack]) -> Option<u32>
    ensures { result ≡ id_for stream.now bitrate tracks.now }
{
    for track in tracks {
        if is_named(track, stream, bitrate) {
            return Some(track.id);
        }
    }
    None
}
