//! What whole boxes give, and leave for later ones.
ghost use Rattle.std.specs.Prelude.{◌≡◌, ◌≤◌, length, drop, OnOk, OnErr, IfOk, Some};
ghost use Rattle.sm_model.specs.Boxes.{IsOneBox, box_of};
ghost use Rattle.sm_model.specs.Frag.{moof_run};
ghost use Rattle.sm_model.specs.Moov.{no_defaults};
ghost use Rattle.sm_push.specs.Header.{header_of};
ghost use Rattle.sm_model.specs.Items.{given_of};
ghost use Rattle.sm_model.specs.Items as items;
ghost use Rattle.sm_push.specs.Body.{header_in};
ghost use Rattle.sm_push.specs.PushBoxes.{taken, passed, awaiting, past, manifest_text, named, moof_taken, pending, track_in, mdat_taken, moov_taken, manifest_taken, header_taken};
ghost use Rattle.sm_push.specs.Steps.{Takes, HoldsBoxes, IsPending, track_for, defaults_in};
ghost use Rattle.sm_push.specs.Held.{most_of};

use crate::fault::{StepFault, refuse};
use crate::header::read_header;
use crate::state::{HeaderStage, PendingMoof, PushState, TopBox};
use crate::track::{NO_DEFAULTS, defaults_of, track_in};
use sm_model::law::{causes_are_without_defaults, read_is_sound, track_id_is_of_run};
use sm_model::{Bytes, Cause, Defaults, Fragment, HeaderTrack, Item, RawFragment, ReadFault, Run};
use sm_moof::{body_of, finish, read_moof, track_of};
use std::alloc::Global;
use std::mem;

/// An item, and with a fragment its track_ID.
#[derive(Debug, Drop)]
pub struct NewItem {
    pub item: Item,
    pub id: u32,
}

// Goes on behind a box of this size, in bytes.
pub(crate) fn pass(state: &mut PushState, size: u64)
    ensures { state.new ≡ passed state.old size }
{
    state.at = state.at.saturating_add(size);
}

// The text of a live server manifest box, behind the user type, and version and flags.
fn text_of(manifest: &[u8]) -> &[u8]
    requires { IsOneBox manifest.now }
    ensures { result.now ≡ manifest_text manifest.now }
{
    let body = body_of(manifest);
    if body.len() < 20 {
        return &[];
    }
    let (_, text) = body.split_at(20);
    text
}

// The defaults of the track that a `moof` names; zeros where the header has none.
fn defaults_for(stage: &HeaderStage, moof: &[u8]) -> Defaults
    requires { IsOneBox moof.now }
    ensures { result ≡ defaults_in (track_for stage.now moof.now) }
{
    match track_of(moof) {
        Some(id) => defaults_of(stage, id),
        None => NO_DEFAULTS,
    }
}

// Waits for the `mdat` of a `moof` that said this.
fn wait(state: &mut PushState, run: Run, size: u64, track: HeaderTrack)
    ensures { state.new ≡ awaiting state.old (Some (record { run = run; size = size; at = state.old.at; track = track })) size }
{
    state.moof = Some(PendingMoof {
        run,
        size,
        at: state.at,
        track,
    });
    pass(state, size);
}

// A `moof` is read once, with the defaults of the track that it names: no cause depends on them.
fn take_moof(
    alloc: Global,
    state: &mut PushState,
    whole: &[u8],
) -> Result<Option<NewItem>, StepFault>
    requires whole { IsOneBox whole.now }
    requires short { length whole.now ≤ most_of TopBox.Moof }
    requires boxes { HoldsBoxes state.old }
    ensures takes { Takes state.new result (moof_taken (moof_run no_defaults whole.now) state.old whole.now) }
    ensures boxes { OnOk result (HoldsBoxes state.new) }
    ensures header { OnErr result (header_in state.new.stage ≡ header_in state.old.stage) }
{
    causes_are_without_defaults();
    track_id_is_of_run();
    read_is_sound();
    let defaults = defaults_for(&state.stage, whole);
    match read_moof(alloc, whole, &defaults) {
        Ok(run) => match track_in(alloc, &state.stage, run.id)? {
            Some(track) => {
                wait(state, run, whole.len() as u64, track);
                Ok(None)
            }
            None => Err(refuse(state.at, Cause::UnknownTrack)),
        },
        Err(ReadFault::Refused(cause)) => Err(refuse(state.at, cause)),
        Err(ReadFault::NoMemory) => Err(StepFault::NoMemory),
    }
}

fn named(track: HeaderTrack, raw: RawFragment) -> NewItem
    ensures item { result.item ≡ Item.Frag (named track raw) }
    ensures id { result.id ≡ raw.id }
{
    NewItem {
        item: Item::Frag(Fragment {
            stream: track.stream,
            bitrate: track.bitrate,
            time: raw.time,
            duration: raw.duration,
            signed: raw.signed,
            samples: raw.samples,
        }),
        id: raw.id,
    }
}

fn take_mdat(
    alloc: Global,
    state: &mut PushState,
    whole: Bytes,
) -> Result<Option<NewItem>, StepFault>
    requires whole { IsOneBox whole }
    requires boxes { HoldsBoxes state.old }
    ensures takes { Takes state.new result (mdat_taken state.old.moof state.old whole) }
    ensures boxes { OnOk result (HoldsBoxes state.new) }
    ensures header { OnErr result (header_in state.new.stage ≡ header_in state.old.stage) }
{
    let size = whole.len();
    match mem::replace(&mut state.moof, None) {
        None => {
            pass(state, size);
            Ok(None)
        }
        Some(
            PendingMoof {
                run,
                size: lead,
                at,
                track,
            },
        ) => match finish(alloc, lead, whole.into_part(alloc)?, run) {
            Ok(raw) => {
                pass(state, size);
                Ok(Some(named(track, raw)))
            }
            Err(ReadFault::Refused(cause)) => Err(refuse(at, cause)),
            Err(ReadFault::NoMemory) => Err(StepFault::NoMemory),
        },
    }
}

// Both boxes of the header are there, and the later one has this size.
fn complete(
    alloc: Global,
    state: &mut PushState,
    manifest: &[u8],
    moov: &[u8],
    size: u64,
) -> Result<Option<NewItem>, StepFault>
    requires manifest { IsOneBox manifest.now }
    requires moov { IsOneBox moov.now }
    requires moof { IsPending state.old.moof }
    ensures takes { Takes state.new result (header_taken (header_of (manifest_text manifest.now) (box_of moov.now).body) state.old size) }
    ensures boxes { OnOk result (HoldsBoxes state.new) }
    ensures header { OnErr result (header_in state.new.stage ≡ header_in state.old.stage) }
{
    match read_header(alloc, text_of(manifest), body_of(moov)) {
        Ok(header) => {
            state.stage = HeaderStage::Complete(header.tracks);
            pass(state, size);
            Ok(Some(NewItem {
                item: Item::Header(header.channel),
                id: 0,
            }))
        }
        Err(ReadFault::Refused(cause)) => Err(refuse(state.at, cause)),
        Err(ReadFault::NoMemory) => Err(StepFault::NoMemory),
    }
}

fn nothing() -> HeaderStage
    ensures { result ≡ HeaderStage.Gathering None None }
{
    HeaderStage::Gathering {
        manifest: None,
        moov: None,
    }
}

fn take_moov(
    alloc: Global,
    state: &mut PushState,
    whole: Bytes,
) -> Result<Option<NewItem>, StepFault>
    requires whole { IsOneBox whole }
    requires short { length whole ≤ most_of TopBox.Moov }
    requires boxes { HoldsBoxes state.old }
    ensures takes { Takes state.new result (moov_taken state.old.stage state.old whole) }
    ensures boxes { OnOk result (HoldsBoxes state.new) }
    ensures header { OnErr result (header_in state.new.stage ≡ header_in state.old.stage) }
{
    let size = whole.len();
    match mem::replace(&mut state.stage, nothing()) {
        HeaderStage::Gathering { manifest, moov: _ } => match manifest {
            Some(manifest) => complete(alloc, state, manifest.as_slice(), whole.as_slice(), size),
            None => {
                state.stage = HeaderStage::Gathering {
                    manifest: None,
                    moov: Some(whole),
                };
                pass(state, size);
                Ok(None)
            }
        },
        HeaderStage::Complete(tracks) => {
            state.stage = HeaderStage::Complete(tracks);
            pass(state, size);
            Ok(None)
        }
    }
}

fn take_manifest(
    alloc: Global,
    state: &mut PushState,
    whole: Bytes,
) -> Result<Option<NewItem>, StepFault>
    requires whole { IsOneBox whole }
    requires short { length whole ≤ most_of TopBox.Manifest }
    requires boxes { HoldsBoxes state.old }
    ensures takes { Takes state.new result (manifest_taken state.old.stage state.old whole) }
    ensures boxes { OnOk result (HoldsBoxes state.new) }
    ensures header { OnErr result (header_in state.new.stage ≡ header_in state.old.stage) }
{
    let size = whole.len();
    match mem::replace(&mut state.stage, nothing()) {
        HeaderStage::Gathering { manifest: _, moov } => match moov {
            Some(moov) => complete(alloc, state, whole.as_slice(), moov.as_slice(), size),
            None => {
                state.stage = HeaderStage::Gathering {
                    manifest: Some(whole),
                    moov: None,
                };
                pass(state, size);
                Ok(None)
            }
        },
        HeaderStage::Complete(tracks) => {
            state.stage = HeaderStage::Complete(tracks);
            pass(state, size);
            Ok(None)
        }
    }
}

// Takes one whole box.
#[tactic(auto, unfolding(crate::specs::PushBoxes::taken))]
pub(crate) fn take(
    alloc: Global,
    state: &mut PushState,
    sort: TopBox,
    whole: Bytes,
) -> Result<Option<NewItem>, StepFault>
    requires whole { IsOneBox whole }
    requires short { length whole ≤ most_of sort }
    requires boxes { HoldsBoxes state.old }
    ensures takes { Takes state.new result (taken state.old sort whole) }
    ensures boxes { OnOk result (HoldsBoxes state.new) }
    ensures header { OnErr result (header_in state.new.stage ≡ header_in state.old.stage) }
{
    match sort {
        TopBox::Moof => take_moof(alloc, state, whole.as_slice()),
        TopBox::Mdat => take_mdat(alloc, state, whole),
        TopBox::Moov => take_moov(alloc, state, whole),
        TopBox::Manifest => take_manifest(alloc, state, whole),
        TopBox::Other => {
            pass(state, whole.len());
            Ok(None)
        }
    }
}
