//! The header of a push, out of a live manifest and a `moov`.
ghost use Rattle.std.specs.Prelude.{◌≡◌, length, IfOk};
ghost use Rattle.sm_push.specs.Header.{head_for, heads_for, tracks_of, keys_of, is_off, has_two_timescales, names_protected, header_with, header_of};
ghost use Rattle.sm_smil.specs.LiveRead.{live_manifest};
ghost use Rattle.sm_model.specs.Moov.{moov};
ghost use Rattle.std.specs.List.{list_any};
ghost use Rattle.sm_model.specs.Gives.{Gives};
ghost use Rattle.sm_push.specs.Answers.{Reads};

use sm_model::{
    Cause, Channel, Header, HeaderTrack, HeaderTracks, Heads, NoMemory, ReadFault, Smil, SmilTrack,
    TextFault, Track, TrackHead, is_same,
};
use sm_moov::read_moov;
use sm_smil::{live_manifest_has_one_answer, read_live_manifest};
use std::alloc::Global;

// The head of the track with this track_ID.
#[tactic(auto, using(crate::proofs::HeaderLemmas::head_here, crate::proofs::HeaderLemmas::head_on, crate::proofs::HeaderLemmas::head_end))]
fn head_for(id: u32, heads: &[TrackHead]) -> Option<TrackHead>
    ensures { result ≡ head_for id heads.now }
{
    for head in heads {
        if head.id == id {
            return Some(*head);
        }
    }
    None
}

// The head of each track, where each has one.

fn heads_for(
    alloc: Global,
    heads: &[TrackHead],
    tracks: &[SmilTrack],
) -> Result<Option<Heads>, NoMemory>
    ensures { IfOk result (λ hs. hs ≡ heads_for heads.now tracks.now) }
{
    let mut found = Vec::with_capacity(alloc, tracks.len())?;
    for track in tracks {
        match head_for(track.id, heads) {
            Some(head) => found.push(head)?,
            None => return Ok(None),
        }
    }
    Ok(Some(Heads::from_vec(found)))
}

// The tracks with their timescales.
#[tactic(auto, using(crate::proofs::HeaderLemmas::tracks_on, crate::proofs::HeaderLemmas::tracks_all))]
fn tracks_of(alloc: Global, tracks: &[SmilTrack], heads: &[TrackHead]) -> Result<Channel, NoMemory>
    requires { length heads.now ≡ length tracks.now }
    ensures { IfOk result (λ c. c ≡ tracks_of tracks.now heads.now) }
{
    let mut timed = Vec::with_capacity(alloc, tracks.len())?;
    for i in 0..tracks.len() {
        let mut track = tracks[i].track.copy(alloc)?;
        track.timescale = heads[i].timescale;
        timed.push(track)?;
    }
    Ok(Channel::from_vec(timed))
}

fn key_of(alloc: Global, track: &SmilTrack, head: &TrackHead) -> Result<HeaderTrack, NoMemory>
    ensures { IfOk result (λ k. k ≡ Rattle.sm_push.specs.Header.key_of track.now head.now) }
{
    Ok(HeaderTrack {
        id: track.id,
        stream: track.track.name.copy(alloc)?,
        bitrate: track.track.bitrate,
        defaults: head.defaults,
    })
}

// What their fragments need of the tracks.
#[tactic(auto, using(crate::proofs::HeaderLemmas::keys_on, crate::proofs::HeaderLemmas::keys_all))]
fn keys_of(
    alloc: Global,
    tracks: &[SmilTrack],
    heads: &[TrackHead],
) -> Result<HeaderTracks, NoMemory>
    requires { length heads.now ≡ length tracks.now }
    ensures { IfOk result (λ ks. ks ≡ keys_of tracks.now heads.now) }
{
    let mut keys = Vec::with_capacity(alloc, tracks.len())?;
    for i in 0..tracks.len() {
        keys.push(key_of(alloc, &tracks[i], &heads[i])?)?;
    }
    Ok(HeaderTracks::from_vec(keys))
}

fn is_off(a: &Track, b: &Track) -> bool
    ensures { result ≡ is_off a.now b.now }
{
    is_same(a.name.as_bytes(), b.name.as_bytes()) && a.timescale != b.timescale
}

fn is_off_any(track: &Track, tracks: &[Track]) -> bool
    ensures { result ≡ list_any (is_off track.now) tracks.now }
{
    tracks.iter().any(|other| is_off(track, other))
}

#[tactic(auto, using(crate::proofs::HeaderLemmas::off_here, crate::proofs::HeaderLemmas::off_on, crate::proofs::HeaderLemmas::off_all))]
fn has_two_timescales(tracks: &[Track]) -> bool
    ensures { result ≡ has_two_timescales tracks.now }
{
    for i in 0..tracks.len() {
        let (_, others) = tracks.split_at(i + 1);
        if is_off_any(&tracks[i], others) {
            return true;
        }
    }
    false
}

fn is_protected(heads: &[TrackHead]) -> bool
    ensures { result ≡ names_protected heads.now }
{
    heads.iter().any(|head| head.protected)
}

#[tactic(auto, unfolding(crate::specs::Header::header_with))]
fn header_with(
    alloc: Global,
    tracks: &[SmilTrack],
    heads: &[TrackHead],
) -> Result<Header, ReadFault>
    requires { length heads.now ≡ length tracks.now }
    ensures { Gives result (header_with tracks.now heads.now) }
{
    let channel = tracks_of(alloc, tracks, heads)?;
    if has_two_timescales(channel.as_slice()) {
        return Err(ReadFault::Refused(Cause::BadMoov));
    }
    if is_protected(heads) {
        return Err(ReadFault::Refused(Cause::Protected));
    }
    Ok(Header {
        channel,
        tracks: keys_of(alloc, tracks, heads)?,
    })
}

// The tracks of a live manifest.
fn read_tracks(alloc: Global, text: &[u8]) -> Result<Smil, ReadFault>
    ensures { Reads result (live_manifest text.now) }
{
    live_manifest_has_one_answer();
    match read_live_manifest(alloc, text) {
        Ok(smil) => Ok(smil),
        Err(TextFault::Bad { at }) => {
            Err(ReadFault::Refused(Cause::BadLiveManifest { inside: at }))
        }
        Err(TextFault::NoMemory) => Err(ReadFault::NoMemory),
    }
}

// The header of the text of a live manifest and the body of a `moov`, or the first cause why it is refused.
#[tactic(auto, using(crate::proofs::HeaderLemmas::as_many), unfolding(crate::specs::Header::header_of))]
pub(crate) fn read_header(alloc: Global, text: &[u8], moov: &[u8]) -> Result<Header, ReadFault>
    ensures { Gives result (header_of text.now moov.now) }
{
    let smil = read_tracks(alloc, text)?;
    match read_moov(alloc, moov) {
        Ok(heads) => match heads_for(alloc, heads.as_slice(), smil.as_slice())? {
            Some(found) => header_with(alloc, smil.as_slice(), found.as_slice()),
            None => Err(ReadFault::Refused(Cause::BadMoov)),
        },
        Err(ReadFault::Refused(_)) => Err(ReadFault::Refused(Cause::BadMoov)),
        Err(ReadFault::NoMemory) => Err(ReadFault::NoMemory),
    }
}
