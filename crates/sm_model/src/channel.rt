//! Channels.
ghost use Rattle.std.specs.Prelude.{◌≡◌, ◌↔◌, ◌<◌, ℕ, IsTrue, All, AllPairs, length, slice_index_or, IfOk};
ghost use Rattle.sm_model.specs.declared.track.Track.{Track};
ghost use Rattle.sm_model.specs.Channels.{IsTrack, Agree, IsChannel};

use crate::{NoMemory, Track, is_fourcc};
use std::alloc::Global;
use std::marker::Model;

/// The tracks of a channel in their declared order, which contracts see as a list.
///
/// It is valid where it has 1 to 64 tracks, no two with equal name and bitrate, all tracks of one name have equal kind and
/// timescale, every timescale is at least 1, every FourCC is one, and no private data is longer than 32,768 bytes.
/// Every call but `copy` that takes a channel needs a valid one.
#[derive(Debug, Drop)]
pub struct Channel {
    items: Vec<Track>,
}

impl Model for Channel {
    ghost use Rattle.std.specs.Prelude.{List};
    ghost use Rattle.sm_model.specs.declared.track.Track.{Track};

    ghost Value = { List Track };

    ghost view = { λ c. c.items.items };
}

fn is_track(track: &Track) -> bool
    ensures { IsTrue result ↔ IsTrack track.now }
{
    0 < track.timescale && is_fourcc(track.fourcc.as_slice()) && track.private.len() <= 32768
}

// Whether two tracks may stand in one channel.
fn agree(a: &Track, b: &Track) -> bool
    ensures { IsTrue result ↔ Agree a.now b.now }
{
    a.name.as_bytes() != b.name.as_bytes()
        || (a.bitrate != b.bitrate && a.kind == b.kind && a.timescale == b.timescale)
}

fn are_tracks(tracks: &[Track]) -> bool
    ensures { IsTrue result ↔ All IsTrack tracks.now }
{
    for track in tracks {
        if !is_track(track) {
            return false;
        }
    }
    true
}

// Whether a track may stand behind all those before it.
fn agrees_before(tracks: &[Track], place: usize) -> bool
    requires { place < length tracks.now }
    ensures { IsTrue result ↔ ((k : ℕ) (d : Track) → k < place → Agree (slice_index_or tracks.now k d) (slice_index_or tracks.now place d)) }
{
    for i in 0..place {
        if !agree(&tracks[i], &tracks[place]) {
            return false;
        }
    }
    true
}

fn all_agree(tracks: &[Track]) -> bool
    ensures { IsTrue result ↔ AllPairs Agree tracks.now }
{
    for place in 0..tracks.len() {
        if !agrees_before(tracks, place) {
            return false;
        }
    }
    true
}

fn are_same(a: &[Track], b: &[Track]) -> bool
    ensures { IsTrue result ↔ (a.now ≡ b.now) }
{
    match (a, b) {
        ([], []) => true,
        ([first, rest @ ..], [other, others @ ..]) => first.is_same(other)
            && are_same(rest, others),
        ([], [_, ..]) | ([_, ..], []) => false,
    }
}

impl Channel {
    /// Whether it is valid. It looks at each pair of tracks once where there are at most 64, else at none.
    pub fn is_valid(&self) -> bool
        ensures { IsTrue result ↔ IsChannel self.now }
    {
        let tracks = self.as_slice();
        0 < tracks.len() && tracks.len() <= 64 && are_tracks(tracks) && all_agree(tracks)
    }

    /// These tracks, without a copy.
    pub fn from_vec(items: Vec<Track>) -> Channel
        ensures { result ≡ items.items }
    {
        Channel { items }
    }

    /// The tracks back, without a copy.
    pub fn into_vec(self) -> Vec<Track>
        ensures { result.items ≡ self }
    {
        self.items
    }

    /// The tracks, lent.
    pub fn as_slice(&self) -> &[Track]
        ensures { result.now ≡ self.now }
    {
        &self.items
    }

    /// How many tracks there are.
    pub fn len(&self) -> u64
        ensures { result ≡ length self.now }
    {
        self.items.len() as u64
    }

    /// Whether both have equal tracks in the same order.
    pub fn is_same(&self, other: &Channel) -> bool
        ensures { IsTrue result ↔ (self.now ≡ other.now) }
    {
        are_same(&self.items, &other.items)
    }

    /// Equal tracks.
    pub fn copy(&self, alloc: Global) -> Result<Channel, NoMemory>
        ensures { IfOk result (λ copy. copy ≡ self.now) }
    {
        let mut copies = Vec::with_capacity(alloc, self.items.len())?;
        for track in &self.items {
            copies.push(track.copy(alloc)?)?;
        }
        Ok(Channel { items: copies })
    }
}
