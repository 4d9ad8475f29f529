//! The tracks of a channel in a manifest.
ghost use Rattle.std.specs.Prelude.{◌≡◌, ◌==◌, not, MatchOption};
ghost use Rattle.std.specs.Option.{option_map};
ghost use Rattle.std.specs.List.{list_any, position};
ghost use Rattle.sm_model.specs.Same.{is_same};
ghost use Rattle.sm_client.specs.Stands.{listed};
ghost use Rattle.sm_pull.specs.Tracks.{has_track, HasTracks, IsFirstMissing};

use sm_manin::{Level, Listing, StreamListing};
use sm_model::{Name, Track};

/// What a manifest lists of the stream of that name, if anything.
pub fn stream_of<'a>(listing: &'a Listing, name: &Name) -> Option<&'a StreamListing>
    ensures { option_map (λ s. s.now) result ≡ listed name.now listing.now.streams }
{
    listing
        .streams
        .as_slice()
        .iter()
        .find(|stream| stream.name == *name)
}

/// Whether one of these tracks has that name.
pub fn has_name(tracks: &[Track], name: &Name) -> bool
    ensures { result ≡ list_any (λ t. is_same t.name name.now) tracks.now }
{
    tracks.iter().any(|track| track.name == *name)
}

fn has_level(levels: &[Level], bitrate: u32) -> bool
    ensures { result ≡ list_any (λ l. l.bitrate == bitrate) levels.now }
{
    levels.iter().any(|level| level.bitrate == bitrate)
}

// Whether a manifest has the track: its stream with its timescale and its bitrate.
fn has_track(listing: &Listing, track: &Track) -> bool
    ensures { result ≡ has_track listing.now track.now }
{
    match stream_of(listing, &track.name) {
        Some(stream) => {
            stream.timescale == track.timescale
                && has_level(stream.levels.as_slice(), track.bitrate)
        }
        None => false,
    }
}

// The place of the first track that a manifest lacks.
fn missing_place(channel: &[Track], listing: &Listing) -> Option<usize>
    ensures { result ≡ position (λ t. not (has_track listing.now t)) channel.now }
{
    channel.iter().position(|track| !has_track(listing, track))
}

/// The place from 0 of the first track of a channel that a manifest lacks: it has no stream of its name, or one with another timescale
/// or without its bitrate. What else the manifest lists is no matter.
pub fn first_missing(channel: &[Track], listing: &Listing) -> Option<usize>
    ensures { MatchOption result (HasTracks listing.now channel.now) (IsFirstMissing listing.now channel.now) }
{
    missing_place(channel, listing)
}
