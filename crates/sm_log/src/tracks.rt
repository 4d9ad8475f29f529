//! The tracks of a stream.
ghost use Rattle.std.specs.Prelude.{◌≡◌, length};
ghost use Rattle.sm_log.specs.Adds.{tracks_of};

use sm_model::Track;

/// How many tracks are of the stream of that name.
pub fn count_tracks(channel: &[Track], name: &[u8]) -> usize
    ensures { result ≡ length (tracks_of name.now channel.now) }
{
    channel
        .iter()
        .filter(|track| track.name.as_bytes() == name)
        .count()
}
