//! Laws of what is pulled. Each is the contract of a function that does nothing.
ghost use Rattle.std.specs.Prelude.{◌≡◌, ◌++◌, ℕ, List, true, Contains};
ghost use Rattle.std.specs.List.{AllByRecursion};
ghost use Rattle.sm_model.specs.declared.entry.Entry.{Entry};
ghost use Rattle.sm_model.specs.declared.fragment.Fragment.{Fragment};
ghost use Rattle.sm_model.specs.declared.track.Track.{Track};
ghost use Rattle.sm_model.specs.Channels.{IsChannel};
ghost use Rattle.sm_manout.specs.ReadAgain.{listing_again};
ghost use Rattle.sm_pull.specs.Adds.{IsFrontOf};
ghost use Rattle.sm_pull.specs.Below.{Below, IsKeptIn};
ghost use Rattle.sm_pull.specs.Tracks.{has_track};

/// A log whose Keeps are kept by another stays such a one behind what is kept by that other too, and the other may go on.
pub fn below_stays()
    ensures front { (log up after : List Entry) (added : List Fragment) → AllByRecursion (IsKeptIn up) added → Below log up
        → IsFrontOf log added after → Below after up }
    ensures grows { (log up more : List Entry) → Below log up → Below log (up ++ more) }
{}

/// The manifest of a channel has each track that the channel has: the stream of its name with its timescale and its bitrate.
pub fn manifests_have_the_tracks()
    ensures { (channel : List Track) (times : List ℕ → List (ℕ × ℕ)) (t u : Track) → IsChannel channel → Contains channel u
        → u.name ≡ t.name → u.bitrate ≡ t.bitrate → u.timescale ≡ t.timescale → has_track (listing_again channel times) t ≡ true }
{}
