//! Laws of headers. Each is the contract of a function that does nothing.
ghost use Rattle.std.specs.Prelude.{◌≡◌, ◌<◌, ◌+◌, ◌*◌, ℕ, List, Some, length, All};
ghost use Rattle.sm_model.specs.declared.heads.TrackHead.{TrackHead};
ghost use Rattle.sm_model.specs.declared.track.Track.{Track};
ghost use Rattle.sm_model.specs.Boxes.{IsOneBox, box_of};
ghost use Rattle.sm_model.specs.Channels.{IsChannel, IsNarrowTrack};
ghost use Rattle.sm_model.specs.Moov.{moov};
ghost use Rattle.sm_model.specs.MoovText.{bare_moov, heads};

/// The bare `moov` of a channel is one box, whose size is its length, and is read as the heads of the channel's tracks.
pub fn written_moov_is_read()
    ensures whole { (tracks : List Track) → IsChannel tracks → IsOneBox (bare_moov tracks) }
    ensures size { (tracks : List Track) → IsChannel tracks → length (bare_moov tracks) ≡ 124 + 220 * length tracks }
    ensures read { (tracks : List Track) → IsChannel tracks → All IsNarrowTrack tracks
        → moov (box_of (bare_moov tracks)).body ≡ Some (heads tracks) }
{}

/// The tracks of a `moov` have a timescale of at least one tick a second.
pub fn timescales_are_positive()
    ensures { (body : List ℕ) (heads : List TrackHead) → moov body ≡ Some heads → All (λ h. 0 < h.timescale) heads }
{}
