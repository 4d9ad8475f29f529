//! Laws of live manifests and ladders. Each is proved once, and there is nothing to run.
ghost use Rattle.std.specs.Prelude.{◌≡◌, ◌↔◌, ℕ, List, All, Result, Ok, length};
ghost use Rattle.sm_model.specs.declared.track.Track.{Track};
ghost use Rattle.sm_model.specs.declared.smil.SmilTrack.{SmilTrack};
ghost use Rattle.sm_model.specs.Channels.{IsChannel, IsNarrowTrack, IsSmil};
ghost use Rattle.sm_smil.specs.LiveManifests.{IsLiveManifest, IsLadder};
ghost use Rattle.sm_smil.specs.LiveRead.{live_manifest};
ghost use Rattle.sm_smil.specs.LiveText.{live_text};
ghost use Rattle.sm_smil.specs.Untimed.{untimed_tracks};
ghost use Rattle.sm_smil.specs.Ruled.{IsRuled};
ghost use Rattle.sm_model.specs.declared.tag.Tag.{Tag};
ghost use Rattle.sm_smil.specs.declared.raw_track.Form.TheVariants.{Pushed, Ladder};
ghost use Rattle.sm_tag.specs.Tags.{TagsOf};
ghost use Rattle.sm_smil.specs.LiveTracks.{smil_track, ladder_track};

/// The live manifest of a valid channel is read as that channel: as a ladder, and as a pushed header, where its tracks have
/// the track_IDs 1, 2 and so on, and no timescale yet. Each track of a real channel is narrow.
pub fn live_text_is_read_as_its_channel()
    ensures ladder { (channel : List Track) → IsChannel channel → All IsNarrowTrack channel
        → (r : Result (List Track) ℕ) → IsLadder (live_text channel) r → r ≡ Ok channel }
    ensures pushed { (channel : List Track) → IsChannel channel → All IsNarrowTrack channel
        → (r : Result (List SmilTrack) ℕ) → IsLiveManifest (live_text channel) r → r ≡ Ok (untimed_tracks 1 channel) }
    ensures computed { (channel : List Track) → IsChannel channel → All IsNarrowTrack channel
        → live_manifest (live_text channel) ≡ Ok (untimed_tracks 1 channel) }
{}

/// A text has one reading as a live manifest, and one as a ladder, its tracks or the place of its fault.
pub fn text_has_one_reading()
    ensures pushed { (text : List ℕ) (r s : Result (List SmilTrack) ℕ) → IsLiveManifest text r → IsLiveManifest text s → r ≡ s }
    ensures ladder { (text : List ℕ) (r s : Result (List Track) ℕ) → IsLadder text r → IsLadder text s → r ≡ s }
    ensures some_ladder { (text : List ℕ) → (r : Result (List Track) ℕ) × IsLadder text r }
{}

/// Every text has a reading as a live manifest, its tracks or the place of its fault, and `live_manifest` computes it.
pub fn live_manifest_has_one_answer()
    ensures some { (text : List ℕ) → IsLiveManifest text (live_manifest text) }
    ensures one { (text : List ℕ) (r : Result (List SmilTrack) ℕ) → IsLiveManifest text r → r ≡ live_manifest text }
{}

/// The tracks that a live manifest says are valid: a valid channel once each has a timescale and each name has one.
pub fn live_manifests_are_valid()
    ensures { (text : List ℕ) (tracks : List SmilTrack) → IsLiveManifest text (Ok tracks) → IsSmil tracks }
{}

/// What a live manifest and a ladder say is what the rule says: the tracks are the elements video, audio and textstream that
/// stand in smil, body and switch, and of all that is at fault the least place counts.
pub fn live_manifests_are_by_rule()
    ensures pushed { (text : List ℕ) (r : Result (List SmilTrack) ℕ)
        → IsLiveManifest text r ↔ ((tags : List Tag) × TagsOf text tags × IsRuled smil_track Pushed (length text) tags r) }
    ensures ladder { (text : List ℕ) (r : Result (List Track) ℕ)
        → IsLadder text r ↔ ((tags : List Tag) × TagsOf text tags × IsRuled ladder_track Ladder (length text) tags r) }
{}
