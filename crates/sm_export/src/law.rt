//! Laws of exports. Each is the contract of a function that only calls other laws.
ghost use Rattle.std.specs.Prelude.{◌≡◌, ◌<◌, ◌∷◌, ℕ, List, Option, None, false, map, AllPairs, Contains};
ghost use Rattle.sm_model.specs.declared.entry.Entry.{Entry};
ghost use Rattle.sm_model.specs.declared.entry.Entry.TheVariants.{Keep};
ghost use Rattle.sm_model.specs.declared.fragment.Fragment.{Fragment};
ghost use Rattle.sm_model.specs.declared.track.Track.{Track};
ghost use Rattle.sm_log.specs.Logs.{IsSound};
ghost use Rattle.sm_model.specs.Items.{Frag, Header};
ghost use Rattle.sm_origin.specs.Shown.{IsReal};
ghost use Rattle.sm_push.specs.Body.{body, body_end};
ghost use Rattle.sm_export.specs.Exporting.{IsExportText};
ghost use Rattle.sm_export.specs.Heads.{IsHead};
ghost use Rattle.sm_export.specs.Qualities.{quality};

use sm_log::law::{kept_is_added, times_are_apart, what_is_kept_is_valid, what_is_kept_stays};
use sm_push::{by_boxes, joined_texts_follow_a_header, tracks_of_a_header_differ};

/// The quality of a sound log is what it keeps of that name and bitrate, in the order of time: each such fragment is in it, nothing else is,
/// and each starts before those behind it, in whatever order the log has them.
pub fn quality_is_in_time_order()
    ensures all { (log : List Entry) (name : List ℕ) (bitrate : ℕ) (f : Fragment) → IsSound log → Contains log (Keep f)
        → f.stream ≡ name → f.bitrate ≡ bitrate → Contains (quality log name bitrate) f }
    ensures only { (log : List Entry) (name : List ℕ) (bitrate : ℕ) (f : Fragment) → Contains (quality log name bitrate) f
        → Contains log (Keep f) × (f.stream ≡ name) × (f.bitrate ≡ bitrate) }
    ensures order { (log : List Entry) (name : List ℕ) (bitrate : ℕ) → IsSound log → AllPairs (λ f g. f.time < g.time) (quality log name bitrate) }
{
    kept_is_added();
    times_are_apart();
    what_is_kept_is_valid();
    what_is_kept_stays();
}

/// An input has one header at the most, so that each answer to an export is told by the input alone and by what the log has.
pub fn an_input_has_one_head()
    ensures { (b front other : List ℕ) (channel tracks : List Track) (name : List ℕ) (bitrate : ℕ) (id number : Option ℕ)
        → IsHead b front channel name bitrate id → IsHead b other tracks name bitrate number → (front ≡ other) × (channel ≡ tracks) × (id ≡ number) }
{}

/// A file is read back as a push: its header, and then each fragment of the quality in the order of time, with the header's track_ID, and
/// nothing else; and it may end there. The log is one of real entries, as every log is that a store has.
pub fn exports_are_read_back()
    ensures items { (b : List ℕ) (log : List Entry) (name : List ℕ) (bitrate : ℕ) (text : List ℕ) (t : IsExportText b log name bitrate text) → IsReal log
        → (body false text).items ≡ Header t.channel ∷ map (λ f. Frag t.id f) (quality log name bitrate) }
    ensures end { (b : List ℕ) (log : List Entry) (name : List ℕ) (bitrate : ℕ) (text : List ℕ) → IsExportText b log name bitrate text → IsReal log
        → body_end false text ≡ None }
{
    by_boxes();
    joined_texts_follow_a_header();
    tracks_of_a_header_differ();
    what_is_kept_is_valid();
    what_is_kept_stays();
}
