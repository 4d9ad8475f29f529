//! Laws of manifests that are written. Each is proved once, and there is nothing to run.
ghost use Rattle.std.specs.Prelude.{◌≡◌, ◌≤◌, ◌<◌, ◌^◌, ◌++◌, ℕ, true, List, All, Ok, Some, length, is_some};
ghost use Rattle.std.specs.Option.{IsSome};
ghost use Rattle.sm_model.specs.declared.address.Address.{Address};
ghost use Rattle.sm_model.specs.declared.entry.Entry.{Entry};
ghost use Rattle.sm_model.specs.declared.track.Track.{Track};
ghost use Rattle.sm_model.specs.Channels.{IsChannel, IsNarrowTrack};
ghost use Rattle.sm_log.specs.Adds.{is_declared, listed};
ghost use Rattle.sm_log.specs.Logs.{channel_of, adds_of, kept_at, IsSound};
ghost use Rattle.sm_log.specs.Times.{AreTimes, IsSpan, entry_at};
ghost use Rattle.sm_manin.specs.ManifestRead.{IsManifest};
ghost use Rattle.sm_manout.specs.ManifestText.{TimeRun, runs, run_times, manifest};
ghost use Rattle.sm_manout.specs.ReadAgain.{listing_again};
ghost use Rattle.sm_manout.specs.Shown.{ListsIn, IsWritable};

use sm_log::law::{sound_logs_can_be_listed, what_is_listed_is_kept};

/// The runs that times are cut into stand for these times.
pub fn runs_stand_for_their_times()
    ensures { (times : List (ℕ × ℕ)) → run_times (runs times) ≡ times }
{}

/// They are the fewest: no list of runs that stands for the same times is shorter.
pub fn runs_are_the_fewest()
    ensures { (times : List (ℕ × ℕ)) (others : List TimeRun) → run_times others ≡ times → length (runs times) ≤ length others }
{}

/// The manifest of a valid channel is read as its streams, with their qualities and times, where no stream has more than
/// 262,144 listed times. Each track of a real channel is narrow.
pub fn written_manifest_is_read()
    ensures { (channel : List Track) (times : List ℕ → List (ℕ × ℕ)) → IsChannel channel → All IsNarrowTrack channel
        → ((name : List ℕ) → AreTimes (times name)) → ((name : List ℕ) → length (times name) ≤ 262144)
        → IsManifest (manifest channel times) (Ok (listing_again channel times)) }
{}

/// Each part of a manifest lists only addresses of the channel's tracks, at times that it was written with.
pub fn manifests_list_what_is_listed()
    ensures { (channel : List Track) (times : List ℕ → List (ℕ × ℕ)) (part more : List ℕ) (a : Address) → IsChannel channel → All IsWritable channel
        → ((name : List ℕ) → All IsSpan (times name)) → ((name : List ℕ) → length (times name) < 2 ^ 64)
        → part ++ more ≡ manifest channel times → ListsIn part a
        → (is_declared channel a ≡ true) × (is_some (entry_at a.time (times a.stream)) ≡ true) }
{}

/// A whole manifest lists each address of the channel's tracks at each time that it was written with.
pub fn whole_manifests_list_all()
    ensures { (channel : List Track) (times : List ℕ → List (ℕ × ℕ)) (a : Address) → IsChannel channel → All IsWritable channel
        → ((name : List ℕ) → All IsSpan (times name)) → ((name : List ℕ) → length (times name) < 2 ^ 64)
        → is_declared channel a ≡ true → is_some (entry_at a.time (times a.stream)) ≡ true
        → ListsIn (manifest channel times) a }
{}

/// Each part of the manifest of a sound log lists only addresses at which a fragment is kept in that log.
pub fn manifests_list_what_is_kept()
    ensures { (log : List Entry) (channel : List Track) (part more : List ℕ) (a : Address) → IsSound log → channel_of log ≡ Some channel
        → All IsWritable channel → part ++ more ≡ manifest channel (listed channel (adds_of log)) → ListsIn part a → IsSome (kept_at log a) }
{
    manifests_list_what_is_listed();
    sound_logs_can_be_listed();
    what_is_listed_is_kept();
}
