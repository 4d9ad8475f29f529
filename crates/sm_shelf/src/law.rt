//! Laws of shelves. Each is the contract of a function that does nothing, or only calls other laws.
ghost use Rattle.std.specs.Prelude.{◌≡◌, ◌≢◌, ◌++◌, ◌≤◌, ◌⊎◌, ◌<◌, ◌+◌, [], ℕ, List, None, Some, true, is_some, length, map, take, fold, slice_get, IsSome};
ghost use Rattle.sm_model.specs.declared.act.Act.{Act};
ghost use Rattle.sm_model.specs.declared.address.Address.{Address};
ghost use Rattle.sm_model.specs.declared.entry.Entry.{Entry};
ghost use Rattle.sm_model.specs.declared.entry.Entry.TheVariants.{Keep};
ghost use Rattle.sm_model.specs.declared.fragment.Fragment.{Fragment};
ghost use Rattle.sm_model.specs.declared.track.Track.{Track};
ghost use Rattle.sm_model.specs.Entries.{address_of};
ghost use Rattle.sm_log.specs.Times.{entry_at};
ghost use Rattle.sm_log.specs.Adds.{Add, is_declared, listed};
ghost use Rattle.sm_log.specs.Logs.{channel_of, adds_of, kept_at, IsSound};
ghost use Rattle.sm_log.specs.Digests.{Digest, Extends, bytes_of, digest_of, keeps_of, window_of};
ghost use Rattle.sm_reply.specs.Replies.{reply_of};
ghost use Rattle.sm_catalog.specs.Content.{Content};
ghost use Rattle.sm_shelf.specs.Parts.{IsListing, IsEnd, addresses_in};
ghost use Rattle.sm_shelf.specs.Laying.{Op, laid, adds_in, filling};
ghost use Rattle.sm_shelf.specs.Shelf.{height_of, IsFront, IsOf};
ghost use Rattle.sm_shelf.specs.Shown.{IsHeld, IsReplyTo};

use sm_log::law::{listed_times_stay, what_is_kept_stays, what_is_listed_is_kept};

/// What a digest of a sound log answers is what the log answers: it has the log's channel and what was added, what its window has at an
/// address is what is kept there, and each reply of it is the log's.
pub fn digests_answer_as_logs()
    ensures channel { (log : List Entry) → (digest_of log).channel ≡ channel_of log }
    ensures adds { (log : List Entry) → IsSound log → adds_in (digest_of log) ≡ adds_of log }
    ensures kept { (log : List Entry) (a : Address) (place : ℕ) (f : Fragment) → IsSound log → IsHeld (digest_of log) a place f
        → kept_at log a ≡ Some (place, f) }
    ensures reply { (log : List Entry) (act : Act) (text : List ℕ) → IsSound log → IsReplyTo (digest_of log) act text → text ≡ (reply_of log act).bytes }
{}

/// The digest of a front of a sound log has the front's height, and the one that has the log's is the log's. What belongs to a log belongs
/// to each that goes on from it.
pub fn heights_tell()
    ensures front { (log : List Entry) (d : Digest) → IsSound log → IsFront log d → height_of d ≤ length log }
    ensures whole { (log : List Entry) (d : Digest) → IsSound log → IsFront log d → height_of d ≡ length log → d ≡ digest_of log }
    ensures back { (log : List Entry) (d : Digest) → IsSound log → d ≡ digest_of log → height_of d ≡ length log }
    ensures later { (log more : List Entry) (d : Digest) → IsFront log d → IsFront (log ++ more) d }
    ensures rest { (log more : List Entry) (op : Op) → IsOf log op → IsOf (log ++ more) op }
{}

/// A digest that goes on from one with a channel, and has added no more, has its channel and what it has added.
pub fn as_many_is_the_same()
    ensures channel { (d older : Digest) → Extends d older → older.channel ≢ None → d.channel ≡ older.channel }
    ensures adds { (d older : Digest) → Extends d older → length d.adds ≡ length older.adds → d.adds ≡ older.adds }
{}

/// What is laid goes on from what was there.
pub fn shelves_only_grow()
    ensures { (ops : List Op) (d : Digest) → Extends (fold laid d ops) d }
{}

/// What the manifest of a digest lists is kept in each sound log whose front's digest goes on from it.
pub fn what_is_shown_is_kept()
    ensures { (log more : List Entry) (d : Digest) (channel : List Track) (a : Address) → IsSound (log ++ more) → Extends (digest_of log) d
        → d.channel ≡ Some channel → is_declared channel a ≡ true → is_some (entry_at a.time (listed channel (adds_in d) a.stream)) ≡ true
        → IsSome (kept_at (log ++ more) a) }
{
    listed_times_stay();
    what_is_listed_is_kept();
    what_is_kept_stays();
}

/// The catalog of a sound log, and the last fragments of that log, may be laid on a shelf; and where these are all, or more than fit the
/// window, that is the log's digest.
pub fn catalogs_of_logs_fit()
    ensures listing { (log : List Entry) → IsSound log → IsListing (adds_of log) }
    ensures places { (log : List Entry) (index : ℕ) (a : Add) → IsSound log → slice_get (adds_of log) index ≡ Some a → a.place ≡ index + 1 }
    ensures kept { (log : List Entry) (index : ℕ) (f : Fragment) → IsSound log → slice_get log (index + 1) ≡ Some (Keep f)
        → slice_get (keeps_of log) index ≡ Some f }
    ensures many { (log : List Entry) → IsSound log → length (keeps_of log) ≡ length (adds_of log) }
    ensures last { (log : List Entry) (front back : List Fragment) → IsSound log → keeps_of log ≡ front ++ back
        → (length back ≤ length (adds_of log)) × IsEnd (addresses_in (adds_of log)) (map address_of back) }
    ensures whole { (log : List Entry) (c : Content) (front back : List Fragment) → IsSound log → channel_of log ≡ Some c.channel → c.adds ≡ adds_of log
        → keeps_of log ≡ front ++ back → (front ≡ []) ⊎ (67108864 < bytes_of back) → filling c back ≡ digest_of log }
{}
