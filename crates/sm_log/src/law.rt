//! Laws of logs. Each is the contract of a function that does nothing.
ghost use Rattle.std.specs.Prelude.{◌≡◌, ◌++◌, ◌∷◌, ◌<◌, ◌≤◌, ◌^◌, ◌+◌, [], ℕ, true, false, List, Some, All, AllPairs, is_some, length, slice_get, Contains};
ghost use Rattle.std.specs.Option.{option_map, IsSome};
ghost use Rattle.sm_model.specs.declared.address.Address.{Address};
ghost use Rattle.sm_model.specs.declared.entry.Entry.{Entry};
ghost use Rattle.sm_model.specs.declared.entry.Entry.TheVariants.{Keep};
ghost use Rattle.sm_model.specs.declared.fragment.Fragment.{Fragment};
ghost use Rattle.sm_model.specs.declared.track.Track.{Track};
ghost use Rattle.sm_log.specs.Times.{entry_at, do_overlap, AreTimes, IsSpan};
ghost use Rattle.sm_log.specs.Adds.{Add, is_declared, listed, place_of};
ghost use Rattle.sm_model.specs.Channels.{IsChannel};
ghost use Rattle.sm_model.specs.Entries.{address_of};
ghost use Rattle.sm_model.specs.Fragments.{IsValid, IsWide};
ghost use Rattle.sm_log.specs.Logs.{channel_of, adds_of, kept_at, times_in, listed_in, ahead_in, FitsBehind, IsSound};
ghost use Rattle.sm_log.specs.Older.{IsOlderSound};
ghost use Rattle.sm_log.specs.Digests.{Digest, digest_of, Extends};

/// The times of a stream in a sound log are spans, none of which overlaps another, and so are the listed ones.
pub fn times_are_apart()
    ensures spans { (log : List Entry) (stream : List ℕ) → IsSound log → AreTimes (times_in log stream) }
    ensures listed { (log : List Entry) (stream : List ℕ) → IsSound log → AreTimes (listed_in log stream) }
    ensures apart { (log : List Entry) (stream : List ℕ) → IsSound log → AllPairs (λ a b. do_overlap a b ≡ false) (times_in log stream) }
{}

/// What comes behind takes nothing back: each listed time stays listed with its duration, and what is kept at an address stays
/// kept there, in its place.
pub fn listed_times_stay()
    ensures listed { (log more : List Entry) (stream : List ℕ) (start duration : ℕ) → entry_at start (listed_in log stream) ≡ Some duration
        → entry_at start (listed_in (log ++ more) stream) ≡ Some duration }
    ensures kept { (log more : List Entry) (address : Address) (place : ℕ) (f : Fragment) → kept_at log address ≡ Some (place, f)
        → kept_at (log ++ more) address ≡ Some (place, f) }
    ensures adds { (channel : List Track) (adds more : List Add) (stream : List ℕ) (start duration : ℕ)
        → entry_at start (listed channel adds stream) ≡ Some duration → entry_at start (listed channel (adds ++ more) stream) ≡ Some duration }
    ensures places { (adds more : List Add) (address : Address) (place : ℕ) → place_of address adds ≡ Some place
        → place_of address (adds ++ more) ≡ Some place }
{}

/// A log that was sound while each new time had to start at or behind the last end is sound.
pub fn older_logs_are_sound()
    ensures { (log : List Entry) → IsOlderSound log → IsSound log }
{}

/// The front of a sound log is sound, and a sound log stays sound with an entry that fits behind it.
pub fn sound_logs_grow()
    ensures front { (log more : List Entry) → IsSound (log ++ more) → IsSound log }
    ensures push { (log : List Entry) (e : Entry) → IsSound log → FitsBehind log e → length log + 1 < 2 ^ 32 → IsSound (log ++ e ∷ []) }
{}

/// What is kept at an address is what was added there; and in a sound log each fragment is the one that is kept at its address.
pub fn kept_is_added()
    ensures place { (log : List Entry) (address : Address)
        → place_of address (adds_of log) ≡ option_map (λ (k : ℕ × Fragment). k.0) (kept_at log address) }
    ensures one { (front back : List Entry) (f : Fragment) → IsSound (front ++ Keep f ∷ back)
        → kept_at (front ++ Keep f ∷ back) (address_of f) ≡ Some (length front, f) }
{}

/// At an address of a declared track whose time is listed a fragment is kept.
pub fn what_is_listed_is_kept()
    ensures { (log : List Entry) (channel : List Track) (address : Address) → channel_of log ≡ Some channel → is_declared channel address ≡ true
        → is_some (entry_at address.time (listed_in log address.stream)) ≡ true → IsSome (kept_at log address) }
{}

/// A sound log has what is asked of a manifest's channel and times: a valid channel, and times that are spans and can be
/// counted.
pub fn sound_logs_can_be_listed()
    ensures channel { (log : List Entry) (channel : List Track) → IsSound log → channel_of log ≡ Some channel → IsChannel channel }
    ensures spans { (log : List Entry) (stream : List ℕ) → IsSound log → All IsSpan (listed_in log stream) }
    ensures few { (log : List Entry) (stream : List ℕ) → IsSound log → length (listed_in log stream) < 2 ^ 64 }
{}

/// The times ahead are listed ones, at most two, and in a sound log they have 64 bits.
pub fn what_is_ahead_is_listed()
    ensures listed { (log : List Entry) (stream : List ℕ) (start index time duration : ℕ) → slice_get (ahead_in log stream start) index ≡ Some (time, duration)
        → entry_at time (listed_in log stream) ≡ Some duration }
    ensures few { (log : List Entry) (stream : List ℕ) (start : ℕ) → length (ahead_in log stream start) ≤ 2 }
    ensures wide { (log : List Entry) (stream : List ℕ) (start : ℕ) → IsSound log → All IsWide (ahead_in log stream start) }
{}

/// What is kept at an address has that address, and in a sound log it is valid.
pub fn what_is_kept_is_valid()
    ensures address { (log : List Entry) (address : Address) (place : ℕ) (f : Fragment) → kept_at log address ≡ Some (place, f) → address_of f ≡ address }
    ensures valid { (log : List Entry) (address : Address) (place : ℕ) (f : Fragment) → IsSound log → kept_at log address ≡ Some (place, f) → IsValid f }
{}

/// What is kept at an address stands in the log, and is kept there at the same place where the log goes on.
pub fn what_is_kept_stays()
    ensures there { (log : List Entry) (address : Address) (kept : ℕ × Fragment) → kept_at log address ≡ Some kept → Contains log (Keep kept.1) }
    ensures stays { (log more : List Entry) (address : Address) (kept : ℕ × Fragment) → kept_at log address ≡ Some kept
        → kept_at (log ++ more) address ≡ Some kept }
{}

/// A digest extends itself and what one that it extends extends, and a log's digest extends that of each front of it.
pub fn digests_extend()
    ensures itself { (digest : Digest) → Extends digest digest }
    ensures through { (a b c : Digest) → Extends a b → Extends b c → Extends a c }
    ensures grows { (log more : List Entry) → Extends (digest_of (log ++ more)) (digest_of log) }
{}
