//! Laws of rounds. Each is the contract of a function that does nothing.
ghost use Rattle.std.specs.Prelude.{◌≡◌, ◌+◌, ◌*◌, ◌++◌, ◌≤◌, ℕ, List, Some, length, slice_get};
ghost use Rattle.sm_model.specs.declared.entry.Entry.{Entry};
ghost use Rattle.sm_model.specs.declared.entry.Entry.TheVariants.{Keep};
ghost use Rattle.sm_model.specs.declared.fragment.Fragment.{Fragment};
ghost use Rattle.sm_manin.specs.declared.listing.Listing.{Listing};
ghost use Rattle.sm_model.specs.declared.track.Track.{Track};
ghost use Rattle.sm_pull.specs.declared.plan.PullPlan.{PullPlan};
ghost use Rattle.sm_standby.specs.declared.held.Later.{Later};
ghost use Rattle.sm_standby.specs.Rounds.{addresses_of, Round, IsRound};
ghost use Rattle.sm_standby.specs.Spelled.{IsSpelled};
ghost use Rattle.sm_standby.specs.Turns.{made_in, Standing, Turn, Turns};

/// In a round at most so many exchanges are made as there are tries for the manifest, twice for each of its addresses, and once for each
/// address that waited before.
pub fn rounds_are_bounded()
    ensures { (plan : PullPlan) (channel : List Track) (log later : List Entry) (held still : List Later) (r : Round)
        → IsRound plan channel log held r later still
        → length (r.reads ++ made_in r.turns) ≤ plan.tries * (1 + (2 * length (addresses_of channel r.listing) + length held)) }
{}

/// What is kept behind the log with which a round's turns began was read: an answer to a request for its address spells it, and its
/// sequence number is its place in the log.
pub fn what_is_kept_was_read()
    ensures { (plan : PullPlan) (channel : List Track) (listing : Listing) (s e : Standing) (turns : List Turn) → Turns plan channel listing s turns e
        → (place : ℕ) (f : Fragment) → slice_get e.log place ≡ Some (Keep f) → length s.log ≤ place → IsSpelled plan.place listing (made_in turns) place f }
{}
