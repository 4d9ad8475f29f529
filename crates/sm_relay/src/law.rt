//! Laws of relays. Each is the contract of a function that does nothing.
ghost use Rattle.std.specs.Prelude.{◌≤◌, ◌+◌, ◌*◌, ◌++◌, List, length};
ghost use Rattle.std.specs.List.{AllByRecursion};
ghost use Rattle.sm_model.specs.declared.entry.Entry.{Entry};
ghost use Rattle.sm_model.specs.declared.fragment.Fragment.{Fragment};
ghost use Rattle.sm_model.specs.declared.track.Track.{Track};
ghost use Rattle.sm_archive.specs.declared.archive.Archive.{Archive};
ghost use Rattle.sm_fetch.specs.declared.dial.Exchange.{Exchange};
ghost use Rattle.sm_pull.specs.declared.plan.PullPlan.{PullPlan};
ghost use Rattle.sm_pull.specs.declared.stop.Stop.{Stop};
ghost use Rattle.sm_relay.specs.Wants.{wants_of};
ghost use Rattle.sm_relay.specs.Rounds.{Round, IsRound, IsBroken};
ghost use Rattle.sm_relay.specs.Read.{WasRead};

/// Each fragment that a round keeps, or was to keep where it broke off, is what an answer to a request for its address spells, by the
/// Url that the manifest of that round lists for its stream.
pub fn what_is_kept_was_read()
    ensures round { (plan : PullPlan) (channel : List Track) (log : List Entry) (r : Round) → IsRound plan channel log r
        → AllByRecursion (WasRead plan.place (wants_of channel r.listing) r.pulled) r.kept }
    ensures broken { (plan : PullPlan) (channel : List Track) (new : Archive) (log : List Entry) (made : List Exchange)
        (added tried : List Fragment) (why : Stop) → (b : IsBroken plan channel new log made added tried why)
        → AllByRecursion (WasRead plan.place (wants_of channel b.listing) b.pulled) (added ++ tried) }
{}

/// A round makes at most as many exchanges for each thing that it asks for, the manifest and what that lists of the channel's tracks, as
/// there are tries.
pub fn rounds_are_short()
    ensures round { (plan : PullPlan) (channel : List Track) (log : List Entry) (r : Round) → IsRound plan channel log r
        → length r.asked + length r.pulled ≤ plan.tries * (1 + length (wants_of channel r.listing)) }
    ensures broken { (plan : PullPlan) (channel : List Track) (new : Archive) (log : List Entry) (made : List Exchange)
        (added tried : List Fragment) (why : Stop) → (b : IsBroken plan channel new log made added tried why)
        → length made ≤ plan.tries * (1 + length (wants_of channel b.listing)) }
{}
