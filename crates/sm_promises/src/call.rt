//! The call of the program, with what it promises.
ghost use Rattle.std.specs.Prelude.{◌≡◌, ◌++◌, ℕ, List, Some, length, map, string_bytes};
ghost use Rattle.sm_model.specs.declared.address.Address.{Address};
ghost use Rattle.sm_model.specs.declared.entry.Entry.{Entry};
ghost use Rattle.sm_model.specs.declared.fragment.Fragment.{Fragment};
ghost use Rattle.sm_log.specs.Logs.{kept_at};
ghost use Rattle.sm_site.specs.Image.{Image};
ghost use Rattle.sm_site.specs.Meanings.{Item};
ghost use Rattle.sm_archive.specs.Store.{IsStore};
ghost use Rattle.sm_client.specs.Pushing.{line_of};
ghost use Rattle.sm_client.specs.Turns.{meant};
ghost use Rattle.sm_tool.specs.Edges.{dialing};
ghost use Rattle.sm_tool.specs.Plays.{tape_of};
ghost use Rattle.sm_tool.specs.Ran.{around};
ghost use Rattle.sm_run.specs.Runs.{Runs};
ghost use Rattle.sm_run.specs.Staff.{staff_of};
ghost use Rattle.sm_ends.specs.Ended.{end_of};
ghost use Rattle.sm_promises.specs.Promises.{ProgramRan, BeginsWith, MayBeLeft, KeepsAllTold};

use crate::law::{the_first_fragment_stays, what_was_told_stays};
use sm_ends::{Sink, Source, Tracks};
use sm_fetch::Dial;
use sm_players::Spawner;
use sm_policy::Policy;
use sm_run::run;
use sm_site::Site;
use std::alloc::Global;
use std::sync::Wait;

/// Carries out the command that the words name, and gives the exit status, as `run` does. What is promised of every call stands here on this one,
/// with the site before it and behind it; the rest are the laws, which hold of each run of the program.
pub fn promised<R: Wait, I: Source, O: Sink, S: Site, C: Dial, T: Tracks, P: Spawner>(
    rt: &R,
    alloc: Global,
    words: &[String],
    input: &mut I,
    output: &mut O,
    site: &mut S,
    dial: &mut C,
    tracks: &mut T,
    spawner: &mut P,
    policies: Vec<Box<dyn Policy>>,
) -> u8
    requires policies { length policies.items ≡ 3 }
    ensures run { Runs S.Disk.seen (dialing C.log C.store C.later C.dial_faults C.chosen)
        (meant pick_after retired_after) policies.items (map string_bytes words.now)
        (around (end_of I.left I.faults input.old) (line_of C.log C.dial_faults C.chosen dial.old) (tape_of T.held T.faults tracks.old))
        (around (end_of I.left I.faults input.new) (line_of C.log C.dial_faults C.chosen dial.new) (tape_of T.held T.faults tracks.new))
        (end_of O.held O.faults output.old) (end_of O.held O.faults output.new) site.old site.new dial.old dial.new
        (staff_of P.spawn_faults P.started P.limit P.chosen P.ended spawner.old)
        (staff_of P.spawn_faults P.started P.limit P.chosen P.ended spawner.new) result }
    ensures goes_on { C.later dial.old dial.new }
    // It is a run of the program, of which the laws speak.
    ensures ran { ProgramRan S.Disk.seen (dialing C.log C.store C.later C.dial_faults C.chosen) (meant pick_after retired_after) site.old site.new }
    // Whatever a crash may leave at any moment of the call is one store, which goes on from the one that was found and keeps all that was told by
    // then.
    ensures told_stays { (found : List Entry) (base : List Item) → BeginsWith S.Disk.seen site.old found base
        → (t : ℕ) (image : Image) → MayBeLeft S.Disk.seen site.old site.new t image
        → (kept : List Entry) × IsStore kept image × ((more : List Entry) × (kept ≡ found ++ more)) × KeepsAllTold S.Disk.seen site.new base t kept }
    // A fragment that was kept when it began is kept then too, with its place and its samples.
    ensures first_stays { (found : List Entry) (base : List Item) → BeginsWith S.Disk.seen site.old found base
        → (a : Address) (place : ℕ) (f : Fragment) → kept_at found a ≡ Some (place, f)
        → (t : ℕ) (image : Image) → MayBeLeft S.Disk.seen site.old site.new t image
        → (kept : List Entry) × IsStore kept image × (kept_at kept a ≡ Some (place, f)) }
{
    what_was_told_stays::<S, C, Box<dyn Policy>>();
    the_first_fragment_stays::<S, C, Box<dyn Policy>>();
    run(
        rt, alloc, words, input, output, site, dial, tracks, spawner, policies,
    )
}
