//! The loop.
ghost use Rattle.std.specs.Prelude.{◌≡◌, ◌≤◌, ℕ, IsSome, is_some};
ghost use Rattle.sm_site.specs.Clauses.{Rose};
ghost use Rattle.sm_serve.specs.Standing.{History, StandsForSome};
ghost use Rattle.sm_serve.specs.Serving.{TurnsBy, Serves, Known, Served as HasServed};
ghost use Rattle.sm_shelf.specs.Shelf.{Belongs};
ghost use Rattle.sm_show.specs.Marks.{HasShown};

use crate::catching::catch_up;
use crate::outcome::{behind_by, short_by};
use sm_serve::law::turns_grow;
use sm_serve::shown::crashes_hold_what_was_shown;
use sm_serve::{Served, State, Turn, turn};
use sm_shelf::ShelfWriter;
use sm_site::Site;
use std::sync::Wait;

/// Serves until nothing more comes, or so many events were taken, as `serve` does. Before the first event, and behind each turn, the shelf is
/// brought up to the log; what it lacks is read back, from what was used last or from the disk. `behind` counts the turns behind which it
/// isn't, since the disk failed, and `short` those behind which memory was wanting. It waits for readers that are inside the shelf.
pub fn serve_shown<R: Wait, S: Site>(
    rt: &R,
    site: &mut S,
    state: &mut State,
    writer: &mut ShelfWriter,
    turns: u64,
) -> Served
    requires stands { StandsForSome S.Disk.seen state.old.origin site.old }
    requires known { Known S.Disk.seen state.old site.old }
    ensures runs { (h : History) → Serves S.Disk.seen h state.old site.old → HasServed S.Disk.seen h result turns state.new site.new }
    // Where the disk tells its contents, and what is on the shelf belonged to the log: what is published belongs to the log behind each turn,
    // and the turns behind which it isn't that of the whole log are counted. What was published so far is what was before, and then what each
    // turn added, before the next event was taken. Of a disk that tells no contents nothing is known of the log.
    ensures shown { (h : History) → Serves S.Disk.seen h state.old site.old → IsSome (S.Disk.seen.view site.old).contents
        → Belongs h.point.machine.log writer.old
        → (run : HasServed S.Disk.seen h result turns state.new site.new) × HasShown h result run.later writer.old writer.new }
    ensures goes_on { (h : History) → Serves S.Disk.seen h state.old site.old → (n : ℕ)
        × TurnsBy S.Disk.seen h n (S.Disk.seen.view site.old).script state.new site.new }
    ensures stands { StandsForSome S.Disk.seen state.new.origin site.new }
    ensures told { is_some (S.Disk.seen.view site.new).transcript ≡ is_some (S.Disk.seen.view site.old).transcript }
    ensures link_faults { (S.Disk.seen.view site.old).link_faults ≤ (S.Disk.seen.view site.new).link_faults }
    ensures chosen { (S.Disk.seen.view site.new).chosen ≡ (S.Disk.seen.view site.old).chosen }
    ensures table { writer.new.table ≡ writer.old.table }
    ensures link_fault { result ≡ Served.LinkFault → Rose (S.Disk.seen.view site.old).link_faults (S.Disk.seen.view site.new).link_faults }
{
    crashes_hold_what_was_shown();
    turns_grow();
    let mut behind = 0;
    let mut short = 0;
    let _ = catch_up(rt, site, state, writer);
    for taken in 0..turns {
        match turn(site, state) {
            Turn::Went => {}
            Turn::Ended => return Served::Done {
                turns: taken,
                behind,
                short,
            },
            Turn::LinkFault => return Served::LinkFault,
            Turn::NoMemory => return Served::NoMemory,
        }
        let up = catch_up(rt, site, state, writer);
        behind += behind_by(up);
        short += short_by(up);
    }
    Served::Done {
        turns,
        behind,
        short,
    }
}
