//! Laws of dials.
ghost use Rattle.std.specs.Prelude.{◌≡◌, List, Option, Some};
ghost use Rattle.sm_site.specs.Meanings.{Item};
ghost use Rattle.sm_serve.specs.declared.state.State.{State};
ghost use Rattle.sm_world.specs.Pushed.{ComesOf};
ghost use Rattle.sm_world.specs.Worlds.{World, Stands};

use sm_site::Crashing;

/// Each fragment that a dial's log keeps behind its first log was pushed: by some moment, in one of the transcripts of the openings
/// before the last crash or in the one since, the bytes that had come on a connection gave it.
pub fn what_is_kept_was_pushed<S: Crashing>()
    ensures { (w : World) (state : Option State) (site : S) → Stands S.Disk.seen w state site
        → (items : List Item) × ((S.Disk.seen.view site).transcript ≡ Some items) × ComesOf w.first w.past items w.log }
{}
