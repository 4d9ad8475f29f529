//! The premises of the promises can be met: a site in memory begins with a store of nothing, and each call on it is a run of the program.
ghost use Rattle.std.specs.Prelude.{◌≡◌, IsTrue, ℕ, List, [], length, map, string_bytes};
ghost use Rattle.sm_model.specs.declared.entry.Entry.{Entry};
ghost use Rattle.sm_site.specs.Image.{Image};
ghost use Rattle.sm_site.specs.Memory.{site_seen};
ghost use Rattle.sm_site.specs.Scripts.{is_script};
ghost use Rattle.sm_archive.specs.Store.{IsStore};
ghost use Rattle.sm_client.specs.Turns.{meant};
ghost use Rattle.sm_tool.specs.Edges.{dialing};
ghost use Rattle.sm_promises.specs.Promises.{ProgramRan, BeginsWith, KeepsAllTold};

use crate::call::promised;
use crate::law::what_was_told_stays;
use sm_ends::{Sink, Source, Tracks};
use sm_fetch::Dial;
use sm_players::Spawner;
use sm_policy::Policy;
use sm_site::{MemorySite, Numbers, Script, Site};
use std::alloc::Global;
use std::sync::Wait;

/// A new site in memory. It tells its disk and its connections, and has the store of nothing.
pub fn new_site(alloc: Global, script: Script) -> MemorySite
    requires script { IsTrue (is_script 0 script) }
    ensures begins { BeginsWith site_seen result [] [] }
    ensures clock { (site_seen.view result).moment ≡ 0 }
{
    let disk = Numbers::from_vec(Vec::new(alloc));
    let link = Numbers::from_vec(Vec::new(alloc));
    let site = MemorySite::new(alloc, script, disk, link);
    site
}

/// What was told stays, of a run on a new site in memory.
pub fn promised_in_memory<R: Wait, I: Source, O: Sink, C: Dial, T: Tracks, P: Spawner>(
    rt: &R,
    alloc: Global,
    words: &[String],
    script: Script,
    input: &mut I,
    output: &mut O,
    dial: &mut C,
    tracks: &mut T,
    spawner: &mut P,
    policies: Vec<Box<dyn Policy>>,
) -> MemorySite
    requires script { IsTrue (is_script 0 script) }
    requires policies { length policies.items ≡ 3 }
    // The run began with nothing, so that its transcript is what it had told. Whatever a crash may leave at any moment is one store, which keeps
    // all that was told by then.
    ensures stays { (t : ℕ) (image : Image) → site_seen.left_at result t image
        → (kept : List Entry) × IsStore kept image × KeepsAllTold site_seen result [] t kept }
{
    what_was_told_stays::<MemorySite, C, Box<dyn Policy>>();
    let mut site = new_site(alloc, script);
    let _ = promised(
        rt, alloc, words, input, output, &mut site, dial, tracks, spawner, policies,
    );
    site
}
