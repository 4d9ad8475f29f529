//! A site that crashes where it is told to.
ghost use Rattle.std.specs.Prelude.{◌≡◌, ◌++◌, ◌∷◌, [], ℕ, Bool, List, Option, None, Some, IfOk, IfSome, IsSome, IsTrue, OnOk, OnErr, is_some};
ghost use Rattle.sm_site.specs.Image.{Image, bytes_of};
ghost use Rattle.sm_site.specs.Meanings.{Item, sent_on};
ghost use Rattle.sm_site.specs.Clauses.{Both, Settled, Kept};
ghost use Rattle.sm_site.specs.Scripts.{is_script, deals_of, numbers_after};
ghost use Rattle.sm_site.specs.NextNumber.{IsNumber};
ghost use Rattle.sm_site.specs.Sites.{SameBut, SameCounts, Tells, Undisturbed};

use crate::{Piece, Script, Site};
use std::alloc::AllocError;

/// A site that is told what its link brings and when it crashes, and that tells what went out. It goes on after a crash as
/// a site does whose machine was started again.
pub trait Crashing: Site {
    /// The transcripts of the openings before the last crash, those without an entry left out.
    ghost openings: { Self → List (List Item) };

    /// Whether memory has run out.
    ghost is_starved: { Self → Bool };

    /// How many further writes and syncs pass, where those behind them are to fail.
    ghost stop: { Self → Option ℕ };

    /// What a crash of this choice would leave now.
    ghost left_by: { Self → ℕ → Image };

    /// The first number that a connection of further events may have: it is above all that were given and all still to come.
    fn next_number(&self) -> Option<u64>
        ensures { IfSome (Self.Disk.seen.view self.now).script (λ deals. IsNumber result (numbers_after (Self.Link.numbers self.now) deals)) };

    /// Adds events to the script. The numbers of its connections go on above those given and those still to come. Want of memory
    /// leaves the site as it was.
    fn extend(&mut self, events: Script) -> Result<(), AllocError>
        requires script { IfSome (Self.Disk.seen.view self.old).script (λ deals. IsTrue (is_script (numbers_after (Self.Link.numbers self.old) deals) events)) }
        ensures added { OnOk result (Both (Self.Disk.seen.view self.old).script (Self.Disk.seen.view self.new).script (λ old new. new ≡ old ++ deals_of events)) }
        ensures refused { OnErr result ((Self.Disk.seen.view self.new).script ≡ (Self.Disk.seen.view self.old).script) }
        ensures view { SameBut (Self.Disk.seen.view self.old) (Self.Disk.seen.view self.new) }
        ensures keeps { Undisturbed Self.Disk.seen Self.Link.numbers openings is_starved left_by self.old self.new }
        ensures stop { stop self.new ≡ stop self.old };

    /// The bytes that went out on a connection since the last crash.
    fn sent(&self, conn: u64) -> Result<Piece, AllocError>
        ensures { IfOk result (λ piece. IfSome (Self.Disk.seen.view self.now).transcript (λ items. piece ≡ sent_on conn items)) };

    /// Lets so many further writes and syncs pass. All behind them fail, up to the next crash.
    fn stop_after(&mut self, calls: u64)
        ensures view { Self.Disk.seen.view self.new ≡ Self.Disk.seen.view self.old }
        ensures keeps { Undisturbed Self.Disk.seen Self.Link.numbers openings is_starved left_by self.old self.new }
        ensures stop { stop self.new ≡ Some calls };

    /// Crashes in place, without memory. What it keeps is one of the images that a crash may leave, chosen by the number; then
    /// nothing is pending, nothing stops, the script is empty, and the transcript begins anew, the old one being put to the others. It
    /// is selected with what it was selected with.
    fn crash_here(&mut self, choice: u8)
        ensures kept { IfSome (Self.Disk.seen.view self.new).contents (λ now. (file : ℕ) → bytes_of now file ≡ bytes_of (left_by self.old choice) file) }
        ensures image { IfSome (Self.Disk.seen.view self.new).contents (Self.Disk.seen.may_leave self.old) }
        ensures told { is_some (Self.Disk.seen.view self.new).contents ≡ is_some (Self.Disk.seen.view self.old).contents }
        ensures settled { IfSome (Self.Disk.seen.view self.new).contents (λ now. Settled now (Self.Disk.seen.may_leave self.new)) }
        ensures transcript { IfSome (Self.Disk.seen.view self.new).transcript (λ items. items ≡ []) }
        ensures script { IfSome (Self.Disk.seen.view self.new).script (λ deals. deals ≡ []) }
        ensures openings { IfSome (Self.Disk.seen.view self.old).transcript (λ items. Kept items (openings self.old) (openings self.new)) }
        ensures numbers { Self.Link.numbers self.new ≡ Self.Link.numbers self.old }
        ensures counts { SameCounts (Self.Disk.seen.view self.old) (Self.Disk.seen.view self.new) }
        ensures chosen { (Self.Disk.seen.view self.new).chosen ≡ (Self.Disk.seen.view self.old).chosen }
        ensures starved { is_starved self.new ≡ is_starved self.old }
        ensures stop { stop self.new ≡ None };

    /// Whether memory has run out. While it hasn't, each fault of the site so far was of a number that was listed, or came behind
    /// a stop.
    fn starved(&self) -> bool
        ensures { result ≡ is_starved self.now };

    /// It tells its contents, its transcript and its script.
    ghost tells: { (s : Self) → Tells (Self.Disk.seen.view s) };
}
