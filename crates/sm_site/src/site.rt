//! A disk and a link on one clock.
ghost use Rattle.std.specs.Prelude.{◌≡◌, ◌≤◌, IsErrOf, None, OnErr, OnOk, Some};
ghost use Rattle.sm_site.specs.Clauses.{AreOne, Passes, Rose, SameOutcomes};
ghost use Rattle.sm_site.specs.Meanings.{asked};

use crate::{Disk, Link, Selection, SiteError};

/// A disk and a link whose clock is one: it says what was sent up to a moment, and what a crash at that moment may leave.
pub trait Site: Disk + Link {
    /// Chooses the folder of the disk and where the link listens. The site tells what it is selected with from then on; after a refusal
    /// it is selected with nothing. It tells too that it was asked once more. Beside that it changes at most the two counts of faults,
    /// and the clock.
    fn select(&mut self, selection: Selection) -> Result<(), SiteError>
        ensures chosen { OnOk result ((Self.Disk.seen.view self.new).chosen ≡ asked (Self.Disk.seen.view self.old).chosen (Some selection)) }
        ensures unchosen { OnErr result ((Self.Disk.seen.view self.new).chosen ≡ asked (Self.Disk.seen.view self.old).chosen None) }
        ensures contents { (Self.Disk.seen.view self.new).contents ≡ (Self.Disk.seen.view self.old).contents }
        ensures calls { (Self.Disk.seen.view self.new).calls ≡ (Self.Disk.seen.view self.old).calls }
        ensures reads { (Self.Disk.seen.view self.new).reads ≡ (Self.Disk.seen.view self.old).reads }
        ensures transcript { (Self.Disk.seen.view self.new).transcript ≡ (Self.Disk.seen.view self.old).transcript }
        ensures script { (Self.Disk.seen.view self.new).script ≡ (Self.Disk.seen.view self.old).script }
        ensures send_faults { (Self.Disk.seen.view self.new).send_faults ≡ (Self.Disk.seen.view self.old).send_faults }
        ensures numbers { Self.Link.numbers self.new ≡ Self.Link.numbers self.old }
        ensures disk_faults { (Self.Disk.seen.view self.old).disk_faults ≤ (Self.Disk.seen.view self.new).disk_faults }
        ensures link_faults { (Self.Disk.seen.view self.old).link_faults ≤ (Self.Disk.seen.view self.new).link_faults }
        ensures disk { IsErrOf result SiteError.Disk → Rose (Self.Disk.seen.view self.old).disk_faults (Self.Disk.seen.view self.new).disk_faults }
        ensures link { IsErrOf result SiteError.Link → Rose (Self.Disk.seen.view self.old).link_faults (Self.Disk.seen.view self.new).link_faults }
        ensures crash { SameOutcomes (Self.Disk.seen.may_leave self.old) (Self.Disk.seen.may_leave self.new) }
        ensures time { Passes Self.Disk.seen self.old self.new };

    /// The disk and the link tell the same of the site.
    ghost one: { AreOne Self.Disk.seen Self.Link.seen };
}
