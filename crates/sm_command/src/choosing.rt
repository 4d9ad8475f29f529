//! Choosing the site of a command.
ghost use Rattle.std.specs.Prelude.{◌≡◌, IfErr, None, OnErr, OnOk, Some};
ghost use Rattle.sm_site.specs.Meanings.{asked};
ghost use Rattle.sm_command.specs.Choosing.{WhyUnchosen};
ghost use Rattle.sm_command.specs.Lasting.{OnlyChosen};

use crate::StoreFault;
use sm_site::{Selection, Site, SiteError};

/// Chooses the folder of a site's disk and where its link listens: what a command on a store begins with. It is asked once. Nothing is
/// written and nothing is sent. After a fault the site is selected with nothing.
pub fn choose<S: Site>(site: &mut S, selection: Selection) -> Result<(), StoreFault>
    ensures chosen { OnOk result ((S.Disk.seen.view site.new).chosen ≡ asked (S.Disk.seen.view site.old).chosen (Some selection)) }
    ensures unchosen { OnErr result ((S.Disk.seen.view site.new).chosen ≡ asked (S.Disk.seen.view site.old).chosen None) }
    ensures only { OnlyChosen S.Disk.seen site.old site.new }
    ensures why { IfErr result (λ why. WhyUnchosen (S.Disk.seen.view site.old) (S.Disk.seen.view site.new) why) }
{
    match site.select(selection) {
        Ok(()) => Ok(()),
        Err(SiteError::Disk) => Err(StoreFault::DiskFault),
        Err(SiteError::Link) => Err(StoreFault::LinkFault),
        Err(SiteError::NoMemory) => Err(StoreFault::NoMemory),
    }
}
