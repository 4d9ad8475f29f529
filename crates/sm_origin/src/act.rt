//! One act is one step.
ghost use Rattle.std.specs.Prelude.{◌≡◌, Some};
ghost use Rattle.sm_model.specs.declared.address.Address.{Address};
ghost use Rattle.sm_model.specs.declared.act.Act.TheVariants.{Fragment as Ask};
ghost use Rattle.sm_cache.specs.declared.cache.Kept.{Kept};
ghost use Rattle.sm_origin.specs.Acting.{StandsForSome, IsValidAct};
ghost use Rattle.sm_origin.specs.Acts.{Acts};
ghost use Rattle.sm_origin.specs.Caching.{held_at};
ghost use Rattle.sm_origin.specs.Seen.{cache_of};

use crate::counts::tell_counts;
use crate::listing::list;
use crate::origin::Origin;
use crate::told::or_starved;
use sm_archive::an_image_fits;
use sm_model::{Act, Cause};
use sm_reply::{Reply, tell, tell_at};
use sm_site::Site;
use std::alloc::Global;

impl Origin {
    /// Answers one act, by the log as it stands. A header or a fragment of a push that is accepted is answered by nothing, and from then on every
    /// crash leaves it; an entry in doubt is settled before one is looked at. A fragment that is asked for is taken from the cache, or read
    /// back from the disk and put there.
    pub fn act<S: Site>(&mut self, alloc: Global, site: &mut S, act: &Act) -> Reply
        requires valid { IsValidAct act.now }
        requires stands { StandsForSome S.Disk.seen self.old site.old }
        ensures acts { Acts S.Disk.seen site.old site.new self.old self.new act.now result }
        // A fragment in the cache is given without a read of the disk.
        ensures unread { (a : Address) (kept : Kept) → act.now ≡ Ask a → held_at a (cache_of self.old) ≡ Some kept
            → (S.Disk.seen.view site.new).reads ≡ (S.Disk.seen.view site.old).reads }
    {
        an_image_fits::<S>();
        match act {
            Act::Manifest => or_starved(alloc, list(alloc, &self.archive)),
            Act::Fragment(address) => self.fragment(alloc, site, address),
            Act::Unknown => or_starved(alloc, tell(alloc, Cause::NoTarget)),
            Act::Header(channel) => self.header(alloc, site, channel),
            Act::Frag(fragment) => self.keep(alloc, site, fragment),
            Act::End { kept, known } => or_starved(alloc, tell_counts(alloc, *kept, *known)),
            Act::Refuse(refusal) => or_starved(alloc, tell_at(alloc, refusal)),
        }
    }
}
