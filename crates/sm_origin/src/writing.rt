//! Headers and fragments of pushes.
ghost use Rattle.std.specs.Prelude.{◌≡◌, ◌⊎◌};
ghost use Rattle.sm_model.specs.declared.act.Act.TheVariants.{Header, Frag};
ghost use Rattle.sm_model.specs.Channels.{IsChannel};
ghost use Rattle.sm_model.specs.Fragments.{IsValid};
ghost use Rattle.sm_site.specs.Clauses.{Rose};
ghost use Rattle.sm_archive.specs.declared.answers.Declared.TheVariants as answer;
ghost use Rattle.sm_origin.specs.Answers.{reply_to_header};
ghost use Rattle.sm_origin.specs.Acting.{StandsForSome};
ghost use Rattle.sm_origin.specs.Acts.{IsOneStep, Acts};
ghost use Rattle.sm_origin.specs.Caching.{with_kept};
ghost use Rattle.sm_origin.specs.Seen.{cache_of};

use crate::origin::Origin;
use crate::told::{tell_declared, tell_kept};
use sm_archive::{Declared, Keeping, an_image_fits};
use sm_log::law::{kept_is_added, listed_times_stay};
use sm_model::{Channel, Fragment, NoMemory};
use sm_reply::{Counted, Reply, silent};
use sm_site::{Disk, Site};
use std::alloc::Global;

impl Origin {
    // Puts a fragment that was just kept into the cache, where memory is there for it.
    fn remember(&mut self, alloc: Global, place: u64, fragment: &Fragment)
        ensures archive { self.new.archive ≡ self.old.archive }
        ensures cache { (self.new.cache ≡ self.old.cache) ⊎ (self.new.cache ≡ with_kept self.old.cache place fragment.now) }
    {
        match fragment.copy(alloc) {
            Err(NoMemory) => {}
            Ok(own) => match self.cache.put(alloc, place, own) {
                Err(NoMemory) => {}
                Ok(()) => {}
            },
        }
    }

    // Keeps a fragment of a push.
    pub(crate) fn keep<D: Disk>(
        &mut self,
        alloc: Global,
        disk: &mut D,
        fragment: &Fragment,
    ) -> Reply
        requires valid { IsValid fragment.now }
        requires stands { StandsForSome D.seen self.old disk.old }
        ensures { Acts D.seen disk.old disk.new self.old self.new (Frag fragment.now) result }
    {
        an_image_fits::<D>();
        kept_is_added();
        listed_times_stay();
        match self.archive.keep(alloc, disk, fragment) {
            Keeping::Kept { place } => {
                self.remember(alloc, place, fragment);
                silent(alloc, Counted::Kept)
            }
            answer => tell_kept(alloc, answer),
        }
    }

    /// Declares a channel in an empty log, or compares it with the one that stands: what a header of a push does, without a reply. An
    /// entry in doubt is settled first.
    pub fn declare<S: Site>(&mut self, alloc: Global, site: &mut S, channel: &Channel) -> Declared
        requires valid { IsChannel channel.now }
        requires stands { StandsForSome S.Disk.seen self.old site.old }
        // It is one step, whose reply is the answer's.
        ensures one { IsOneStep S.Disk.seen site.old site.new self.old self.new (Header channel.now) (λ log. reply_to_header result) }
        ensures cache { cache_of self.new ≡ cache_of self.old }
        ensures fault { result ≡ answer.DiskFault → Rose (S.Disk.seen.view site.old).disk_faults (S.Disk.seen.view site.new).disk_faults }
    {
        an_image_fits::<S>();
        kept_is_added();
        listed_times_stay();
        self.archive.declare(alloc, site, channel)
    }

    // Takes the header of a push.
    pub(crate) fn header<D: Disk>(
        &mut self,
        alloc: Global,
        disk: &mut D,
        channel: &Channel,
    ) -> Reply
        requires valid { IsChannel channel.now }
        requires stands { StandsForSome D.seen self.old disk.old }
        ensures { Acts D.seen disk.old disk.new self.old self.new (Header channel.now) result }
    {
        an_image_fits::<D>();
        kept_is_added();
        listed_times_stay();
        let answer = self.archive.declare(alloc, disk, channel);
        tell_declared(alloc, answer)
    }
}
