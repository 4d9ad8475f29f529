//! An origin in memory, whose disk stops and whose site crashes.
ghost use Rattle.sm_site.specs.Memory.{site_seen, site_view};
ghost use Rattle.sm_world.specs.Deeds.{IsCrash, IsStop};
ghost use Rattle.sm_world.specs.Worlds.{World, Crashes, Stands};

use crate::OriginDial;
use sm_origin::law::{an_image_fits, fewer_images_stand};
use sm_site::{Crashing, MemorySite};

impl OriginDial<MemorySite> {
    // Lets so many further writes and syncs of the disk pass, up to the next crash.
    pub(crate) fn stop_disk(&mut self, calls: u64)
        ensures stop { IsStop calls self.old self.new }
        ensures stands { (w : World) → Stands site_seen w self.old.1.state self.old.0 → Stands site_seen w self.new.1.state self.new.0 }
    {
        fewer_images_stand::<MemorySite>();
        self.site.stop_after(calls);
    }

    // Crashes the site, which keeps the image of this choice.
    pub(crate) fn crash_by(&mut self, choice: u8)
        ensures crash { IsCrash choice self.old self.new }
        ensures crashes { (w : World) → Stands site_seen w self.old.1.state self.old.0
            → (now : World) × Stands site_seen now self.new.1.state self.new.0 × Crashes (site_view self.old.0).transcript w now }
    {
        an_image_fits::<MemorySite>();
        self.site.crash_here(choice);
        self.state = None;
        self.crashes = self.crashes.saturating_add(1);
    }
}
