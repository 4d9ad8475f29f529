//! Laws of origins. Each is the contract of a function that only calls other laws.
ghost use Rattle.std.specs.Prelude.{◌≡◌};
ghost use Rattle.sm_site.specs.Image.{Image};
ghost use Rattle.sm_site.specs.Clauses.{NoMore};
ghost use Rattle.sm_origin.specs.declared.origin.Origin.{Origin};
ghost use Rattle.sm_origin.specs.Machine.{Machine};
ghost use Rattle.sm_origin.specs.Stores.{Fits};
ghost use Rattle.sm_origin.specs.Acting.{StandsOn};

use sm_archive::{an_image_fits as image_of_archive, fewer_images_stand as archive_stands};
use sm_site::Site;

/// An origin stands for a machine as well where a crash may leave fewer images, as behind any call of the link.
pub fn fewer_images_stand<S: Site>()
    ensures { (m : Machine) (o : Origin) (old new : S) → StandsOn S.Disk.seen m o old
        → (S.Disk.seen.view new).contents ≡ (S.Disk.seen.view old).contents → NoMore (S.Disk.seen.may_leave old) (S.Disk.seen.may_leave new)
        → StandsOn S.Disk.seen m o new }
{
    archive_stands::<S>();
}

/// Each image that a crash may leave of an origin's disk is the machine's log, or the log and its doubt.
pub fn an_image_fits<S: Site>()
    ensures { (m : Machine) (o : Origin) (site : S) (image : Image) → StandsOn S.Disk.seen m o site
        → S.Disk.seen.may_leave site image → Fits m image }
{
    image_of_archive::<S>();
}
