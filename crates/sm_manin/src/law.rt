//! Laws of manifests that are read. Each is proved once, and there is nothing to run.
ghost use Rattle.std.specs.Prelude.{◌≡◌, ℕ, List, Result};
ghost use Rattle.sm_manin.specs.declared.listing.Listing.{Listing};
ghost use Rattle.sm_manin.specs.ManifestRead.{IsManifest};

/// Every text has a reading as a manifest, its listing or the least place of a fault, and no two.
pub fn text_has_one_reading()
    ensures some { (text : List ℕ) → (r : Result Listing ℕ) × IsManifest text r }
    ensures one { (text : List ℕ) (r s : Result Listing ℕ) → IsManifest text r → IsManifest text s → r ≡ s }
{}
