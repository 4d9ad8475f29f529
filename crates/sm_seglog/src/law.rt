//! Laws of what the files of a store hold.
ghost use Rattle.std.specs.Prelude.{◌≡◌, ℕ, List};
ghost use Rattle.sm_site.specs.Image.{Image};
ghost use Rattle.sm_seglog.specs.Stores.{HasStore, NotAStore};

use sm_gatelog::law::one_reading;

/// An image has one list of bodies, cut into files in one way, or is no store, which one place is the first to show.
pub fn stores_have_one_reading()
    ensures one_list { (xs ys : List (List ℕ)) (image : Image) → HasStore xs image → HasStore ys image → xs ≡ ys }
    ensures one_cut { (xs ys : List (List ℕ)) (image : Image) (a : HasStore xs image) (b : HasStore ys image) → a.parts ≡ b.parts }
    ensures no_fault { (xs : List (List ℕ)) (at : ℕ) (image : Image) → HasStore xs image → NotAStore at image → ⊥ }
    ensures one_place { (m n : ℕ) (image : Image) → NotAStore m image → NotAStore n image → m ≡ n }
{
    one_reading();
}
