//! Laws of heads, whole boxes and children. Each is the contract of a function that does nothing.
ghost use Rattle.std.specs.Prelude.{◌≡◌, ◌≢◌, ◌<◌, ◌^◌, ◌+◌, ◌++◌, ◌∷◌, [], ℕ, List, Some, None, length, true};
ghost use Rattle.std.specs.Option.{option_map};
ghost use Rattle.sm_model.specs.Boxes.{starts_whole, box_of, boxes};
ghost use Rattle.sm_model.specs.FragText.{box};
ghost use Rattle.sm_box.specs.Heads.{head_of, small_box};
ghost use Rattle.sm_box.specs.Place.{Place, left};
ghost use Rattle.sm_box.specs.Walks.{IsItem, IsDone, IsBad};
ghost use Rattle.sm_box.specs.declared.head.Head.TheVariants.{Whole, Short};

/// A whole box in front of any bytes is read as what it is.
pub fn whole_is_read()
    ensures { (b : List ℕ) → starts_whole b ≡ true → head_of b ≡ Whole (box_of b).kind (box_of b).head (box_of b).size }
{}

/// A whole box in front stays the same whatever bytes follow.
pub fn whole_stays()
    ensures whole { (b rest : List ℕ) → starts_whole b ≡ true → starts_whole (b ++ rest) ≡ true }
    ensures same { (b rest : List ℕ) → starts_whole b ≡ true → box_of (b ++ rest) ≡ box_of b }
{}

/// What was read of a head stays the same whatever bytes follow, unless the head was short.
pub fn head_stays()
    ensures { (b rest : List ℕ) → head_of b ≢ Short → head_of (b ++ rest) ≡ head_of b }
{}

/// No head of 16 bytes is short.
pub fn short_is_short()
    ensures { (b : List ℕ) → head_of b ≡ Short → length b < 16 }
{}

/// A box that was written is read again, also where further bytes follow: its head, and the box whole.
pub fn written_box_is_read()
    ensures head { (kind body rest : List ℕ) → length kind ≡ 4 → 8 + length body < 2 ^ 32
        → head_of (box (8 + length body) kind body ++ rest) ≡ Whole kind 8 (8 + length body) }
    ensures whole { (kind body rest : List ℕ) → length kind ≡ 4 → 8 + length body < 2 ^ 32
        → starts_whole (box (8 + length body) kind body ++ rest) ≡ true }
    ensures boxes { (kind body rest : List ℕ) → length kind ≡ 4 → 8 + length body < 2 ^ 32
        → boxes (box (8 + length body) kind body ++ rest) ≡ option_map (λ xs. small_box kind body ∷ xs) (boxes rest) }
{}

/// The children that are walked are the boxes of the body: a child is the first of the boxes that are left, at the end
/// none are left, and where a child is bad what is left is none of boxes.
pub fn children_are_the_boxes()
    ensures item { (p q : Place) (kind : List ℕ) (at body_at size : ℕ) → IsItem p q kind at body_at size
        → boxes (left p) ≡ option_map (λ xs. box_of (left p) ∷ xs) (boxes (left q)) }
    ensures done { (p q : Place) → IsDone p q → boxes (left p) ≡ Some [] }
    ensures bad { (p q : Place) (at : ℕ) → IsBad p q at → boxes (left p) ≡ None }
{}
