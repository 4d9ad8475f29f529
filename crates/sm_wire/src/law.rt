//! Laws of what a connection sends. Each is the contract of a function that only calls other laws.
ghost use Rattle.std.specs.Prelude.{◌≡◌, ℕ, List, ◌∷◌, [], ◌++◌, map, false, Option, Some, None};
ghost use Rattle.sm_model.specs.declared.cause.Refusal.{Refusal};
ghost use Rattle.sm_model.specs.declared.header.HeaderTrack.{HeaderTrack};
ghost use Rattle.sm_model.specs.Items.{Given};
ghost use Rattle.sm_push.specs.Body.{body, led_by, refused};
ghost use Rattle.sm_conn.specs.Parts.{PartItem, byte};
ghost use Rattle.sm_wire.specs.declared.item.WireItem.{WireItem};
ghost use Rattle.sm_wire.specs.declared.item.WireItem.TheVariants.{Refuse};
ghost use Rattle.sm_wire.specs.Wire.{shown, wire, Left, IsWire};

use sm_conn::law::parts_of_front;
use sm_push::front;

/// What the front of the bytes gives begins what all of them give, where the bodies of pushes are read as their headers and
/// fragments. So what bytes give is one list, and what was given stays, whatever comes behind it.
pub fn wire_of_front()
    ensures bytes { (bytes more : List ℕ) (items all : List WireItem) → IsWire bytes items → IsWire (bytes ++ more) all
        → (rest : List WireItem) × (all ≡ items ++ rest) }
    // The same of the parts that a connection reads from them.
    ensures parts { (parts more : List PartItem) → (rest : List WireItem) × (wire None (parts ++ more) ≡ wire None parts ++ rest) }
    // Beyond what the open push gave already there is always something that is left to the parts that come.
    ensures left { (open_push : Option (List ℕ)) (parts : List PartItem) → (items : List WireItem) × Left open_push parts items }
    // Where bytes of a push bring a refusal, the items before it and the refusal are what is left, whatever follows.
    ensures ends { (before bytes : List ℕ) (items : List Given) (header : List HeaderTrack) (r : Refusal) (parts : List PartItem)
        → body false (before ++ bytes) ≡ led_by ((body false before).items ++ items) (refused header r)
        → Left (Some before) (map (λ b. byte b) bytes ++ parts) (map shown items ++ Refuse r ∷ []) }
{
    parts_of_front();
    front();
}
