//! Laws of connections. Each is the contract of a function that does nothing.
ghost use Rattle.std.specs.Prelude.{◌≡◌, ℕ, List, [], ◌++◌};
ghost use Rattle.sm_conn.specs.Parts.{PartItem, Mode, in_head, Reads};

/// What the front of the bytes gives begins what all of them give. So what bytes give is one list.
pub fn parts_of_front()
    ensures { (bytes more : List ℕ) (items all : List PartItem) (mode last : Mode) → Reads (in_head []) bytes items mode
        → Reads (in_head []) (bytes ++ more) all last → (rest : List PartItem) × (all ≡ items ++ rest) }
{}
