//! Laws of what a link tells. Each is the contract of a function that does nothing.
ghost use Rattle.std.specs.Prelude.{ℕ, Bool, IfSome, IsTrue};
ghost use Rattle.sm_site.specs.Meanings.{Deal, View, IsLive, open_after};
ghost use Rattle.sm_site.specs.Clauses.{Adds};

/// A connection stays open behind an entry that doesn't close it: any but its peer's leaving and its own end.
pub fn connections_stay_live()
    ensures { (v w : View) (n : ℕ) (deal : Deal) → ((was : Bool) → IsTrue was → IsTrue (open_after was n deal))
        → IfSome v.transcript (IsLive n) → Adds deal v w → IfSome w.transcript (IsLive n) }
{}
