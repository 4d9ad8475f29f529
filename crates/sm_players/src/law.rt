//! Laws of players. Each is the contract of a function that does nothing.
ghost use Rattle.std.specs.Prelude.{ℕ, Bool, List};
ghost use Rattle.sm_site.specs.Meanings.{Deal};
ghost use Rattle.sm_log.specs.Digests.{Extends};
ghost use Rattle.sm_players.specs.Asking.{Asking};
ghost use Rattle.sm_players.specs.Open.{Known};
ghost use Rattle.sm_players.specs.Taking.{Standing};
ghost use Rattle.sm_players.specs.Playing.{Turns, Plays};

/// What a player has seen only goes forward: behind each event the digest that it saw last goes on from the one that it had seen before.
pub fn players_see_forward()
    ensures turn { (lives after : List Known) (p q : Standing) (deal : Deal) (told : List Deal) (asked : List Asking)
        → Turns lives p deal told asked after q → Extends q.seen p.seen }
    ensures all { (p q : Standing) (taken : ℕ) (deals : List Deal) (asked : List Asking) (lives : List Known) (ended : Bool)
        → Plays p taken deals asked lives ended q → Extends q.seen p.seen }
{}
