//! What else happens in a round.
ghost use Rattle.std.specs.Prelude.{◌≡◌};
ghost use Rattle.sm_world.specs.Rounds.{kind_of, kind_by, state_by};

use crate::draws::Draws;

/// What happens in a round of a rehearsal beside the push of encoder A.
#[derive(Clone, Copy, Debug, PartialEq, Eq)]
pub enum Kind {
    /// Encoder B pushes another fragment with the address and the duration of one that is kept.
    Known,
    /// Encoder B pushes one with the address of one that is kept, and another duration.
    Clash,
    /// Encoder B pushes one that overlaps one that is kept.
    Overlap,
    /// The disk stops while encoder A pushes, then the site crashes, and A pushes the same again.
    Crash,
    /// Encoder B pushes what A pushed.
    Same,
    /// Nothing.
    Alone,
}

fn kind_of(number: u32) -> Kind
    ensures { result ≡ kind_of number }
{
    match number {
        0 => Kind::Known,
        1 => Kind::Clash,
        2 => Kind::Overlap,
        3 => Kind::Crash,
        4 => Kind::Same,
        _ => Kind::Alone,
    }
}

// What is drawn for the next round.
pub(crate) fn draw_kind(draws: &mut Draws) -> Kind
    ensures kind { result ≡ kind_by draws.old.state }
    ensures state { draws.new.state ≡ state_by draws.old.state }
{
    kind_of(draws.draw() % 8)
}
