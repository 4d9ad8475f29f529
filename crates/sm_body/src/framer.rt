//! The framing of a body whose bytes come in pieces.
ghost use Rattle.std.specs.Prelude.{◌≡◌, true};
ghost use Rattle.sm_body.specs.Places.{is_open, start};
ghost use Rattle.sm_body.specs.Steps.{StepGives};

use crate::next::next_framing;
use crate::{Framing, Place};

/// What the first of the bytes given are.
#[derive(Clone, Copy, Debug, PartialEq, Eq, Drop)]
pub enum Step {
    /// So many bytes, at least 1, frame the body and are none of it.
    Skip(usize),
    /// So many bytes, at least 1, are of the body: as many as were given and are left of it, or of its chunk.
    Body(usize),
    /// So many bytes frame the body, and it ends behind them. For a counted and an absent body they are none.
    End(usize),
    /// No byte was given, and the body hasn't ended.
    More,
    /// The first byte fits nowhere, or one before it didn't.
    Bad,
}

/// Tells which bytes behind a head are of the body, and where the body ends. It takes no memory, and holds no byte.
///
/// A chunk line is 1 to 15 hexadecimal digits, then nothing, or spaces and tabs, or a `;` and any bytes but CR and LF, and
/// then CR LF; it has at most 256 bytes in all. CR LF follows the data of a chunk. Behind a chunk of size 0 a trailer is
/// passed over, whose lines end with CR LF, up to an empty one: at most 8,192 bytes. A bare CR or LF is content of such a
/// line.
#[derive(Debug, Drop)]
pub struct Framer {
    /// Where the next byte stands.
    pub place: Place,
    pub ghost live: { is_open place ≡ true },
}

impl Framer {
    /// At the first byte behind a head with this framing.
    pub fn new(framing: Framing) -> Framer
        ensures { result.place ≡ start framing }
    {
        Framer {
            place: match framing {
                Framing::None | Framing::Counted(0) => Place::Ended,
                Framing::Counted(length) => Place::Counted(length),
                Framing::Chunked => Place::Digits(0, 0),
            },
        }
    }

    /// What the first of these bytes are, which are passed then. Behind the end of the body it answers `End(0)`, whatever
    /// is given; once it answered `Bad`, it answers that.
    pub fn step(&mut self, bytes: &[u8]) -> Step
        ensures { StepGives self.old.place bytes.now result self.new.place }
    {
        match self.place {
            Place::Ended => return Step::End(0),
            Place::Failed => return Step::Bad,
            _ => {}
        }
        if bytes.len() == 0 {
            return Step::More;
        }
        match self.place {
            Place::Counted(left) => {
                let count = (bytes.len() as u64).min(left);
                self.place = if count == left {
                    Place::Ended
                } else {
                    Place::Counted(left - count)
                };
                Step::Body(count as usize)
            }
            Place::Data(left) => {
                let count = (bytes.len() as u64).min(left);
                self.place = if count == left {
                    Place::DataReturn
                } else {
                    Place::Data(left - count)
                };
                Step::Body(count as usize)
            }
            place => {
                self.place = next_framing(place, bytes[0]);
                match self.place {
                    Place::Ended => Step::End(1),
                    Place::Failed => Step::Bad,
                    _ => Step::Skip(1),
                }
            }
        }
    }
}
