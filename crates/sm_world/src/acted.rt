//! What came of a request at the origin.
ghost use Rattle.std.specs.Prelude.{◌≡◌, take};
ghost use Rattle.sm_world.specs.Answering.{answer_for, halved};

use sm_fetch::Answer;
use sm_model::Bytes;
use sm_site::Piece;

/// What came of a request at the origin.
#[derive(Debug, Drop)]
pub enum Acted {
    /// The store was not opened: the disk failed.
    Unopened,
    /// The link failed before all was served.
    Broken,
    /// These bytes went out on the connection.
    Sent(Piece),
    NoMemory,
}

// The first half of the bytes, rounded down, where the reply is cut, and at most as many as the limit.
fn cut_short(bytes: &mut Vec<u8>, cut: bool, limit: u64)
    ensures { bytes.new.items ≡ take limit (halved cut bytes.old.items) }
{
    if cut {
        bytes.truncate(bytes.len() / 2);
    }
    if bytes.len() as u64 > limit {
        bytes.truncate(limit as usize);
    }
}

// What the dial answers.
pub(crate) fn answer_for(lost: bool, cut: bool, limit: u64, acted: Acted) -> Answer
    ensures { result ≡ answer_for lost cut limit acted }
{
    match acted {
        Acted::Unopened | Acted::Broken => Answer::Lost,
        Acted::NoMemory => Answer::NoMemory,
        Acted::Sent(piece) => {
            if lost {
                return Answer::Lost;
            }
            let mut bytes = piece.into_vec();
            cut_short(&mut bytes, cut, limit);
            Answer::Bytes(Bytes::from_vec(bytes))
        }
    }
}
