//! The body of a reply, out of the bytes behind its head.
ghost use Rattle.std.specs.Prelude.{◌≡◌, ◌≢◌, ◌++◌, ◌≤◌, ℕ, List, IfOk, length, drop, take};
ghost use Rattle.sm_body.specs.Places.{start, place_after, body_from};
ghost use Rattle.sm_fetch.specs.Answered.{body_bytes};
ghost use Rattle.sm_fetch.specs.Framed.{FramedAs};

use sm_body::{Framer, Framing, Step};
use sm_model::NoMemory;
use std::alloc::Global;

/// The bytes of a body: lent by the answer where they lie there in one piece, and joined where they came in several chunks.
#[derive(Debug, Drop)]
pub enum Body<'a> {
    Lent(&'a [u8]),
    Joined(Vec<u8>),
}

impl<'a> Body<'a> {
    /// The bytes.
    pub fn as_slice(&self) -> &[u8]
        ensures { result.now ≡ body_bytes self.now }
    {
        match self {
            Body::Lent(bytes) => bytes,
            Body::Joined(bytes) => bytes,
        }
    }
}

// What stands behind a head.
pub(crate) enum Framed<'a> {
    Whole(Body<'a>),
    Cut,
    Bad,
}

// The body with a further piece, at least 1 byte.
fn with_piece<'a>(alloc: Global, body: Body<'a>, piece: &'a [u8]) -> Result<Body<'a>, NoMemory>
    ensures { IfOk result (λ joined. body_bytes joined ≡ body_bytes body.entry ++ piece.now) }
{
    match body {
        Body::Lent(bytes) => {
            if bytes.len() == 0 {
                return Ok(Body::Lent(piece));
            }
            let mut joined = bytes.to_vec(alloc)?;
            joined.extend_from_slice(piece)?;
            Ok(Body::Joined(joined))
        }
        Body::Joined(mut joined) => {
            joined.extend_from_slice(piece)?;
            Ok(Body::Joined(joined))
        }
    }
}

// The body that the bytes behind a head of this framing begin with. A body of one piece isn't copied.
pub(crate) fn read_body<'a>(
    alloc: Global,
    framing: Framing,
    bytes: &'a [u8],
) -> Result<Framed<'a>, NoMemory>
    ensures { IfOk result (λ framed. FramedAs framing bytes.now framed) }
{
    let mut framer = Framer::new(framing);
    let mut body = Body::Lent(&[]);
    let mut at = 0;
    loop {
        match framer.step(&bytes[at..]) {
            Step::Skip(count) => at += count,
            Step::Body(count) => {
                body = with_piece(alloc, body, &bytes[at..at + count])?;
                at += count;
            }
            Step::End(_) => return Ok(Framed::Whole(body)),
            Step::More => return Ok(Framed::Cut),
            Step::Bad => return Ok(Framed::Bad),
        }
    }
}
