//! The framing of a body read from a whole text, byte by byte.
ghost use Rattle.std.specs.Prelude.{◌≡◌, IfOk};
ghost use Rattle.sm_body.specs.Places.{start, place_after, body_from, next_place, is_data};

use crate::next::next_framing;
use crate::{Framer, Framing, Place};
use sm_model::{Bytes, NoMemory};
use std::alloc::Global;

/// What a whole text behind a head is.
#[derive(Debug, Drop)]
pub struct PlainBody {
    /// Where the byte behind the text stands.
    pub place: Place,
    /// The bytes of the body.
    pub body: Bytes,
}

// Whether the byte that comes there is of the body.
fn is_data(place: Place) -> bool
    ensures { result ≡ is_data place }
{
    matches!(place, Place::Counted(_) | Place::Data(_))
}

// The place behind a byte.
fn next_place(place: Place, byte: u8) -> Place
    ensures { result ≡ next_place place byte }
{
    match place {
        Place::Counted(0 | 1) => Place::Ended,
        Place::Counted(left) => Place::Counted(left - 1),
        Place::Data(0 | 1) => Place::DataReturn,
        Place::Data(left) => Place::Data(left - 1),
        _ => next_framing(place, byte),
    }
}

/// Reads a whole text behind a head by its definition, byte by byte. It is slow, and there to compare with.
pub fn read_plainly(alloc: Global, framing: Framing, text: &[u8]) -> Result<PlainBody, NoMemory>
    ensures place { IfOk result (λ plain. plain.place ≡ place_after (start framing) text.now) }
    ensures body { IfOk result (λ plain. plain.body ≡ body_from (start framing) text.now) }
{
    let mut place = Framer::new(framing).place;
    let mut body = Vec::new(alloc);
    for byte in text {
        if is_data(place) {
            body.push(*byte)?;
        }
        place = next_place(place, *byte);
    }
    Ok(PlainBody {
        place,
        body: Bytes::from_vec(body),
    })
}
