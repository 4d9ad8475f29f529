//! Whole bodies, pushed.
ghost use Rattle.std.specs.Prelude.{◌≡◌};
ghost use Rattle.sm_fetch.specs.Exchanges.{Rose};
ghost use Rattle.sm_fetch.specs.Origins.{DialAlone};
ghost use Rattle.sm_fetch.specs.Fetched.{PushedBody};
ghost use Rattle.sm_fetch.specs.Spelt.{SpellsLine};

use crate::reply::{Reply, read_reply};
use crate::request::put_push_request;
use crate::{Answer, Dial, Place};
use sm_model::{Bytes, Name, NoMemory};
use std::alloc::Global;

// How many bytes of a whole reply are taken.
const PUSH_LIMIT: u64 = 1_048_576;

/// What a push got.
#[derive(Debug, Drop)]
pub enum Pushed {
    /// A whole reply, whatever its status, and its body: the line that the origin says.
    Status { status: u16, line: Bytes },
    /// The front of a reply.
    Cut,
    /// No reply. `at` counts from the first byte of the answer: it is the first byte of a head that is bad, else the first one
    /// behind the reply's head.
    Unreadable { at: u64 },
    /// The dial failed. Its count of faults says so too. The push may have reached the origin.
    Lost,
    /// The push may have reached the origin.
    NoMemory,
}

// What the bytes of an answer are to who pushed.
fn read_line(alloc: Global, bytes: &[u8]) -> Pushed
    ensures { SpellsLine bytes.now result }
{
    match read_reply(alloc, bytes) {
        Ok(
            Reply::Whole {
                status,
                at: _,
                body,
            },
        ) => match Bytes::from_slice(alloc, body.as_slice()) {
            Ok(line) => Pushed::Status { status, line },
            Err(NoMemory) => Pushed::NoMemory,
        },
        Ok(Reply::Cut) => Pushed::Cut,
        Ok(Reply::Bad { at }) => Pushed::Unreadable { at },
        Err(NoMemory) => Pushed::NoMemory,
    }
}

/// Pushes a whole body under a name, as one POST in chunks of 65,536 bytes, of which the last may be shorter (RFC 9112, section
/// 7.1). At most 1,048,576 bytes of the reply are taken: a longer one is `Cut`.
pub fn push_body<C: Dial>(
    alloc: Global,
    dial: &mut C,
    place: &Place,
    id: &Name,
    body: &[u8],
) -> Pushed
    ensures asked { PushedBody place.now id.now body.now (C.log dial.old) (C.log dial.new) result }
    ensures dial { DialAlone C.log C.store C.later C.dial_faults C.chosen dial.old dial.new }
    ensures lost { result ≡ Pushed.Lost → Rose (C.dial_faults dial.old) (C.dial_faults dial.new) }
{
    let Ok(request) = put_push_request(alloc, place, id, body) else {
        return Pushed::NoMemory;
    };
    match dial.exchange(request.as_slice(), PUSH_LIMIT) {
        Answer::Bytes(bytes) => read_line(alloc, bytes.as_slice()),
        Answer::Lost => Pushed::Lost,
        Answer::NoMemory => Pushed::NoMemory,
    }
}
