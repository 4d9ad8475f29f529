//! The reply that an answer begins with, found slowly.
ghost use Rattle.std.specs.Prelude.{◌≡◌, IfOk};
ghost use Rattle.sm_fetch.specs.Answered.{BeginsWith};
ghost use Rattle.sm_fetch.specs.Framed.{FramedAs};

use crate::body::{Body, Framed};
use crate::reply::{Reply, reply_behind};
use sm_body::{Framing, Place, read_plainly};
use sm_head::{RespFault, RespHead, read_response};
use sm_model::NoMemory;
use std::alloc::Global;

// The body behind a head: the shortest front that ends it, where each front is read anew.
fn body_plainly<'a>(
    alloc: Global,
    framing: Framing,
    bytes: &'a [u8],
) -> Result<Framed<'a>, NoMemory>
    ensures { IfOk result (λ framed. FramedAs framing bytes.now framed) }
{
    for end in 0..bytes.len() {
        let front = read_plainly(alloc, framing, &bytes[..end])?;
        match front.place {
            Place::Ended => {
                let own = front.body.into_vec(alloc)?;
                return Ok(Framed::Whole(Body::Joined(own)));
            }
            _ => {}
        }
    }
    let all = read_plainly(alloc, framing, bytes)?;
    match all.place {
        Place::Ended => {
            let own = all.body.into_vec(alloc)?;
            Ok(Framed::Whole(Body::Joined(own)))
        }
        Place::Failed => Ok(Framed::Bad),
        _ => Ok(Framed::Cut),
    }
}

/// The reply that an answer begins with, by the definition: its body is read anew for each of its fronts. It is slow, and there
/// to compare with.
pub fn read_reply_plainly<'a>(alloc: Global, bytes: &'a [u8]) -> Result<Reply<'a>, NoMemory>
    ensures { IfOk result (λ reply. BeginsWith bytes.now reply) }
{
    let mut at = 0;
    loop {
        match read_response(alloc, &bytes[at..]) {
            Ok(
                RespHead::Whole {
                    length,
                    status,
                    framing,
                },
            ) => {
                let end = at + length as usize;
                if status >= 200 {
                    let framed = body_plainly(alloc, framing, &bytes[end..])?;
                    return Ok(reply_behind(bytes, status, end, framing, framed));
                }
                at = end;
            }
            Ok(RespHead::Partial) => return Ok(Reply::Cut),
            Err(RespFault::Bad) => return Ok(Reply::Bad { at: at as u64 }),
            Err(RespFault::NoMemory) => return Err(NoMemory),
        }
    }
}
