//! The reply that an answer begins with.
ghost use Rattle.std.specs.Prelude.{◌≤◌, ◌-◌, IfOk, length, take, drop};
ghost use Rattle.sm_fetch.specs.Answered.{BeginsWith, IsHeadEnd};
ghost use Rattle.sm_fetch.specs.Framed.{FramedAs};

use crate::body::{Body, Framed, read_body};
use sm_body::Framing;
use sm_head::{RespFault, RespHead, read_response};
use sm_model::NoMemory;
use std::alloc::Global;

/// What an answer begins with, behind heads with a status below 200.
#[derive(Debug, Drop)]
pub enum Reply<'a> {
    /// A whole reply, behind which further bytes may stand.
    Whole {
        /// 200 to 999.
        status: u16,
        /// Where its head ends, in bytes from the answer's first.
        at: u64,
        body: Body<'a>,
    },
    /// The front of a reply, perhaps nothing of it.
    Cut,
    /// No reply. `at` counts from the answer's first byte: it is the first byte of a head that is bad, else the first one behind
    /// the reply's head.
    Bad {
        at: u64,
    },
}

// The reply whose head ends there, by what stands behind that.
pub(crate) fn reply_behind<'a>(
    bytes: &'a [u8],
    status: u16,
    at: usize,
    framing: Framing,
    framed: Framed<'a>,
) -> Reply<'a>
    requires head { IsHeadEnd bytes.now status at framing }
    requires within { at ≤ length bytes.now }
    requires body { FramedAs framing (take (length bytes.now - at) (drop at bytes.now)) framed }
    ensures { BeginsWith bytes.now result }
{
    match framed {
        Framed::Whole(body) => Reply::Whole {
            status,
            at: at as u64,
            body,
        },
        Framed::Cut => Reply::Cut,
        Framed::Bad => Reply::Bad { at: at as u64 },
    }
}

/// The reply that an answer begins with (RFC 9112, sections 4, 6 and 7.1). Heads with a status below 200 are passed over. Each
/// head and each byte behind the last one is read once, and a body in one piece isn't copied.
pub fn read_reply<'a>(alloc: Global, bytes: &'a [u8]) -> Result<Reply<'a>, NoMemory>
    ensures { IfOk result (λ reply. BeginsWith bytes.now reply) }
{
    let mut at = 0;
    loop {
        match read_response(alloc, &bytes[at..]) {
            Ok(
                RespHead::Whole {
                    length,
                    status,
                    framing,
                },
            ) => {
                let end = at + length as usize;
                if status >= 200 {
                    let framed = read_body(alloc, framing, &bytes[end..])?;
                    return Ok(reply_behind(bytes, status, end, framing, framed));
                }
                at = end;
            }
            Ok(RespHead::Partial) => return Ok(Reply::Cut),
            Err(RespFault::Bad) => return Ok(Reply::Bad { at: at as u64 }),
            Err(RespFault::NoMemory) => return Err(NoMemory),
        }
    }
}
