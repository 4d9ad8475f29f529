//! Reply heads in the bytes of an answer.
ghost use Rattle.std.specs.Prelude.{◌≡◌, ℕ, List, [], length, All, map};
ghost use Rattle.httparse.specs.Spans.{IsHeaderWithin, header_bytes, IsResponseWithin};
ghost use Rattle.sm_head.specs.Fields.{IsLookup};
ghost use Rattle.sm_head.specs.Responses as spec;
ghost use Rattle.sm_head.specs.Responses.{IsReplySpans, IsRespAnswer};

use crate::fields::{Lookup, look_up, same_text};
use crate::length::read_length;
use httparse::Status;
use httparse::spans::{EMPTY_HEADER_SPAN, HeaderSpan, ResponseSpans, parse_response};
use sm_model::Framing;
use std::alloc::{AllocError, Global};
use thiserror::Error;

/// What the bytes of an answer begin with.
#[derive(Clone, Copy, Debug, PartialEq, Eq)]
pub enum RespHead {
    /// A whole head.
    Whole {
        /// How many bytes it has.
        length: u64,
        /// Three digits, 0 to 999.
        status: u16,
        /// `None` for a status below 200, behind which another head comes.
        framing: Framing,
    },
    /// The front of a head.
    Partial,
}

/// Why a reply head isn't read.
#[derive(Clone, Copy, Debug, PartialEq, Eq, Error)]
pub enum RespFault {
    #[error("the answer begins with no reply")]
    Bad,
    #[error("out of memory")]
    NoMemory,
}

impl From<AllocError> for RespFault {
    ghost use Rattle.sm_head.specs.declared.response.RespFault.TheVariants as fault;

    ghost from_gives = { λ _ e. e ≡ fault.NoMemory };

    fn from(_: AllocError) -> RespFault {
        RespFault::NoMemory
    }
}

fn coded_framing(transfer: Lookup<'_>) -> Option<Framing>
    ensures { (others : List (List ℕ)) → IsLookup transfer.entry others → result ≡ spec.reply_framing [] others }
{
    match transfer {
        Lookup::Once(value) => if same_text(value, b"chunked") {
            Some(Framing::Chunked)
        } else {
            None
        },
        Lookup::Absent | Lookup::Several => None,
    }
}

fn reply_framing(length: Lookup<'_>, transfer: Lookup<'_>) -> Option<Framing>
    ensures { (values others : List (List ℕ)) → IsLookup length.entry values → IsLookup transfer.entry others → result ≡ spec.reply_framing values others }
{
    match length {
        Lookup::Absent => coded_framing(transfer),
        Lookup::Once(value) => match transfer {
            Lookup::Absent => match read_length(value) {
                Some(length) => Some(Framing::Counted(length)),
                None => None,
            },
            Lookup::Once(_) | Lookup::Several => None,
        },
        Lookup::Several => None,
    }
}

fn reply_by(status: u16, bytes: &[u8], fields: &[HeaderSpan]) -> Option<Framing>
    requires { All (IsHeaderWithin (length bytes.now)) fields.now }
    ensures { result ≡ spec.reply_by status (map (header_bytes bytes.now) fields.now) }
{
    if fields.len() > 64 {
        return None;
    }
    if status < 200 {
        return Some(Framing::None);
    }
    let length = look_up(bytes, fields, b"content-length");
    let transfer = look_up(bytes, fields, b"transfer-encoding");
    reply_framing(length, transfer)
}

fn answer_spans(
    bytes: &[u8],
    headers: &[HeaderSpan],
    spans: ResponseSpans,
) -> Result<RespHead, RespFault>
    requires { IsResponseWithin bytes.now headers.now spans }
    ensures { IsReplySpans bytes.now headers.now spans result }
{
    match reply_by(spans.code, bytes, &headers[..spans.headers]) {
        Some(framing) => Ok(RespHead::Whole {
            length: spans.len as u64,
            status: spans.code,
            framing,
        }),
        None => Err(RespFault::Bad),
    }
}

/// The reply head that the bytes begin with (RFC 9112, sections 4 to 6). A head is what `httparse` takes, within the first
/// 8,192 bytes.
///
/// It is `Partial` where fewer than 8,192 bytes are there, no prefix of them is a whole head, and some continuation of them,
/// of whatever length, is one. It is `Bad` where it isn't `Partial` and the first 8,192 bytes hold no whole head; where a whole
/// head has more than 64 fields; and where a head with a status of 200 or above has neither just one `Content-Length`, of 1
/// to 18 digits, and no `Transfer-Encoding`, nor just one `Transfer-Encoding`, of `chunked`, and no `Content-Length`.
pub fn read_response(alloc: Global, bytes: &[u8]) -> Result<RespHead, RespFault>
    ensures { IsRespAnswer bytes.now result }
{
    let end = bytes.len().min(8192);
    let window = &bytes[..end];
    // a field has at least 3 bytes
    let room = end / 3 + 1;
    let mut headers = vec![in alloc; EMPTY_HEADER_SPAN; room]?;
    match parse_response(window, headers.as_mut_slice()) {
        Ok(Status::Complete(spans)) => answer_spans(window, headers.as_slice(), spans),
        Ok(Status::Partial) => if bytes.len() < 8192 {
            Ok(RespHead::Partial)
        } else {
            Err(RespFault::Bad)
        },
        Err(_) => Err(RespFault::Bad),
    }
}
