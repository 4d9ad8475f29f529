//! Request heads in the bytes of a connection.
ghost use Rattle.httparse.specs.Spans.{IsRequestWithin};
ghost use Rattle.sm_head.specs.Requests.{IsSpansAnswer, IsReqAnswer};

use crate::asked::{Asked, Verb, judge};
use crate::heads::{Shape, judge_lines};
use httparse::spans::{EMPTY_HEADER_SPAN, HeaderSpan, RequestSpans};
use sm_model::{Cause, Framing, ReadFault, Target};
use std::alloc::Global;

/// What the bytes of a connection begin with.
#[derive(Debug, Drop)]
pub enum ReqHead {
    /// A whole head.
    Whole {
        /// How many bytes it has.
        length: u64,
        method: Verb,
        target: Target,
        /// `None` for a GET.
        framing: Framing,
        /// The connection closes behind the reply: a `Connection` value is `close`, or the version is 1.0.
        close: bool,
        /// A POST waits for a `100 Continue` before its body.
        expects: bool,
    },
    /// The front of a head.
    Partial,
}

// What the head asks that these spans cover.
fn judge_spans(
    alloc: Global,
    bytes: &[u8],
    headers: &[HeaderSpan],
    spans: RequestSpans,
) -> Result<ReqHead, ReadFault>
    requires { IsRequestWithin bytes.now headers.now spans }
    ensures { IsSpansAnswer bytes.now headers.now spans result }
{
    let fields = &headers[..spans.headers];
    match judge(
        alloc,
        bytes,
        spans.method.of(bytes),
        spans.path.of(bytes),
        spans.version,
        fields,
    ) {
        Ok(
            Asked {
                method,
                target,
                framing,
                close,
                expects,
            },
        ) => {
            Ok(ReqHead::Whole {
                length: spans.len as u64,
                method,
                target,
                framing,
                close,
                expects,
            })
        }
        Err(fault) => Err(fault),
    }
}

/// The request head that the bytes begin with (RFC 9112, sections 2 to 6). A head is what `httparse` takes, within the first
/// 8,192 bytes.
///
/// It is refused for the first of these that holds. `HeadTooLarge`: the first 8,192 bytes hold no whole head, and no line
/// feed behind which none can come; or a whole head has more than 64 fields. `BadHead`: behind some line feed no head can
/// come any more; two `Content-Length`, two `Transfer-Encoding` or two `Content-Encoding`; a `Content-Length` that isn't 1 to
/// 18 digits; `Content-Length` beside `Transfer-Encoding`; a GET with `Transfer-Encoding` or with a `Content-Length` other
/// than 0. `Method`: not GET and not POST, a GET of a push's target, or a POST of another. `Encoded`, of a POST: a
/// `Content-Encoding` other than `identity`, or a `Transfer-Encoding` other than `chunked`. `LengthRequired`: a POST with
/// neither `Content-Length` nor `Transfer-Encoding`.
pub fn read_request(alloc: Global, bytes: &[u8]) -> Result<ReqHead, ReadFault>
    ensures { IsReqAnswer bytes.now result }
{
    let end = bytes.len().min(8192);
    let window = &bytes[..end];
    // a field has at least 3 bytes
    let room = end / 3 + 1;
    let mut headers = vec![in alloc; EMPTY_HEADER_SPAN; room]?;
    match judge_lines(window, headers.as_mut_slice()) {
        Shape::Whole(spans) => judge_spans(alloc, window, headers.as_slice(), spans),
        Shape::Partial => Ok(ReqHead::Partial),
        Shape::Bad => Err(ReadFault::Refused(Cause::BadHead)),
        Shape::Full => Err(ReadFault::Refused(Cause::HeadTooLarge)),
    }
}
