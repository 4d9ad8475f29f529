//! Replies written.
ghost use Rattle.std.specs.Prelude.{◌≡◌, ◌++◌, OnOk, IfOk};
ghost use Rattle.http.specs.StatusCode.{IsStatusCode};
ghost use Rattle.sm_head.specs.Replies.{kind_text, phrase, status_line, type_line, length_line, close_line, reply_head, reply_text};

use http::StatusCode;
use sm_model::{Bytes, NoMemory, put, put_number};
use std::alloc::Global;

/// What the body of a reply is.
#[derive(Clone, Copy, Debug, PartialEq, Eq)]
pub enum Content {
    /// `text/xml`
    Xml,
    /// `video/mp4`
    Mp4,
    /// `text/plain`
    Plain,
}

/// The reply that tells want of memory, and closes: 500 with the line `33 NoMemory`. It stands ready, so it takes none.
pub const NO_MEMORY: &[u8] =
    b"HTTP/1.1 500 Internal Server Error\r\nContent-Type: text/plain\r\nContent-Length: 12\r\n\
    Connection: close\r\n\r\n33 NoMemory\n";

/// What leaves a client that waits for it to send the body of its POST (RFC 9110, section 15.2.1).
pub const CONTINUE: &[u8] = b"HTTP/1.1 100 Continue\r\n\r\n";

// More bytes than a head takes: 103 without the phrase and the count, of at most 20 digits.
const HEAD_ROOM: usize = 256;

fn put_kind(out: &mut Vec<u8>, kind: Content) -> Result<(), NoMemory>
    ensures { OnOk result (out.new.items ≡ out.old.items ++ kind_text kind) }
{
    match kind {
        Content::Xml => put(out, b"text/xml"),
        Content::Mp4 => put(out, b"video/mp4"),
        Content::Plain => put(out, b"text/plain"),
    }
}

#[tactic(auto, unfolding(crate::specs::Replies::phrase))]
fn put_phrase(out: &mut Vec<u8>, status: u16) -> Result<(), NoMemory>
    requires { IsStatusCode status }
    ensures { OnOk result (out.new.items ≡ out.old.items ++ phrase status) }
{
    match StatusCode::from_u16(status) {
        Ok(code) => match code.canonical_reason() {
            Some(reason) => put(out, reason.as_bytes()),
            None => Ok(()),
        },
        Err(_) => unreachable!(),
    }
}

fn put_status(out: &mut Vec<u8>, status: u16) -> Result<(), NoMemory>
    requires { IsStatusCode status }
    ensures { OnOk result (out.new.items ≡ out.old.items ++ status_line status) }
{
    put(out, b"HTTP/1.1 ")?;
    put_number(out, status as u64)?;
    put(out, b" ")?;
    put_phrase(out, status)?;
    put(out, b"\r\n")
}

fn put_type(out: &mut Vec<u8>, kind: Content) -> Result<(), NoMemory>
    ensures { OnOk result (out.new.items ≡ out.old.items ++ type_line kind) }
{
    put(out, b"Content-Type: ")?;
    put_kind(out, kind)?;
    put(out, b"\r\n")
}

fn put_length(out: &mut Vec<u8>, count: u64) -> Result<(), NoMemory>
    ensures { OnOk result (out.new.items ≡ out.old.items ++ length_line count) }
{
    put(out, b"Content-Length: ")?;
    put_number(out, count)?;
    put(out, b"\r\n")
}

fn put_close(out: &mut Vec<u8>, close: bool) -> Result<(), NoMemory>
    ensures { OnOk result (out.new.items ≡ out.old.items ++ close_line close) }
{
    if close {
        put(out, b"Connection: close\r\n")
    } else {
        Ok(())
    }
}

fn put_head(
    out: &mut Vec<u8>,
    status: u16,
    kind: Content,
    count: u64,
    close: bool,
) -> Result<(), NoMemory>
    requires { IsStatusCode status }
    ensures { OnOk result (out.new.items ≡ out.old.items ++ reply_head status kind count close) }
{
    put_status(out, status)?;
    put_type(out, kind)?;
    put_length(out, count)?;
    put_close(out, close)?;
    put(out, b"\r\n")
}

/// The front of a reply whose body has so many bytes (RFC 9112, section 4): the status line with the status's phrase,
/// `Content-Type`, `Content-Length`, and `Connection: close` where the connection closes behind it, each line ended by
/// CR LF, and an empty line. A status, of three digits, without a phrase of its own gets an empty one. There is room for so many
/// bytes of the body behind it, which may lie elsewhere in part.
pub fn begin_front(
    alloc: Global,
    status: u16,
    kind: Content,
    count: usize,
    room: usize,
    close: bool,
) -> Result<Vec<u8>, NoMemory>
    requires { IsStatusCode status }
    ensures { IfOk result (λ out. out.items ≡ reply_head status kind count close) }
{
    let mut out = Vec::with_capacity(alloc, room.saturating_add(HEAD_ROOM))?;
    put_head(&mut out, status, kind, count as u64, close)?;
    Ok(out)
}

/// What `begin_front` gives, with room for the whole body behind it.
pub fn begin_response(
    alloc: Global,
    status: u16,
    kind: Content,
    count: usize,
    close: bool,
) -> Result<Vec<u8>, NoMemory>
    requires { IsStatusCode status }
    ensures { IfOk result (λ out. out.items ≡ reply_head status kind count close) }
{
    begin_front(alloc, status, kind, count, count, close)
}

/// A whole reply: what `begin_response` gives, and the body.
pub fn put_response(
    alloc: Global,
    status: u16,
    kind: Content,
    body: &[u8],
    close: bool,
) -> Result<Bytes, NoMemory>
    requires { IsStatusCode status }
    ensures { IfOk result (λ text. text ≡ reply_text status kind body.now close) }
{
    let mut out = begin_response(alloc, status, kind, body.len(), close)?;
    put(&mut out, body)?;
    Ok(Bytes::from_vec(out))
}
