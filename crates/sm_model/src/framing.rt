//! How the bytes of a message body are framed.

/// How the end of a message body is found (RFC 9112, 6).
#[derive(Clone, Copy, Debug, PartialEq, Eq)]
pub enum Framing {
    /// There is no body.
    None,
    /// So many bytes, by `Content-Length`.
    Counted(u64),
    /// Chunks, by `Transfer-Encoding`.
    Chunked,
}
