//! Replies that take no memory, beside those of `sm_head`.

/// The reply to a connection beyond the 64th, which closes: 503 with the line `49 TooManyConnections`. It stands ready, so it takes no
/// memory.
pub const TOO_MANY: &[u8] =
    b"HTTP/1.1 503 Service Unavailable\r\nContent-Type: text/plain\r\nContent-Length: 22\r\n\
    Connection: close\r\n\r\n49 TooManyConnections\n";
