//! Pushes of one size, read from connections again and again.

use anyhow::{Result, ensure};
use sm_conn::{Conn, Part};
use sm_model::Bytes;
use std::alloc::Global;

const PIECE: usize = 65_536;

const REQUEST: &[u8] =
    b"GET /live.isml/QualityLevels(350000)/Fragments(video=20000000) HTTP/1.1\r\n\
    Host: 127.0.0.1:8080\r\nUser-Agent: bench\r\nAccept: */*\r\n\r\n";

// A push of so many bytes behind a `Content-Length`.
fn counted(alloc: Global, size: u32) -> Result<Vec<u8>> {
    let head = format!(in alloc;
        "POST /live.isml/Streams(a) HTTP/1.1\r\nContent-Length: {size}\r\n\r\n"
    )?;
    let mut text = head.into_bytes();
    for _ in 0..size {
        text.push(7)?;
    }
    Ok(text)
}

// A push of so many bytes, up to a whole number of chunks of 65,536 bytes.
fn chunked(alloc: Global, size: u32) -> Result<Vec<u8>> {
    let head = format!(in alloc;
        "POST /live.isml/Streams(a) HTTP/1.1\r\nTransfer-Encoding: chunked\r\n\r\n"
    )?;
    let chunk = vec![in alloc; 7; PIECE]?;
    let mut text = head.into_bytes();
    for _ in 0..size / 65_536 {
        text.extend_from_slice(b"10000\r\n")?;
        text.extend_from_slice(chunk.as_slice())?;
        text.extend_from_slice(b"\r\n")?;
    }
    text.extend_from_slice(b"0\r\n\r\n")?;
    Ok(text)
}

fn requests(alloc: Global, count: u32) -> Result<Vec<u8>> {
    let mut text = Vec::new(alloc);
    for _ in 0..count {
        text.extend_from_slice(REQUEST)?;
    }
    Ok(text)
}

// Hands the text to a connection in pieces of this size, and gives how many bytes of bodies, and requests, came of it.
fn feed(alloc: Global, text: &[u8], size: usize) -> Result<u64> {
    let mut conn = Conn::new(alloc)?;
    let mut done = 0u64;
    for piece in text.chunks(size.max(1)) {
        for part in conn.feed(piece)?.as_slice() {
            let count = match part {
                Part::Body(bytes) => bytes.len(),
                Part::Get { .. } => 1,
                Part::Post | Part::Continue | Part::End { .. } | Part::Bad(_) => 0,
            };
            done = done.saturating_add(count);
        }
    }
    Ok(done)
}

/// Reads so many times what `mode` says, and gives how many bytes, or requests, were read: `counted` and `chunked` hand the connection
/// a push of this size in pieces of 65,536 bytes, `heads` so many requests byte by byte, and every other mode copies the push once.
pub fn run(alloc: Global, mode: &str, numbers: [u32; 5]) -> Result<u64> {
    let [size, repeats, _, _, _] = numbers;
    ensure!(size <= 67_108_864, "at most 67,108,864 bytes");
    let text = match mode {
        "chunked" => chunked(alloc, size)?,
        "heads" => requests(alloc, size)?,
        _ => counted(alloc, size)?,
    };
    let mut done = 0u64;
    for _ in 0..repeats {
        let count = match mode {
            "counted" | "chunked" => feed(alloc, text.as_slice(), PIECE)?,
            "heads" => feed(alloc, text.as_slice(), 1)?,
            _ => Bytes::from_slice(alloc, text.as_slice())?.len(),
        };
        done = done.saturating_add(count);
    }
    Ok(done)
}
