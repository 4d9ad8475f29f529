//! The other ends of connections.

use crate::names::Names;
use anyhow::{Result, bail};
use sm_rows::tales::Tale;
use sm_rows::{Line, Words};
use std::alloc::Global;
use std::io::{Read, Write};
use std::net::{Net, Shutdown, SocketAddr, TcpStream};
use std::time::Duration;

// How long bytes are waited for, in seconds: far longer than they take.
const LONG: u64 = 20;

/// Connections by their numbers, from 1 on, in the order in which they were made.
#[derive(Drop)]
pub struct Peers {
    alloc: Global,
    streams: Vec<TcpStream>,
}

/// Whether a step is one of a peer.
pub fn is_of_peer(key: &str) -> bool {
    matches!(key, "peer-sends" | "peer-takes" | "peer-ends" | "peer-rest")
}

fn put(stream: &TcpStream, bytes: &[u8]) -> Result<()> {
    let mut stream = stream;
    stream.write_all(bytes)?;
    Ok(())
}

// Tells the next so many bytes.
fn take(alloc: Global, stream: &TcpStream, count: usize, tale: &mut Tale) -> Result<()> {
    let mut stream = stream;
    let mut taken = vec![in alloc; 0u8; count]?;
    stream.read_exact(&mut taken)?;
    tale.text(taken.as_slice())
}

// Tells all that comes up to the end.
fn rest(alloc: Global, stream: &TcpStream, tale: &mut Tale) -> Result<()> {
    let mut stream = stream;
    let mut taken = Vec::new(alloc);
    stream.read_to_end(&mut taken)?;
    tale.text(taken.as_slice())
}

fn end(stream: &TcpStream) -> Result<()> {
    stream.shutdown(Shutdown::Write)?;
    Ok(())
}

impl Peers {
    pub fn new(alloc: Global) -> Peers {
        Peers {
            alloc,
            streams: Vec::new(alloc),
        }
    }

    /// Makes one more connection.
    pub fn connect<R: Net<Stream = TcpStream>>(
        &mut self,
        rt: &R,
        address: SocketAddr,
    ) -> Result<()> {
        let stream = TcpStream::connect(rt, address)?;
        stream.set_read_timeout(Some(Duration::from_secs(LONG)))?;
        self.streams.push(stream)?;
        Ok(())
    }

    fn stream(&self, number: u64) -> Result<&TcpStream> {
        let mut place = 0u64;
        for stream in self.streams.iter() {
            place = place.saturating_add(1);
            if place == number {
                return Ok(stream);
            }
        }
        bail!("no such peer")
    }

    /// One of them sends these bytes.
    pub fn send(&self, number: u64, bytes: &[u8]) -> Result<()> {
        put(self.stream(number)?, bytes)
    }

    /// The address of each is told as `PEER`, by IPv4 and as a listener of IPv6 sees it.
    pub fn add_names(&self, names: &mut Names) -> Result<()> {
        for stream in self.streams.iter() {
            let address = stream.local_addr()?;
            let (ip, port) = (address.ip(), address.port());
            names.add(format!(in self.alloc; "{ip}:{port}")?, "PEER")?;
            names.add(format!(in self.alloc; "[::ffff:{ip}]:{port}")?, "PEER")?;
        }
        Ok(())
    }

    /// A step of a peer, whose number comes first: `peer-sends` with bytes; `peer-takes` with a count, which tells the next so many bytes;
    /// `peer-ends`, behind which it sends no more; `peer-rest`, which tells all that comes up to the end.
    pub fn step(&self, line: &Line, words: &Words, tale: &mut Tale) -> Result<()> {
        let number = words.number(0)?;
        match line.key() {
            "peer-sends" => self.send(number, words.bytes(self.alloc, 1)?.as_slice()),
            "peer-takes" => {
                let count = usize::try_from(words.number(1)?)?;
                take(self.alloc, self.stream(number)?, count, tale)
            }
            "peer-rest" => rest(self.alloc, self.stream(number)?, tale),
            _ => end(self.stream(number)?),
        }
    }
}
