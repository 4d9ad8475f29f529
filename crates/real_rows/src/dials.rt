//! Steps on a dial over sockets.

use crate::places::Place;
use anyhow::{Result, bail};
use sm_fetch::{Answer, Dial, DialError};
use sm_real::TcpDial;
use sm_rows::scripts::is_quiet;
use sm_rows::tales::Tale;
use sm_rows::{Case, Line, Words};
use std::alloc::Global;
use std::io::{Read, Write};
use std::net::{Net, TcpListener, TcpStream};
use std::thread::{self, Threads};
use std::time::Clock;

// The most bytes of a request that a server takes.
const MOST: usize = 64;

// A dial, and a server that answers when it is asked to.
#[derive(Drop)]
struct Scene<R: Net<Listener = TcpListener, Stream = TcpStream> + Clock + Copy + Drop> {
    dial: TcpDial<R>,
    server: Option<TcpListener>,
}

// Answers one request with these bytes, and closes. So much of the request stands in front of the buffer then.
fn answer_once(server: &TcpListener, bytes: &[u8], taken: &mut [u8; MOST]) -> Option<usize> {
    let (stream, _) = server.accept().ok()?;
    let mut stream = stream;
    let count = stream.read(taken).ok()?;
    stream.write_all(bytes).ok()?;
    Some(count)
}

// What a server took of a request.
#[derive(Clone, Copy)]
struct Taken {
    bytes: [u8; MOST],
    count: Option<usize>,
}

fn serve(server: &TcpListener, bytes: &[u8]) -> Taken {
    let mut taken = [0u8; MOST];
    let count = answer_once(server, bytes, &mut taken);
    Taken {
        bytes: taken,
        count,
    }
}

fn ask<D: Dial>(dial: &mut D, request: &[u8], limit: u64) -> Answer {
    dial.exchange(request, limit)
}

fn turn<D: Dial>(dial: &mut D, host: &str, port: u16) -> &'static str {
    match dial.select(host, port) {
        Ok(()) => "done",
        Err(DialError::Failed) => "failed",
        Err(DialError::NoMemory) => "out of memory",
    }
}

fn tell(answer: Answer, tale: &mut Tale) -> Result<()> {
    match answer {
        Answer::Bytes(bytes) => tale.text(bytes.as_slice()),
        Answer::Lost => tale.say("lost"),
        Answer::NoMemory => tale.say("out of memory"),
    }
}

fn tell_taken(taken: &Taken, tale: &mut Tale) -> Result<()> {
    match taken.count {
        Some(count) => tale.text(taken.bytes.get(..count).unwrap_or(b"")),
        None => tale.say("not served"),
    }
}

impl<R: Net<Listener = TcpListener, Stream = TcpStream> + Clock + Copy + Drop> Scene<R> {
    // Turns the dial to the server.
    fn select_server(&mut self, tale: &mut Tale) -> Result<()> {
        let Some(server) = &self.server else {
            bail!("no server");
        };
        let port = server.local_addr()?.port();
        tale.say(turn(&mut self.dial, "127.0.0.1", port))
    }

    // Lets the server answer a request with these bytes, and tells what both have taken.
    fn meet<T: Threads>(
        &mut self,
        rt: &T,
        request: &[u8],
        limit: u64,
        bytes: &[u8],
        tale: &mut Tale,
    ) -> Result<()> {
        let Some(server) = &self.server else {
            bail!("no server");
        };
        let dial = &mut self.dial;
        let (taken, answer) = thread::join(
            rt,
            || serve(server, bytes),
            || ask(dial, request, limit),
        );
        tell_taken(&taken, tale)?;
        tell(answer, tale)
    }

    fn step<T: Threads>(
        &mut self,
        rt: &T,
        line: &Line,
        words: &Words,
        tale: &mut Tale,
    ) -> Result<()> {
        match line.key() {
            "select" => {
                let port = u16::try_from(words.number(1)?)?;
                tale.say(turn(&mut self.dial, words.text(0)?, port))
            }
            "select-server" => self.select_server(tale),
            "exchange" => tell(ask(&mut self.dial, words.raw(0)?, words.number(1)?), tale),
            "meet" => self.meet(rt, words.raw(0)?, words.number(1)?, words.raw(2)?, tale),
            "end-server" => {
                self.server = None;
                Ok(())
            }
            _ => bail!("no such step"),
        }
    }
}

/// What the steps of a row tell: `select` with a host and a port, and `select-server`, of the server of the row, which goes with `end-server`;
/// `exchange` with a request and a limit, which nobody answers, and `meet` with a request, a limit and what the server answers.
pub fn play<R: Net<Listener = TcpListener, Stream = TcpStream> + Clock + Threads + Copy + Drop>(
    rt: &R,
    alloc: Global,
    place: Place,
    case: &Case<'_>,
) -> Result<String> {
    let mut scene = Scene {
        dial: TcpDial::new(*rt, alloc),
        server: Some(place.listen(rt)?),
    };
    let mut tale = Tale::new(alloc);
    for line in case.lines() {
        if !is_quiet(line.key()) {
            let words = case.words(alloc, line)?;
            scene.step(rt, line, &words, &mut tale)?;
        }
    }
    Ok(tale.into_text())
}
