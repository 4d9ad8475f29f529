//! Steps on a link over sockets.

use crate::ends::{is_of_link, next, on_link};
use crate::peers::{Peers, is_of_peer};
use crate::places::{Place, local};
use anyhow::{Result, bail};
use sm_real::{Patience, TcpLink};
use sm_rows::scripts::is_quiet;
use sm_rows::tales::Tale;
use sm_rows::{Case, Line, Words};
use std::alloc::Global;
use std::net::{Net, SocketAddr, TcpListener, TcpStream};
use std::thread;
use std::time::{Clock, Duration};

// The most turns of a peer that sends on and on, and how long the rest between two of them is, in milliseconds.
const TURNS: u32 = 500;

const REST: u64 = 10;

// A link and its peers, and a further address for it.
#[derive(Drop)]
struct Scene<R: Net<Listener = TcpListener, Stream = TcpStream> + Clock + Copy + Drop> {
    rt: R,
    alloc: Global,
    link: TcpLink<R>,
    further: SocketAddr,
    peers: Peers,
}

fn patience(words: &Words) -> Result<Patience> {
    Ok(Patience {
        stuck: words.number(0)?,
        silent: words.number(1)?,
        head: words.number(2)?,
        linger: words.number(3)?,
        waiting: usize::try_from(words.number(4)?)?,
    })
}

impl<R: Net<Listener = TcpListener, Stream = TcpStream> + Clock + Copy + Drop> Scene<R> {
    fn new(rt: R, alloc: Global, place: Place) -> Result<Scene<R>> {
        let free = place.listen(&rt)?;
        let further = free.local_addr()?;
        drop(free);
        Ok(Scene {
            rt,
            alloc,
            link: TcpLink::new(rt, alloc),
            further,
            peers: Peers::new(alloc),
        })
    }

    fn listen(&mut self, tale: &mut Tale) -> Result<()> {
        match self.link.listen_at(local(0)) {
            Ok(()) => tale.say("done"),
            Err(_) => tale.say("refused"),
        }
    }

    fn listen_too(&mut self, tale: &mut Tale) -> Result<()> {
        match self.link.listen_too(self.further) {
            Ok(()) => tale.say("done"),
            Err(_) => tale.say("refused"),
        }
    }

    fn connect(&mut self) -> Result<()> {
        let address = self.link.local_addr()?;
        self.peers.connect(&self.rt, address)
    }

    // One peer sends these bytes again and again, up to what is no piece of them: that is told.
    fn send_on(&mut self, number: u64, bytes: &[u8], tale: &mut Tale) -> Result<()> {
        let text = str::from_utf8(bytes)?;
        let own = format!(in self.alloc; "piece {number} {text}")?;
        for _ in 0..TURNS {
            self.peers.send(number, bytes)?;
            let came = next(self.alloc, &mut self.link)?;
            if came.as_str() != own.as_str() {
                return tale.say(came.as_str());
            }
            thread::sleep(&self.rt, Duration::from_millis(REST));
        }
        bail!("nothing else came")
    }

    // A step: `limits` with those of `Patience`, in their order, which takes another link; `listen` and, at a further address, `listen-too`;
    // `connect` and `connect-further`, of one more peer; `send-on` with the number of a peer and bytes.
    fn step(&mut self, line: &Line, words: &Words, tale: &mut Tale) -> Result<()> {
        match line.key() {
            "limits" => {
                self.link = TcpLink::with(self.rt, self.alloc, patience(words)?);
                Ok(())
            }
            "listen" => self.listen(tale),
            "listen-too" => self.listen_too(tale),
            "connect" => self.connect(),
            "connect-further" => self.peers.connect(&self.rt, self.further),
            "send-on" => {
                let bytes = words.bytes(self.alloc, 1)?;
                self.send_on(words.number(0)?, bytes.as_slice(), tale)
            }
            key if is_of_peer(key) => self.peers.step(line, words, tale),
            key if is_of_link(key) => on_link(self.alloc, &mut self.link, line, words, tale),
            _ => bail!("no such step"),
        }
    }
}

/// What the steps of a row tell.
pub fn play<R: Net<Listener = TcpListener, Stream = TcpStream> + Clock + Copy + Drop>(
    rt: &R,
    alloc: Global,
    place: Place,
    case: &Case<'_>,
) -> Result<String> {
    let mut scene = Scene::new(*rt, alloc, place)?;
    let mut tale = Tale::new(alloc);
    for line in case.lines() {
        if !is_quiet(line.key()) {
            let words = case.words(alloc, line)?;
            scene.step(line, &words, &mut tale)?;
        }
    }
    Ok(tale.into_text())
}
