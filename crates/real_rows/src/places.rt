//! Where the files of a row lie, and ports for it.

use anyhow::{Result, bail};
use std::alloc::Global;
use std::fs;
use std::net::{Ipv4Addr, Net, SocketAddr, TcpListener, TcpStream};
use std::rt::Files;

// Where the ports begin, of which a process has so many for itself, and how many such shares there are. All are below those that the system
// gives by itself.
const FIRST: u32 = 10_000;

const EACH: u32 = 16;

const SHARES: u32 = 1_250;

/// Names and ports that other runs don't have, by the number of this process.
#[derive(Clone, Copy)]
pub struct Place {
    own: u32,
}

impl Place {
    pub fn new(own: u32) -> Place {
        Place { own }
    }

    /// The path of the folder.
    pub fn store(&self, alloc: Global) -> Result<String> {
        let own = self.own;
        Ok(format!(in alloc; "/tmp/real_rows_{own}")?)
    }

    /// The path of the journal.
    pub fn journal(&self, alloc: Global) -> Result<String> {
        let own = self.own;
        Ok(format!(in alloc; "/tmp/real_rows_{own}.log")?)
    }

    /// The number for one of sixteen tracks.
    pub fn track(&self, number: u32) -> u32 {
        self.own.wrapping_mul(16).wrapping_add(number % 16)
    }

    /// A listener of this machine alone, at a port that nobody has.
    pub fn listen<R: Net<Listener = TcpListener, Stream = TcpStream>>(
        &self,
        rt: &R,
    ) -> Result<TcpListener> {
        let first = FIRST + self.own % SHARES * EACH;
        for port in first..first + EACH {
            if let Ok(listener) = TcpListener::bind(rt, local(u16::try_from(port)?)) {
                return Ok(listener);
            }
        }
        bail!("no port is free")
    }

    /// Removes the folder and the journal, if they are there.
    pub fn clear<R: Files + AllocGlobal>(&self, rt: &R) -> Result<()> {
        let store = self.store(rt.alloc())?;
        let journal = self.journal(rt.alloc())?;
        let _ = fs::remove_dir_all(rt, store.as_str());
        let _ = fs::remove_file(rt, journal.as_str());
        Ok(())
    }
}

/// This port of this machine.
pub fn local(port: u16) -> SocketAddr {
    SocketAddr::from((Ipv4Addr::LOCALHOST, port))
}
