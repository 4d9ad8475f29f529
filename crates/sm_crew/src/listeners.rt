//! Where viewers are listened for.

use mio::net::TcpListener as Listener;
use sm_real::{no_address, takes_both};
use std::io::{self, ErrorKind};
use std::net::{IpAddr, Ipv4Addr, Ipv6Addr, Net, SocketAddr, TcpListener};

/// One listener, or one of either family. Copies take connections of the same ones.
#[derive(Drop)]
pub struct Listeners {
    pub first: TcpListener,
    pub second: Option<TcpListener>,
}

impl Listeners {
    /// At this port of one address, a literal of IPv4 or IPv6 without brackets; or of all addresses of the machine.
    pub fn open(net: &impl Net, address: Option<&str>, port: u16) -> io::Result<Listeners> {
        match address {
            None => everywhere(net, port),
            Some(address) => match IpAddr::parse_ascii(address.as_bytes()) {
                Ok(address) => alone(net, SocketAddr::new(address, port)),
                Err(_) => Err(no_address()),
            },
        }
    }

    /// The same ones.
    pub fn copy(&self) -> io::Result<Listeners> {
        let second = match &self.second {
            Some(second) => Some(second.try_clone()?),
            None => None,
        };
        Ok(Listeners {
            first: self.first.try_clone()?,
            second,
        })
    }
}

// One that takes as many connections in advance as the system lets it.
fn bound(net: &impl Net, address: SocketAddr) -> io::Result<TcpListener> {
    Ok(TcpListener::from(Listener::bind(net, address)?))
}

fn alone(net: &impl Net, address: SocketAddr) -> io::Result<Listeners> {
    Ok(Listeners {
        first: bound(net, address)?,
        second: None,
    })
}

// At all addresses of IPv4, and at those of IPv6 beside them, by one listener where it takes both. Where there is no IPv4 those of IPv6 alone are taken.
fn everywhere(net: &impl Net, port: u16) -> io::Result<Listeners> {
    let six = SocketAddr::from((Ipv6Addr::UNSPECIFIED, port));
    if takes_both(net) {
        return alone(net, six);
    }
    match bound(net, SocketAddr::from((Ipv4Addr::UNSPECIFIED, port))) {
        Ok(first) => widened(net, first, six),
        Err(e) if e.kind() == ErrorKind::AddrInUse => Err(e),
        Err(_) => alone(net, six),
    }
}

// Where another process has the addresses of IPv6 that is a failure. Where there is no IPv6 the listener of IPv4 goes on.
fn widened(net: &impl Net, first: TcpListener, six: SocketAddr) -> io::Result<Listeners> {
    let second = match bound(net, six) {
        Ok(second) => Some(second),
        Err(e) if e.kind() == ErrorKind::AddrInUse => return Err(e),
        Err(_) => None,
    };
    Ok(Listeners { first, second })
}
