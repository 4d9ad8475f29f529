// The two families of addresses.

use std::io::{self, ErrorKind};
use std::net::{Ipv4Addr, Ipv6Addr, Net, OpenListener, SocketAddr, TcpListener};

/// Whether listeners of IPv6 take connections of IPv4 too, as the system has it: tried at a port that nobody was told of. To find out at the
/// port itself would let a listener go that somebody may have reached.
pub fn takes_both(net: &impl Net) -> bool {
    let Ok(six) = TcpListener::bind(net, SocketAddr::from((Ipv6Addr::UNSPECIFIED, 0))) else {
        return false;
    };
    let Ok(address) = six.local_addr() else {
        return false;
    };
    let four = SocketAddr::from((Ipv4Addr::UNSPECIFIED, address.port()));
    match TcpListener::bind(net, four) {
        Ok(_) => false,
        Err(e) => e.kind() == ErrorKind::AddrInUse,
    }
}

/// What is said of a text that is no address.
pub fn no_address() -> io::Error {
    io::Error::new(ErrorKind::InvalidInput, "no address of IPv4 or IPv6")
}
