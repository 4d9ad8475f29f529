//! The ends on a machine: a disk in a folder of files and a link over sockets, with both a site on one clock; a dial over sockets,
//! and tracks in files. None of them tells contents, calls, a transcript or exchanges, since no contract knows what the system does
//! with bytes; each raises its count where a call fails.
#![tactic(auto)]

mod budget;
mod descriptors;
mod digits;
mod families;
mod fault;
mod file_disk;
mod file_limit;
mod file_tracks;
mod folder;
mod haste;
mod journal;
mod limits;
mod opening;
mod outgoing;
mod outlet;
mod pace;
mod peer;
mod peers;
mod pulling;
mod pulls;
mod reading;
mod real_site;
mod sharing;
mod sockets;
mod stamp;
mod talk;
mod tally;
mod tcp_dial;
mod tcp_link;
mod trickle;
mod trouble;
mod viewers;

pub use families::{no_address, takes_both};
pub use fault::OpenFault;
pub use file_disk::FileDisk;
pub use file_tracks::FileTracks;
pub use limits::Patience;
pub use pulls::Pulls;
pub use real_site::RealSite;
pub use sharing::Sharing;
pub use tcp_dial::TcpDial;
pub use tcp_link::TcpLink;
pub use trouble::{Doing, Trouble};
pub use viewers::Viewers;
