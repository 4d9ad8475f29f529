//! What the origin is asked to do.

use crate::{Address, Channel, Fragment, Refusal};

/// One thing that a connection asks of the origin. Each is one step of it.
#[derive(Debug, Drop)]
pub enum Act {
    /// A request for the manifest.
    Manifest,
    /// A request for one fragment.
    Fragment(Address),
    /// A request whose target names nothing.
    Unknown,
    /// The header of a push: a valid channel.
    Header(Channel),
    /// A valid fragment of a push.
    Frag(Fragment),
    /// The end of a push, with how many of its fragments were kept and how many were known before. Each count stands
    /// still at its last value.
    End { kept: u64, known: u64 },
    /// What came is refused.
    Refuse(Refusal),
}
