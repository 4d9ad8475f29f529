//! What a request asks for.

use crate::{Address, Name};

/// What the target of a request names ([MS-SSTR] 2.2.1 and 2.2.3).
#[derive(Debug, Drop)]
pub enum Target {
    /// The manifest of the presentation.
    Manifest,
    /// One fragment.
    Fragment(Address),
    /// The push of the encoder of this name.
    Streams(Name),
    /// None of these.
    Unknown,
}
