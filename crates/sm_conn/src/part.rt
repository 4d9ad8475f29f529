//! Parts of what a connection sends.

use sm_model::{Bytes, Cause, Sequence, Target};

/// A part of what a connection sends.
#[derive(Debug, Drop)]
pub enum Part {
    /// A request for this, behind whose reply the connection closes or not.
    Get { target: Target, close: bool },
    /// The head of a push.
    Post,
    /// The client waits for a `100 Continue`; the head of its push comes next.
    Continue,
    /// Bytes of the body of a push, at least 1.
    Body(Bytes),
    /// The end of the body of a push, behind whose reply the connection closes or not.
    End { close: bool },
    /// A head is refused, or a body is badly chunked. No part follows.
    Bad(Cause),
}

/// Parts in their order, which contracts see as a list.
pub type Parts = Sequence<Part>;
