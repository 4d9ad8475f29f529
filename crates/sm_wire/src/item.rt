//! What a connection gives.

use sm_model::{Channel, Fragment, Refusal, Target};

/// One thing that a connection gives.
#[derive(Debug, Drop)]
pub enum WireItem {
    /// The client waits for a `100 Continue` before it sends the body of its push.
    Continue,
    /// A request for this, behind whose reply the connection closes or not.
    Get { target: Target, close: bool },
    /// The header of a push.
    Header(Channel),
    /// A fragment of a push.
    Frag(Fragment),
    /// The end of a push in which nothing was refused, behind whose reply the connection closes or not.
    End { close: bool },
    /// What is wrong, and where in its push; a cause without a place has place 0. No item follows.
    Refuse(Refusal),
}
