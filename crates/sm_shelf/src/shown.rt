//! What a reader answers.

use sm_model::Text;

/// What a reader answers.
#[derive(Debug, Drop)]
pub enum Shown {
    /// The whole reply, head and body (RFC 9112, section 4). It keeps the connection. The samples of a fragment are not copied.
    Reply(Text),
    /// The window lacks the fragment: whoever has the whole log answers.
    Forward,
    NoMemory,
}
