//! What an input comes to that was read for a fragment.

use sm_model::Bytes;

/// What an input comes to that was read for a fragment.
#[derive(Debug, Drop)]
pub enum Picked {
    /// The text of the fragment.
    Found(Bytes),
    /// The input is no whole push. The line says where, and why.
    Refused(Bytes),
    /// The input has no such fragment.
    NotKept,
}
