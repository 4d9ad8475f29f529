//! One row.
use crate::Line;

/// A row: its name, the call to be made, where its values are from, and the lines with what it is made with and what it has to give.
#[derive(Debug, Drop)]
pub struct Row {
    pub(crate) number: u64,
    pub(crate) name: String,
    pub(crate) call: String,
    pub(crate) source: String,
    pub(crate) lines: Vec<Line>,
}
