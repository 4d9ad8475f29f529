//! What an export answers.

use sm_command::StoreFault;
use sm_ends::InputFault;
use sm_model::{Cause, Refusal};

/// What came of an export.
#[derive(Debug, Drop)]
pub enum Exported {
    /// All was written: the header, and so many fragments.
    Done { written: u64 },
    /// The input is refused, or has no header: `NoHeader` at its length. Nothing was written.
    Input(Refusal),
    /// The store has no channel (`NoChannel`), or not the header's (`NotDeclared`, `DeclClash`), or the header lacks the quality
    /// (`NotDeclared`). Nothing was written.
    Other(Cause),
    /// The disk failed. The header and a front of the texts behind it were written.
    DiskFault,
    /// What was read is no fragment of its address, which never is so on a disk that tells its contents. The header and a front of the
    /// texts behind it were written.
    Damaged,
    /// The sink failed. A front of the file was written.
    WriteFault,
    /// Memory ran out: where the file was begun behind its header, and else before anything was written.
    NoMemory { begun: bool },
}

/// What came of an export from the store in a folder.
#[derive(Debug, Drop)]
pub enum StoreExport {
    /// The store was opened and the input read to its end, and this came of both.
    Ended(Exported),
    /// No store was opened. Nothing was read of the input, and nothing was written.
    Unopened(StoreFault),
    /// The input was not read to its end. Nothing was written.
    Unread(InputFault),
}
