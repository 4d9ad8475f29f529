//! One quality of a store as a fragmented file (ISO/IEC 14496-12, 8.8): a pushed header, and then each fragment that is kept of the
//! quality, in the order of time. The file of an archive comes first, and then that of a store in a folder, for a command.
#![tactic(auto)]

mod call;
mod exported;
mod fit;
mod gathering;
mod head;
pub mod law;
mod storing;
mod writing;

pub use call::export;
pub use exported::{Exported, StoreExport};
pub use storing::export_store;
