//! The words of the commands: what they ask for, and how that is told.
#![tactic(auto)]

mod asked;
mod edge_order;
mod help;
mod line;
mod matched;
mod option;
mod order;
mod place;
mod plain;
mod play_order;
mod topic;
mod words;

pub use asked::order_of;
pub use edge_order::EdgeOrder;
pub use help::{help_text, usage_text, version_text};
pub use line::{Adds, How, Line, Place, Step, Twice, option_in, placed, read_line};
pub use option::Name;
pub use order::{ExportOrder, Order, PushOrder, ServeOrder};
pub use place::{is_host, is_path};
pub use play_order::PlayOrder;
pub use topic::Topic;
pub use words::number;
