//! Push sessions: the items of a push body that comes in pieces, whatever the cuts.
#![tactic(auto)]

mod decisions;
mod fault;
mod header;
mod held;
mod kept;
mod law;
mod rules;
mod session;
/// What the boxes of a push body leave for the boxes behind them, of which the definition of a push body speaks.
pub mod state;
mod step;
mod track;

pub use decisions::decide;
pub use fault::{PushFault, StepFault};
pub use held::Held;
pub use kept::Kept;
pub use law::{
    by_boxes, front, items_are_no_more_than_bytes, items_are_valid, joined_texts_are_a_body,
    joined_texts_follow_a_header, texts_of_boxes_have_no_rest, tracks_of_a_header_differ,
    written_header_is_read,
};
pub use rules::by_rules;
pub use session::{Push, start};
pub use sm_model::{Item, Items};
