//! The texts of replies: refusals, manifests and fragments, of what a log or a digest of it gives.
#![tactic(auto)]

mod fragment;
mod manifest;
mod refusal;
mod reply;

pub use fragment::fragment_reply;
pub use manifest::manifest_reply;
pub use refusal::{tell, tell_at};
pub use reply::{Counted, Reply, ok, silent, starved};
