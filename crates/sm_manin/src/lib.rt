//! The manifest of a channel, read.
#![tactic(auto)]

mod judge;
pub mod law;
mod listing;
mod note;
mod raw;
mod read;
mod text;
mod times;
mod values;
mod walk;

pub use listing::{Level, Levels, Listing, StreamListing, Streams};
pub use read::read_manifest;
pub use sm_model::TextFault as ManFault;
pub use text::{is_bitrate_field, is_start_field, wide_in};
