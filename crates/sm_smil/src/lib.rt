//! The tracks of a live server manifest, pushed or as a ladder, and the text of a channel.
#![tactic(auto)]

mod judge;
mod law;
mod names;
pub mod plain;
mod put;
/// Tracks as they stand in a text: the definition of live manifests and their reader speak of them.
pub mod raw_track;
mod read;
mod track;
mod walk;

pub use law::{
    live_manifest_has_one_answer, live_manifests_are_by_rule, live_manifests_are_valid,
    live_text_is_read_as_its_channel, text_has_one_reading,
};
pub use put::put_live_manifest;
pub use read::{read_ladder, read_live_manifest};
pub use sm_model::{Smil, SmilTrack, TextFault as SmilFault};
