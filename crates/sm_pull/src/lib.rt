//! Pulling fragments of an origin into an archive: what a relay and a standby have in common ([MS-SSTR] 3.2).
#![tactic(auto)]

mod channel;
mod fragment;
mod keeping;
mod law;
mod listing;
mod plan;
mod resting;
mod stop;
mod tracks;

pub use channel::channel_of;
pub use fragment::{address_at, fragment_of, is_kept};
pub use keeping::keep;
pub use law::{below_stays, manifests_have_the_tracks};
pub use listing::{Manifest, read_listing};
pub use plan::PullPlan;
pub use resting::rest;
pub use stop::Stop;
pub use tracks::{first_missing, has_name, stream_of};
