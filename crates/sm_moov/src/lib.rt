//! Headers of movies: what a `moov` says of its tracks, and a bare one written.
#![tactic(auto)]

mod bare;
mod children;
mod defaults;
mod gathered;
mod heads;
pub mod law;
pub mod plain;
mod read;
mod trak;
mod trexes;

pub use bare::put_bare_moov;
pub use read::read_moov;
pub use sm_model::{Heads, ReadFault as MoovFault, TrackHead};
