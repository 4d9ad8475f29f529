//! The commands that open a store: serving it, listing what is kept in it, and handing it out as an archive. Choosing the site comes
//! first, by itself, since some commands turn to an origin too before they open.
#![tactic(auto)]

mod choosing;
mod fault;
pub mod law;
mod listing;
mod opening;
mod serving;
mod start;

pub use choosing::choose;
pub use fault::StoreFault;
pub use listing::list_store;
pub use opening::{open_archive, open_declared};
pub use serving::serve_store;
pub use start::{open_state, prepare};
