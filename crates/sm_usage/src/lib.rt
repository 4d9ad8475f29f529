//! What is wrong in words that name no command, and how it is told.
#![tactic(auto)]

mod part;
mod parts;
mod reading;
mod words;
mod wrong;

pub use words::wrong_words;
