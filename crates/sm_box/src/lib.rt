//! Boxes: their heads, their children, and numbers in them.
#![tactic(auto)]

mod children;
mod found;
mod head;
pub mod law;
mod numbers;
mod put;
mod whole;

pub use children::{Child, Children};
pub use found::{Found, find_kind};
pub use head::{BoxHead, Head};
pub use numbers::{u32_at, u64_at};
pub use put::{append_head, append_u32, append_u64, put_box};
pub use whole::whole_at;
