//! Heads of HTTP/1.x messages: what a request asks or why it is refused, and replies both ways (RFC 9110, RFC 9112).
#![tactic(auto)]

mod asked;
mod fields;
mod heads;
pub mod law;
mod length;
pub mod plain;
mod reply;
mod request;
mod response;

pub use asked::Verb;
pub use reply::{CONTINUE, Content, NO_MEMORY, begin_front, begin_response, put_response};
pub use request::{ReqHead, read_request};
pub use response::{RespFault, RespHead, read_response};
pub use sm_model::ReadFault as HeadFault;
