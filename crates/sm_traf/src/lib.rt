//! The `traf` of a fragment: its boxes read and written (ISO/IEC 14496-12, 8.8.6 to 8.8.8; [MS-SSTR] 2.2.4.4 and
//! 2.2.4.5).
#![tactic(auto)]

mod fields;
mod parts;
mod put;
mod read;
mod refusal;
mod tfhd;
mod tfrf;
mod tfxd;
mod trun;

pub use put::{append_traf, put_tfrf, put_tfxd, put_traf, traf_len};
pub use read::read_traf;
pub use sm_model::{Cause, Defaults, Pairs, ReadFault as TrafFault, Row, Rows, Run};
pub use tfrf::{Ahead, read_tfrf};
pub use tfxd::read_tfxd;
