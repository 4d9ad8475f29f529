//! Whole fragments: a `moof` and the `mdat` behind it, read and written (ISO/IEC 14496-12, 8.8.4 and 8.1.1).
#![tactic(auto)]

mod cut;
mod law;
mod put;
mod read;
mod sequence;
mod track;
mod whole;

pub use cut::samples_fit;
pub use law::{
    canonical_texts_are_no_prefixes, fragments_show_themselves, joins_are_cut_once,
    written_sequence_is_read,
};
pub use put::{append_fragment, append_fragment_head, fragment_len, put_fragment};
pub use read::{finish, read_fragment, read_moof};
pub use sequence::sequence_of;
pub use sm_model::ReadFault as MoofFault;
pub use track::track_of;
pub use whole::{body_of, is_one_box};
