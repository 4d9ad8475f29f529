//! The tags of a text: the reader of the XML that Smooth Streaming needs, with the place of every fault.
#![tactic(auto)]

mod attribute;
/// What a text of tags is made of: the definition of tags and its readers speak of it.
pub mod grammar;
mod halt;
mod law;
mod lead;
mod markup;
mod named;
pub mod plain;
mod reference;
mod scan;
mod tags;
mod value;

pub use law::{
    tags_are_of_the_grammar, tags_stand_at_their_places, text_has_one_list_of_tags,
    what_follows_mends_nothing, written_tags_are_read,
};
pub use named::attribute_of;
pub use sm_model::{Attribute, Attributes, Tag};
pub use tags::Tags;
