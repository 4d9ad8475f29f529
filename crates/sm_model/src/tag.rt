//! Tags of a text.

use crate::{Bytes, Sequence};

/// One attribute of a start tag.
#[derive(Debug, Drop)]
pub struct Attribute {
    pub name: Bytes,
    /// With every reference replaced by the bytes of its character.
    pub value: Bytes,
}

/// Attributes in the order of the text, which contracts see as a list.
pub type Attributes = Sequence<Attribute>;

/// One thing of a text that is made of tags. A place counts bytes from the first byte of the text.
#[derive(Debug, Drop)]
pub enum Tag {
    /// A start tag. One with `/` before its `>` is `empty`: it ends its element too, and no end tag follows.
    Start {
        name: Bytes,
        attributes: Attributes,
        empty: bool,
        /// The place of its `<`.
        at: u64,
    },
    /// An end tag.
    Finish {
        name: Bytes,
        /// The place of its `<`.
        at: u64,
    },
    /// A run of text between tags, inside the outermost element.
    Text {
        /// The place of its first byte.
        at: u64,
    },
    /// The end of the text, behind its one outermost element.
    End,
    /// What stands there is no tag that may stand there.
    Bad {
        /// The place of the `<` of the tag at fault, or the length of the text where it ends too early.
        at: u64,
    },
}
