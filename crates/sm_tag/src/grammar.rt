//! What a text of tags is made of.

use sm_model::{Attributes, Bytes};

/// What begins with `<`.
#[derive(Debug, Drop)]
pub enum Markup {
    /// A comment, or what stands between `<?` and `?>`.
    Skipped,
    /// An end tag with its name.
    Finish(Bytes),
    /// A start tag with its name and attributes, and whether its element is empty.
    Start(Bytes, Attributes, bool),
}

/// What comes next in a text of tags, up to a `<`.
#[derive(Clone, Copy, Debug, PartialEq, Eq)]
pub enum Lead {
    /// Nothing more, where the text may end.
    Ended,
    /// Nothing more, where the text ends too early.
    Lost,
    /// Something that may not stand there.
    Stray,
    /// Text inside the outermost element.
    Run,
    /// A `<`.
    Tag,
}
