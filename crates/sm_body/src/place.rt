//! Where the next byte of a framed body stands.

/// Where the next byte of a framed body stands. Numbers of bytes count those that came before it.
#[derive(Clone, Copy, Debug, PartialEq, Eq, Drop)]
pub enum Place {
    /// In a counted body, of which so many bytes are left, at least 1.
    Counted(u64),
    /// In the digits of a chunk line: how many there were, at most 15, and the number that they write.
    Digits(u8, u64),
    /// In the white space behind the digits: how many bytes of the line there were, at most 255, and the size of the chunk.
    Pad(u8, u64),
    /// In the extension behind a `;`: how many bytes of the line there were, at most 255, and the size of the chunk.
    Extension(u8, u64),
    /// Behind the CR of a chunk line, for a chunk of this size.
    LineFeed(u64),
    /// In the data of a chunk, of which so many bytes are left, at least 1.
    Data(u64),
    /// Before the CR behind the data of a chunk.
    DataReturn,
    /// Before the LF behind the data of a chunk.
    DataFeed,
    /// At the start of a line of the trailer, of which so many bytes came.
    TrailerStart(u16),
    /// Behind a CR at the start of a line of the trailer.
    TrailerStartReturn(u16),
    /// In a line of the trailer.
    TrailerLine(u16),
    /// Behind a CR in a line of the trailer.
    TrailerLineReturn(u16),
    /// Behind the body.
    Ended,
    /// Behind a byte that fits nowhere.
    Failed,
}
