//! Rows of a table as a text, which a program reads to make a call for each of them and to compare what it gives.
//!
//!     # a comment
//!     let HEAD = box tfhd ( u32 0 u32 1 )
//!     let PART n x = box free ( u32 n hex x )
//!
//!     block TRACKS
//!     track video video 350000
//!
//!     keys sm_traf read_traf = body track private numbers
//!
//!     row a name in plain words
//!     call sm_traf read_traf
//!     from section ISO/IEC-14496-12 8.8
//!     use TRACKS
//!     body $HEAD $PART 7 41
//!       zeros 4
//!     gives the first line of what is to come
//!     gives-hex u32 7
//!
//! `from` says where the values of the row are from: `section STANDARD PART`, where the standard may be a page of `docs/`;
//! `program NAME`, for another program; `reference scripts/NAME`, for a reference of this repository; `learnt`, where any of
//! them was learnt from the program itself; `plain`, for a row of a plain program of the definitions, which the product doesn't
//! contain. A row without it is refused. `keys` says which lines a call reads, and a row with another line is refused.
//!
//! A blank line ends a row and a block, and a line that begins with a blank goes on with the one before. A line is a key and
//! its value; keys may stand several times, and their order counts. A name and a block are said once. `use` puts the lines of
//! a block in its place. What the values of `gives` lines are, joined by line feeds, is what the call has to give; `gives-hex`
//! has the bytes of an expression in hexadecimal digits instead, and `gives-text` their text.
//!
//! An expression is a sequence of these, whose bytes stand one behind another:
//!
//! - `"text"`, with `\n`, `\r`, `\t`, `\0`, `\"`, `\\` and `\x` with two digits;
//! - `hex` and hexadecimal digits, with blanks where one likes;
//! - `u8 N`, `u16 N`, `u32 N`, `u64 N`, big-endian, and `zeros N`;
//! - `box KIND ( .. )`, with its size in front, and `wide KIND ( .. )`, with a size of 64 bits;
//! - `repeat N ( .. )`, and `numbered N ( .. )`, where each `#` is the number of the turn, from 0;
//! - `( .. )`, and behind it or anything else within it `at N ( .. )`, which puts bytes over those at that place, `cut N`,
//!   which leaves N bytes, and `skip N`, which drops N bytes in front;
//! - `$NAME` with its arguments, for what a `let` above says, or one of the names that the rows of every program know
//!   (`common.rt`).
#![tactic(auto)]

mod case;
mod common;
mod definition;
pub mod disks;
mod expression;
mod fault;
mod line;
mod page;
mod pages;
mod parts;
mod row;
pub mod scripts;
mod source;
pub mod stored;
pub mod tales;
mod token;
pub mod values;
mod words;

pub use case::Case;
pub use fault::RowFault;
pub use line::Line;
pub use page::Page;
pub use pages::{Caller, run_pages};
pub use parts::{hex, told, told_text};
pub use row::Row;
pub use words::Words;
