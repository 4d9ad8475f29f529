//! Tracks.
ghost use Rattle.std.specs.Prelude.{◌≡◌, ◌↔◌, IsTrue, IfOk};
ghost use Rattle.std.specs.List.{list_all};
ghost use Rattle.sm_model.specs.Kinds.{kind_name};
ghost use Rattle.sm_model.specs.Channels.{is_fourcc_byte, is_fourcc, IsOfOneQuality, IsOfOneCodec, IsOfOnePicture, IsOfOneSound};

use crate::{Bytes, Name, NoMemory};
use std::alloc::Global;

/// What a track shows, which is also the Type of its stream ([MS-SSTR] 2.2.2.3).
#[derive(Clone, Copy, Debug, PartialEq, Eq)]
pub enum Kind {
    Video,
    Audio,
    Text,
}

impl Kind {
    /// Its name in texts.
    pub fn name(self) -> &'static [u8]
        ensures { result.now ≡ kind_name self }
    {
        match self {
            Kind::Video => b"video",
            Kind::Audio => b"audio",
            Kind::Text => b"text",
        }
    }
}

/// The numbers of a track that a decoder wants, each as it was declared or absent ([MS-SSTR] 2.2.2.5).
#[derive(Clone, Copy, Debug, PartialEq, Eq)]
pub struct Params {
    /// In pixels.
    pub width: Option<u32>,
    /// In pixels.
    pub height: Option<u32>,
    /// The tag of the audio format.
    pub tag: Option<u32>,
    pub channels: Option<u32>,
    /// In samples a second.
    pub rate: Option<u32>,
    /// In bits a sample.
    pub bits: Option<u32>,
    /// In bytes.
    pub packet: Option<u32>,
}

fn is_same_number(a: Option<u32>, b: Option<u32>) -> bool
    ensures { IsTrue result ↔ (a ≡ b) }
{
    a == b
}

// Whether both have the same picture and the same tag.
fn are_of_one_picture(a: &Params, b: &Params) -> bool
    ensures { IsTrue result ↔ IsOfOnePicture a.now b.now }
{
    is_same_number(a.width, b.width)
        && is_same_number(a.height, b.height)
        && is_same_number(a.tag, b.tag)
}

// Whether both have the same sound.
fn are_of_one_sound(a: &Params, b: &Params) -> bool
    ensures { IsTrue result ↔ IsOfOneSound a.now b.now }
{
    is_same_number(a.channels, b.channels)
        && is_same_number(a.rate, b.rate)
        && is_same_number(a.bits, b.bits)
        && is_same_number(a.packet, b.packet)
}

impl Params {
    /// Whether both are equal in every number.
    pub fn is_same(&self, other: &Params) -> bool
        ensures { IsTrue result ↔ (self.now ≡ other.now) }
    {
        are_of_one_picture(self, other) && are_of_one_sound(self, other)
    }
}

/// One declared quality of a stream.
#[derive(Debug, Drop)]
pub struct Track {
    pub kind: Kind,
    /// The name of its stream.
    pub name: Name,
    /// In bits a second, as declared.
    pub bitrate: u32,
    /// In ticks a second.
    pub timescale: u32,
    /// Up to four bytes, each an ASCII letter or digit, `-`, `_` or a space; empty where none was declared.
    pub fourcc: Bytes,
    /// The codec's private data, empty where none was declared.
    pub private: Bytes,
    pub numbers: Params,
}

// Whether both have the same kind, stream, bitrate and timescale.
fn are_of_one_quality(a: &Track, b: &Track) -> bool
    ensures { IsTrue result ↔ IsOfOneQuality a.now b.now }
{
    a.kind == b.kind
        && a.name.as_bytes() == b.name.as_bytes()
        && a.bitrate == b.bitrate
        && a.timescale == b.timescale
}

// Whether both have the same codec.
fn are_of_one_codec(a: &Track, b: &Track) -> bool
    ensures { IsTrue result ↔ IsOfOneCodec a.now b.now }
{
    a.fourcc.as_slice() == b.fourcc.as_slice()
        && a.private.as_slice() == b.private.as_slice()
        && a.numbers.is_same(&b.numbers)
}

impl Track {
    /// Whether both are equal in every field.
    pub fn is_same(&self, other: &Track) -> bool
        ensures { IsTrue result ↔ (self.now ≡ other.now) }
    {
        are_of_one_quality(self, other) && are_of_one_codec(self, other)
    }

    /// An equal track.
    pub fn copy(&self, alloc: Global) -> Result<Track, NoMemory>
        ensures { IfOk result (λ copy. copy ≡ self.now) }
    {
        Ok(Track {
            kind: self.kind,
            name: self.name.copy(alloc)?,
            bitrate: self.bitrate,
            timescale: self.timescale,
            fourcc: Bytes::from_slice(alloc, self.fourcc.as_slice())?,
            private: Bytes::from_slice(alloc, self.private.as_slice())?,
            numbers: self.numbers,
        })
    }
}

fn is_fourcc_byte(c: u8) -> bool
    ensures { result ≡ is_fourcc_byte c }
{
    48 <= c && c <= 57
        || 97 <= c && c <= 122
        || 65 <= c && c <= 90
        || c == b'-'
        || c == b'_'
        || c == b' '
}

fn are_fourcc_bytes(bytes: &[u8]) -> bool
    ensures { result ≡ list_all is_fourcc_byte bytes.now }
{
    bytes.iter().all(|c| is_fourcc_byte(*c))
}

/// Whether these bytes are a FourCC: at most four, each an ASCII letter or digit, `-`, `_` or a space.
pub fn is_fourcc(bytes: &[u8]) -> bool
    ensures { result ≡ is_fourcc bytes.now }
{
    bytes.len() <= 4 && are_fourcc_bytes(bytes)
}
