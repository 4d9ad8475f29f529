//! What the values of attributes say.
ghost use Rattle.std.specs.Prelude.{◌≡◌, option_map};
ghost use Rattle.sm_manin.specs.Values.{wide_in, narrow_in, narrow_or, kind_of, kind_in_type};
ghost use Rattle.sm_manin.specs.Patterns.{is_bitrate_field, is_start_field, is_target_byte, pattern_step, is_pattern};

use sm_model::{Bytes, Kind, number_of, wide_number_of};

/// The number of 64 bits that a field writes, where it is there and writes one.
pub fn wide_in(text: &Option<Bytes>) -> Option<u64>
    ensures { result ≡ wide_in text.now }
{
    match text {
        None => None,
        Some(text) => wide_number_of(text.as_slice()),
    }
}

pub fn narrow_in(text: &Option<Bytes>) -> Option<u32>
    ensures { result ≡ narrow_in text.now }
{
    match text {
        None => None,
        Some(text) => number_of(text.as_slice()),
    }
}

/// The number, or this one where it is absent.
pub fn narrow_or(number: u32, text: &Option<Bytes>) -> Option<u32>
    ensures { result ≡ narrow_or number text.now }
{
    match text {
        None => Some(number),
        Some(text) => number_of(text.as_slice()),
    }
}

#[tactic(auto, unfolding(crate::specs::Values::kind_of))]
fn kind_of(text: &[u8]) -> Option<Kind>
    ensures { result ≡ kind_of text.now }
{
    if text == b"video".as_slice() {
        Some(Kind::Video)
    } else if text == b"audio".as_slice() {
        Some(Kind::Audio)
    } else if text == b"text".as_slice() {
        Some(Kind::Text)
    } else {
        None
    }
}

pub fn kind_in_type(text: &Option<Bytes>) -> Option<Kind>
    ensures { result ≡ kind_in_type text.now }
{
    match text {
        None => None,
        Some(text) => kind_of(text.as_slice()),
    }
}

/// Whether the field of the bitrate stands at the front of a text, as a Url has it ([MS-SSTR] 2.2.2.5): `{bitrate}` or `{Bitrate}`.
pub fn is_bitrate_field(text: &[u8]) -> bool
    ensures { result ≡ is_bitrate_field text.now }
{
    text.starts_with(b"{bitrate}") || text.starts_with(b"{Bitrate}")
}

/// Whether the field of the time stands at the front of a text: `{start time}` or `{start_time}`.
pub fn is_start_field(text: &[u8]) -> bool
    ensures { result ≡ is_start_field text.now }
{
    text.starts_with(b"{start time}") || text.starts_with(b"{start_time}")
}

fn is_target_byte(c: u8) -> bool
    ensures { result ≡ is_target_byte c }
{
    33 <= c && c != 123 && c != 125 && c != 127
}

// One byte, where this text begins.
fn pattern_step(
    skip: u64,
    bitrate: bool,
    start: bool,
    c: u8,
    text: &[u8],
) -> Option<(u64, bool, bool)>
    ensures { result ≡ pattern_step skip bitrate start c text.now }
{
    if 0 < skip {
        Some((skip - 1, bitrate, start))
    } else if is_bitrate_field(text) {
        if bitrate {
            None
        } else {
            Some((8, true, start))
        }
    } else if is_start_field(text) {
        if start {
            None
        } else {
            Some((11, bitrate, true))
        }
    } else if is_target_byte(c) {
        Some((0, bitrate, start))
    } else {
        None
    }
}

/// Whether each of the two fields stands once in the address of fragments, and no other brace or blank.
pub fn is_pattern(text: &[u8]) -> bool
    ensures { result ≡ is_pattern text.now }
{
    let mut skip: u64 = 0;
    let mut bitrate = false;
    let mut start = false;
    for i in 0..text.len() {
        let Some((next, has_bitrate, has_start)) = pattern_step(
            skip,
            bitrate,
            start,
            text[i],
            &text[i..],
        ) else {
            return false;
        };
        skip = next;
        bitrate = has_bitrate;
        start = has_start;
    }
    bitrate && start
}
