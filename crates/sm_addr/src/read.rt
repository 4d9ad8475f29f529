//! Targets read.
ghost use Rattle.std.specs.Prelude.{◌≡◌, ◌<◌, ◌^◌, IfOk};
ghost use Rattle.sm_addr.specs.Targets as spec;
ghost use Rattle.sm_addr.specs.Targets.{target_in, target_of};

use crate::cut::{before, behind, cut_at};
use crate::path::{is_short_path, isml_at};
use crate::time::time_of;
use percent_encoding::percent_decode;
use sm_model::{Address, Name, NameFault, NoMemory, Target, number_of};
use std::alloc::Global;
use std::borrow::CowSlice;

// A push under the name that the bytes are, if they are one.
fn streams(alloc: Global, id: &[u8]) -> Result<Target, NoMemory>
    ensures { IfOk result (λ target. target ≡ spec.streams id.now) }
{
    match Name::read(alloc, id) {
        Ok(name) => Ok(Target::Streams(name)),
        Err(NameFault::Form { .. }) => Ok(Target::Unknown),
        Err(NameFault::NoMemory) => Err(NoMemory),
    }
}

// A fragment of the stream that the bytes name, if they do.
fn fragment(alloc: Global, bitrate: u32, stream: &[u8], time: u64) -> Result<Target, NoMemory>
    ensures { IfOk result (λ target. target ≡ spec.fragment bitrate stream.now time) }
{
    match Name::read(alloc, stream) {
        Ok(stream) => Ok(Target::Fragment(Address {
            stream,
            bitrate,
            time,
        })),
        Err(NameFault::Form { .. }) => Ok(Target::Unknown),
        Err(NameFault::NoMemory) => Err(NoMemory),
    }
}

// The number in `=T)`.
fn time_in(text: &[u8]) -> Option<u64>
    ensures { result ≡ spec.time_in text.now }
{
    match behind(text, b"=") {
        Some(rest) => match before(rest, b")") {
            Some(digits) => time_of(digits),
            None => None,
        },
        None => None,
    }
}

// What `NAME=T)` names, at this bitrate.
fn fragment_at(alloc: Global, bitrate: u32, text: &[u8]) -> Result<Target, NoMemory>
    ensures { IfOk result (λ target. target ≡ spec.fragment_at bitrate text.now) }
{
    let (stream, rest) = cut_at(text, b'=');
    match time_in(rest) {
        Some(time) => fragment(alloc, bitrate, stream, time),
        None => Ok(Target::Unknown),
    }
}

// What `B)/Fragments(NAME=T)` names.
fn level_at(alloc: Global, text: &[u8]) -> Result<Target, NoMemory>
    ensures { IfOk result (λ target. target ≡ spec.level_at text.now) }
{
    let (digits, rest) = cut_at(text, b')');
    match behind(rest, b")/Fragments(") {
        Some(rest) => match number_of(digits) {
            Some(bitrate) => fragment_at(alloc, bitrate, rest),
            None => Ok(Target::Unknown),
        },
        None => Ok(Target::Unknown),
    }
}

// What the text behind `.isml/` names.
fn target_behind(alloc: Global, rest: &[u8]) -> Result<Target, NoMemory>
    ensures { IfOk result (λ target. target ≡ spec.target_behind rest.now) }
{
    if rest == b"Manifest".as_slice() || rest == b"manifest".as_slice() {
        return Ok(Target::Manifest);
    }
    if let Some(text) = behind(rest, b"QualityLevels(") {
        return level_at(alloc, text);
    }
    if let Some(text) = behind(rest, b"Streams(") {
        return match before(text, b")") {
            Some(id) => streams(alloc, id),
            None => Ok(Target::Unknown),
        };
    }
    Ok(Target::Unknown)
}

// What the unescaped text of a target names.
fn target_in(alloc: Global, text: &[u8]) -> Result<Target, NoMemory>
    ensures { IfOk result (λ target. target ≡ target_in text.now) }
{
    match isml_at(text) {
        Some(at) => match behind(&text[..at], b"/") {
            Some(path) => if is_short_path(path) {
                target_behind(alloc, &text[at + 6..])
            } else {
                Ok(Target::Unknown)
            },
            None => Ok(Target::Unknown),
        },
        None => Ok(Target::Unknown),
    }
}

/// What a target names.
///
/// A `?` and all behind it is dropped, and then the escapes of the rest are read, once; a `%` without two hexadecimal digits
/// stays. What is left is `/PATH.isml/` and one of `Manifest`, `manifest`, `QualityLevels(B)/Fragments(NAME=T)` and
/// `Streams(ID)`. PATH is 1 to 512 bytes without `?`, and the first `.isml/` ends it. B is 1 to 10 digits below 2^32, T is 1
/// to 20 digits below 2^64, with leading zeros or without; NAME and ID are names. All else is `Unknown`.
pub fn read_target(alloc: Global, bytes: &[u8]) -> Result<Target, NoMemory>
    ensures { IfOk result (λ target. target ≡ target_of bytes.now) }
{
    let (asked, _) = cut_at(bytes, b'?');
    // Mostly there is no escape, and nothing is copied.
    match percent_decode(asked).into_cow(alloc)? {
        CowSlice::Borrowed(text) => target_in(alloc, text),
        CowSlice::Owned(text) => target_in(alloc, text.as_slice()),
    }
}
