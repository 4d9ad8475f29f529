//! What a whole request head asks.
ghost use Rattle.std.specs.Prelude.{◌≡◌, ℕ, List, length, All, map};
ghost use Rattle.httparse.specs.Spans.{IsHeaderWithin, header_bytes};
ghost use Rattle.sm_head.specs.Fields.{IsLookup};
ghost use Rattle.sm_head.specs.Judged as spec;
ghost use Rattle.sm_head.specs.Judged.{judged_by};
ghost use Rattle.sm_model.specs.Gives.{Gives};

use crate::fields::{Lookup, has_value, is_other, is_several, is_there, look_up};
use crate::length::read_length;
use http::Method;
use httparse::spans::HeaderSpan;
use sm_addr::read_target;
use sm_model::{Cause, Framing, ReadFault, Target};
use std::alloc::Global;

/// The methods that are answered.
#[derive(Clone, Copy, Debug, PartialEq, Eq)]
pub enum Verb {
    Get,
    Post,
}

/// What a head asks.
#[derive(Debug, Drop)]
pub struct Asked {
    pub method: Verb,
    pub target: Target,
    pub framing: Framing,
    /// The connection closes behind the reply.
    pub close: bool,
    /// The client waits for a `100 Continue` before it sends the body.
    pub expects: bool,
}

fn is_bad_length(get: bool, length: Lookup<'_>) -> bool
    ensures { (values : List (List ℕ)) → IsLookup length.entry values → result ≡ spec.is_bad_length get values }
{
    match length {
        Lookup::Absent => false,
        Lookup::Several => true,
        Lookup::Once(value) => match read_length(value) {
            Some(number) => get && number != 0,
            None => true,
        },
    }
}

// Whether the fields are bad. All of it is at hand, so that `|` and `&` decide without a branch, and the proof is one equation.
fn is_bad(get: bool, bytes: &[u8], fields: &[HeaderSpan]) -> bool
    requires { All (IsHeaderWithin (length bytes.now)) fields.now }
    ensures { result ≡ spec.is_bad get (map (header_bytes bytes.now) fields.now) }
{
    let length = look_up(bytes, fields, b"content-length");
    let transfer = look_up(bytes, fields, b"transfer-encoding");
    let content = look_up(bytes, fields, b"content-encoding");
    let bad_length = is_bad_length(get, length);
    let several = is_several(transfer);
    let several_content = is_several(content);
    let has_length = is_there(length);
    let has_transfer = is_there(transfer);
    bad_length | several | several_content | (has_length & has_transfer) | (get & has_transfer)
}

fn is_encoded(bytes: &[u8], fields: &[HeaderSpan]) -> bool
    requires { All (IsHeaderWithin (length bytes.now)) fields.now }
    ensures { result ≡ spec.is_encoded (map (header_bytes bytes.now) fields.now) }
{
    let content = is_other(look_up(bytes, fields, b"content-encoding"), b"identity");
    let transfer = is_other(look_up(bytes, fields, b"transfer-encoding"), b"chunked");
    content | transfer
}

fn closes(minor: u8, bytes: &[u8], fields: &[HeaderSpan]) -> bool
    requires { All (IsHeaderWithin (length bytes.now)) fields.now }
    ensures { result ≡ spec.closes minor (map (header_bytes bytes.now) fields.now) }
{
    let said = has_value(bytes, fields, b"connection", b"close");
    (minor == 0) | said
}

fn framing_by(length: Lookup<'_>, transfer: Lookup<'_>) -> Option<Framing>
    ensures { (values others : List (List ℕ)) → IsLookup length.entry values → IsLookup transfer.entry others → result ≡ spec.framing_by values others }
{
    match length {
        Lookup::Absent => match transfer {
            Lookup::Absent => None,
            Lookup::Once(_) | Lookup::Several => Some(Framing::Chunked),
        },
        Lookup::Once(value) => match read_length(value) {
            Some(length) => Some(Framing::Counted(length)),
            None => None,
        },
        Lookup::Several => None,
    }
}

fn push_framing(bytes: &[u8], fields: &[HeaderSpan]) -> Option<Framing>
    requires { All (IsHeaderWithin (length bytes.now)) fields.now }
    ensures { result ≡ spec.framing_by (spec.lengths (map (header_bytes bytes.now) fields.now)) (spec.transfers (map (header_bytes bytes.now) fields.now)) }
{
    let length = look_up(bytes, fields, b"content-length");
    let transfer = look_up(bytes, fields, b"transfer-encoding");
    framing_by(length, transfer)
}

fn verb_of(method: &[u8]) -> Option<Verb>
    ensures { result ≡ spec.verb_of method.now }
{
    if method == Method::GET.as_str().as_bytes() {
        Some(Verb::Get)
    } else if method == Method::POST.as_str().as_bytes() {
        Some(Verb::Post)
    } else {
        None
    }
}

fn is_get(verb: Option<Verb>) -> bool
    ensures { result ≡ spec.is_get verb }
{
    matches!(verb, Some(Verb::Get))
}

fn is_push(target: &Target) -> bool
    ensures { result ≡ spec.is_push target.now }
{
    matches!(target, Target::Streams(_))
}

fn ask_push(target: Target, minor: u8, bytes: &[u8], fields: &[HeaderSpan]) -> Result<Asked, Cause>
    requires { All (IsHeaderWithin (length bytes.now)) fields.now }
    ensures { result ≡ spec.push_by target minor (map (header_bytes bytes.now) fields.now) }
{
    if is_encoded(bytes, fields) {
        return Err(Cause::Encoded);
    }
    match push_framing(bytes, fields) {
        Some(framing) => {
            let close = closes(minor, bytes, fields);
            let expects = has_value(bytes, fields, b"expect", b"100-continue");
            Ok(Asked {
                method: Verb::Post,
                target,
                framing,
                close,
                expects,
            })
        }
        None => Err(Cause::LengthRequired),
    }
}

fn ask(
    verb: Option<Verb>,
    target: Target,
    minor: u8,
    bytes: &[u8],
    fields: &[HeaderSpan],
) -> Result<Asked, Cause>
    requires { All (IsHeaderWithin (length bytes.now)) fields.now }
    ensures { result ≡ spec.asked_by verb target minor (map (header_bytes bytes.now) fields.now) }
{
    match verb {
        Some(Verb::Get) => {
            if is_push(&target) {
                return Err(Cause::Method);
            }
            let close = closes(minor, bytes, fields);
            Ok(Asked {
                method: Verb::Get,
                target,
                framing: Framing::None,
                close,
                expects: false,
            })
        }
        Some(Verb::Post) => {
            if !is_push(&target) {
                return Err(Cause::Method);
            }
            ask_push(target, minor, bytes, fields)
        }
        None => Err(Cause::Method),
    }
}

/// What a head of this method, target, version and fields asks, or the first refusal that holds: more than 64 fields;
/// fields that contradict each other, or a GET with a body; a method that the target doesn't take; an encoded body; a POST
/// that tells no length.
pub fn judge(
    alloc: Global,
    bytes: &[u8],
    method: &[u8],
    target: &[u8],
    minor: u8,
    fields: &[HeaderSpan],
) -> Result<Asked, ReadFault>
    requires { All (IsHeaderWithin (length bytes.now)) fields.now }
    ensures { Gives result (judged_by method.now target.now minor (map (header_bytes bytes.now) fields.now)) }
{
    if fields.len() > 64 {
        return Err(ReadFault::Refused(Cause::HeadTooLarge));
    }
    let verb = verb_of(method);
    if is_bad(is_get(verb), bytes, fields) {
        return Err(ReadFault::Refused(Cause::BadHead));
    }
    let target = read_target(alloc, target)?;
    match ask(verb, target, minor, bytes, fields) {
        Ok(asked) => Ok(asked),
        Err(cause) => Err(ReadFault::Refused(cause)),
    }
}
