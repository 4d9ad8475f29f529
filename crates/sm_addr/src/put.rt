//! Targets written.
ghost use Rattle.std.specs.Prelude.{◌≡◌, ◌++◌, OnOk, IfOk};
ghost use Rattle.percent_encoding.specs.Percent.{percent_encode};
ghost use Rattle.sm_addr.specs.Written.{escaped, is_plain, is_plain_in_path, level_text, place_text, form_text, target_written};

use percent_encoding::{AsciiSet, NON_ALPHANUMERIC, ascii_set, percent_encode};
use sm_model::{Bytes, NoMemory, Target, put, put_number};
use std::alloc::Global;

/// What is escaped in a name: all but ASCII letters, digits, `_`, `-` and `.`.
pub const NAME_ESCAPES: AsciiSet = ascii_set!(
    NON_ALPHANUMERIC.remove(b'_').remove(b'-').remove(b'.')
);

/// What is escaped in a path: the same, but `/`.
pub const PATH_ESCAPES: AsciiSet = ascii_set!(
    NON_ALPHANUMERIC
        .remove(b'_')
        .remove(b'-')
        .remove(b'.')
        .remove(b'/')
);

fn put_escaped(
    alloc: Global,
    out: &mut Vec<u8>,
    bytes: &[u8],
    escapes: AsciiSet,
) -> Result<(), NoMemory>
    ensures { OnOk result (out.new.items ≡ out.old.items ++ percent_encode escapes bytes.now) }
{
    let mut text = String::new(alloc);
    percent_encode(bytes, escapes).append_to(&mut text)?;
    put(out, text.as_bytes())
}

#[tactic(auto, using(crate::proofs::Escapes::name_escaped))]
fn put_name(alloc: Global, out: &mut Vec<u8>, name: &[u8]) -> Result<(), NoMemory>
    ensures { OnOk result (out.new.items ≡ out.old.items ++ escaped is_plain name.now) }
{
    put_escaped(alloc, out, name, NAME_ESCAPES)
}

#[tactic(auto, using(crate::proofs::Escapes::path_escaped))]
fn put_path(alloc: Global, out: &mut Vec<u8>, path: &[u8]) -> Result<(), NoMemory>
    ensures { OnOk result (out.new.items ≡ out.old.items ++ escaped is_plain_in_path path.now) }
{
    put_escaped(alloc, out, path, PATH_ESCAPES)
}

fn put_level(out: &mut Vec<u8>, bitrate: u32) -> Result<(), NoMemory>
    ensures { OnOk result (out.new.items ≡ out.old.items ++ level_text bitrate) }
{
    put(out, b"QualityLevels(")?;
    put_number(out, bitrate as u64)?;
    put(out, b")/")
}

fn put_place(alloc: Global, out: &mut Vec<u8>, stream: &[u8], time: u64) -> Result<(), NoMemory>
    ensures { OnOk result (out.new.items ≡ out.old.items ++ place_text stream.now time) }
{
    put(out, b"Fragments(")?;
    put_name(alloc, out, stream)?;
    put(out, b"=")?;
    put_number(out, time)?;
    put(out, b")")
}

fn put_form(alloc: Global, out: &mut Vec<u8>, target: &Target) -> Result<(), NoMemory>
    ensures { OnOk result (out.new.items ≡ out.old.items ++ form_text target.now) }
{
    match target {
        Target::Manifest => put(out, b"Manifest"),
        Target::Fragment(address) => {
            put_level(out, address.bitrate)?;
            put_place(alloc, out, address.stream.as_bytes(), address.time)
        }
        Target::Streams(id) => {
            put(out, b"Streams(")?;
            put_name(alloc, out, id.as_bytes())?;
            put(out, b")")
        }
        Target::Unknown => Ok(()),
    }
}

/// The target of this path that names this: `/PATH.isml/` and its form, numbers without leading zeros. Every byte of the path
/// and of a name but ASCII letters, digits, `_`, `-`, `.`, and `/` in the path, is escaped with upper-case digits. The path
/// is one: 1 to 512 bytes without `?` and `.isml/`; and the target isn't `Unknown`, which has no form.
pub fn put_target(alloc: Global, path: &[u8], target: &Target) -> Result<Bytes, NoMemory>
    ensures { IfOk result (λ text. text ≡ target_written path.now target.now) }
{
    let mut out = Vec::new(alloc);
    put(&mut out, b"/")?;
    put_path(alloc, &mut out, path)?;
    put(&mut out, b".isml/")?;
    put_form(alloc, &mut out, target)?;
    Ok(Bytes::from_vec(out))
}
