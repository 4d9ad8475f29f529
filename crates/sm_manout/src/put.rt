//! Pieces, attributes and escaped names.
ghost use Rattle.std.specs.Prelude.{◌≡◌, ◌++◌, ◌<◌, OnOk};
ghost use Rattle.sm_manout.specs.ManifestText.{attribute, number_attribute, option_attribute, text_attribute, escaped};

use percent_encoding::{AsciiSet, NON_ALPHANUMERIC, ascii_set, percent_encode};
use sm_model::{NoMemory, put};
use std::alloc::Global;

fn put_two(out: &mut Vec<u8>, first: &[u8], second: &[u8]) -> Result<(), NoMemory>
    ensures { OnOk result (out.new.items ≡ out.old.items ++ (first.now ++ second.now)) }
{
    put(out, first)?;
    put(out, second)
}

#[tactic(auto, unfolding(crate::specs::ManifestText::attribute))]
pub fn put_attribute(out: &mut Vec<u8>, name: &[u8], value: &[u8]) -> Result<(), NoMemory>
    ensures { OnOk result (out.new.items ≡ out.old.items ++ attribute name.now value.now) }
{
    put_two(out, b" ", name)?;
    put_two(out, b"=\"", value)?;
    put(out, b"\"")
}

pub fn put_number(alloc: Global, out: &mut Vec<u8>, name: &[u8], value: u64) -> Result<(), NoMemory>
    ensures { OnOk result (out.new.items ≡ out.old.items ++ number_attribute name.now value) }
{
    let text = format!(in alloc; "{value}")?;
    put_attribute(out, name, text.as_bytes())
}

pub fn put_option(
    alloc: Global,
    out: &mut Vec<u8>,
    name: &[u8],
    value: Option<u32>,
) -> Result<(), NoMemory>
    ensures { OnOk result (out.new.items ≡ out.old.items ++ option_attribute name.now value) }
{
    match value {
        None => Ok(()),
        Some(value) => put_number(alloc, out, name, value as u64),
    }
}

pub fn put_text(out: &mut Vec<u8>, name: &[u8], value: &[u8]) -> Result<(), NoMemory>
    ensures { OnOk result (out.new.items ≡ out.old.items ++ text_attribute name.now value.now) }
{
    match value {
        [] => Ok(()),
        _ => put_attribute(out, name, value),
    }
}

// What is escaped in a name: all but ASCII letters, digits, `_`, `-` and `.`.
const NAME_ESCAPES: AsciiSet = ascii_set!(NON_ALPHANUMERIC.remove(b'_').remove(b'-').remove(b'.'));

/// A name as it stands in an address.
#[tactic(auto, using(crate::proofs::Escapes::name_escaped))]
pub fn put_escaped(alloc: Global, out: &mut Vec<u8>, name: &[u8]) -> Result<(), NoMemory>
    ensures { OnOk result (out.new.items ≡ out.old.items ++ escaped name.now) }
{
    let mut text = String::new(alloc);
    percent_encode(name, NAME_ESCAPES).append_to(&mut text)?;
    put(out, text.as_bytes())
}
