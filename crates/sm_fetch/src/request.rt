//! Requests, written.
ghost use Rattle.std.specs.Prelude.{◌≡◌, ◌++◌, ◌<◌, drop, false, length, IfOk, OnOk};
ghost use Rattle.std.specs.List.{flat_map};
ghost use Rattle.std.specs.Fmt.{digits};
ghost use Rattle.sm_fetch.specs.Patterns.{filled_behind, filled};
ghost use Rattle.sm_fetch.specs.Requests.{request_line, host_line, close_line, get_text, manifest_request, fragment_target, fragment_request};
ghost use Rattle.sm_fetch.specs.Requests.{chunk, pieces, chunked, coding_line, post_head, push_target, push_request};

use crate::Place;
use sm_addr::put_target;
use sm_manin::{is_bitrate_field, is_start_field};
use sm_model::{Address, Bytes, Name, NoMemory, Target, put, put_number};
use std::alloc::Global;

// How many bytes of a body stand in one chunk.
const CHUNK: usize = 65_536;

fn put_line(out: &mut Vec<u8>, method: &[u8], target: &[u8]) -> Result<(), NoMemory>
    ensures { OnOk result (out.new.items ≡ out.old.items ++ request_line method.now target.now) }
{
    put(out, method)?;
    put(out, b" ")?;
    put(out, target)?;
    put(out, b" HTTP/1.1")?;
    put(out, b"\r\n")
}

fn put_host(out: &mut Vec<u8>, place: &Place) -> Result<(), NoMemory>
    ensures { OnOk result (out.new.items ≡ out.old.items ++ host_line place.now.host place.now.port) }
{
    put(out, b"Host: ")?;
    put(out, place.host.as_slice())?;
    put(out, b":")?;
    put_number(out, place.port as u64)?;
    put(out, b"\r\n")
}

fn put_close(out: &mut Vec<u8>) -> Result<(), NoMemory>
    ensures { OnOk result (out.new.items ≡ out.old.items ++ close_line) }
{
    put(out, b"Connection: close")?;
    put(out, b"\r\n")
}

fn put_get(alloc: Global, place: &Place, target: &[u8]) -> Result<Bytes, NoMemory>
    ensures { IfOk result (λ text. text ≡ get_text place.now.host place.now.port target.now) }
{
    let mut out = Vec::new(alloc);
    put_line(&mut out, b"GET", target)?;
    put_host(&mut out, place)?;
    put_close(&mut out)?;
    put(&mut out, b"\r\n")?;
    Ok(Bytes::from_vec(out))
}

// The request for the manifest of a place.
pub(crate) fn put_manifest_request(alloc: Global, place: &Place) -> Result<Bytes, NoMemory>
    ensures { IfOk result (λ text. text ≡ manifest_request place.now) }
{
    let target = put_target(alloc, place.path.as_slice(), &Target::Manifest)?;
    put_get(alloc, place, target.as_slice())
}

// What the first byte of the text adds, where so many are the rest of a field, and how many of the next are.
fn put_next(out: &mut Vec<u8>, skip: u64, address: &Address, text: &[u8]) -> Result<u64, NoMemory>
    requires { 0 < length text.now }
    ensures { IfOk result (λ next. out.new.items ++ filled_behind next address.now.bitrate address.now.time (drop 1 text.now)
        ≡ out.old.items ++ filled_behind skip address.now.bitrate address.now.time text.now) }
{
    if 0 < skip {
        return Ok(skip - 1);
    }
    if is_bitrate_field(text) {
        put_number(out, address.bitrate as u64)?;
        return Ok(8);
    }
    if is_start_field(text) {
        put_number(out, address.time)?;
        return Ok(11);
    }
    out.push(text[0])?;
    Ok(0)
}

// The Url with the bitrate and the start in the places of its fields.
fn put_filled(out: &mut Vec<u8>, url: &[u8], address: &Address) -> Result<(), NoMemory>
    ensures { OnOk result (out.new.items ≡ out.old.items ++ filled address.now.bitrate address.now.time url.now) }
{
    let mut skip: u64 = 0;
    for i in 0..url.len() {
        skip = put_next(out, skip, address, &url[i..])?;
    }
    Ok(())
}

fn fragment_target(
    alloc: Global,
    place: &Place,
    url: &[u8],
    address: &Address,
) -> Result<Vec<u8>, NoMemory>
    ensures { IfOk result (λ target. target.items ≡ fragment_target place.now url.now address.now) }
{
    // Nothing stands behind the path of a target that names nothing.
    let mut target = put_target(alloc, place.path.as_slice(), &Target::Unknown)?.into_vec(alloc)?;
    put_filled(&mut target, url, address)?;
    Ok(target)
}

// The request for the fragment at an address of a place, by the Url of its stream in the manifest.
pub(crate) fn put_fragment_request(
    alloc: Global,
    place: &Place,
    url: &[u8],
    address: &Address,
) -> Result<Bytes, NoMemory>
    ensures { IfOk result (λ text. text ≡ fragment_request place.now url.now address.now) }
{
    let target = fragment_target(alloc, place, url, address)?;
    put_get(alloc, place, &target)
}

fn put_size(alloc: Global, out: &mut Vec<u8>, size: u64) -> Result<(), NoMemory>
    ensures { OnOk result (out.new.items ≡ out.old.items ++ digits 16 false size) }
{
    let text = format!(in alloc; "{size:x}")?;
    put(out, text.as_bytes())
}

fn put_chunk(alloc: Global, out: &mut Vec<u8>, piece: &[u8]) -> Result<(), NoMemory>
    ensures { OnOk result (out.new.items ≡ out.old.items ++ chunk piece.now) }
{
    put_size(alloc, out, piece.len() as u64)?;
    put(out, b"\r\n")?;
    put(out, piece)?;
    put(out, b"\r\n")
}

fn put_chunks(alloc: Global, out: &mut Vec<u8>, body: &[u8]) -> Result<(), NoMemory>
    ensures { OnOk result (out.new.items ≡ out.old.items ++ flat_map chunk (pieces body.now)) }
{
    let mut at: usize = 0;
    while at < body.len() {
        let count = (body.len() - at).min(CHUNK);
        put_chunk(alloc, out, &body[at..at + count])?;
        at += count;
    }
    Ok(())
}

fn put_coding(out: &mut Vec<u8>) -> Result<(), NoMemory>
    ensures { OnOk result (out.new.items ≡ out.old.items ++ coding_line) }
{
    put(out, b"Transfer-Encoding: chunked")?;
    put(out, b"\r\n")
}

fn put_post(out: &mut Vec<u8>, place: &Place, target: &[u8]) -> Result<(), NoMemory>
    ensures { OnOk result (out.new.items ≡ out.old.items ++ post_head place.now.host place.now.port target.now) }
{
    put_line(out, b"POST", target)?;
    put_host(out, place)?;
    put_coding(out)?;
    put_close(out)?;
    put(out, b"\r\n")
}

fn push_target(alloc: Global, place: &Place, id: &Name) -> Result<Bytes, NoMemory>
    ensures { IfOk result (λ target. target ≡ push_target place.now id.now) }
{
    put_target(
        alloc,
        place.path.as_slice(),
        &Target::Streams(id.copy(alloc)?),
    )
}

fn put_chunked(alloc: Global, out: &mut Vec<u8>, body: &[u8]) -> Result<(), NoMemory>
    ensures { OnOk result (out.new.items ≡ out.old.items ++ chunked body.now) }
{
    put_chunks(alloc, out, body)?;
    put(out, b"0")?;
    put(out, b"\r\n")?;
    put(out, b"\r\n")
}

// The request that pushes a whole body under a name.
pub(crate) fn put_push_request(
    alloc: Global,
    place: &Place,
    id: &Name,
    body: &[u8],
) -> Result<Bytes, NoMemory>
    ensures { IfOk result (λ text. text ≡ push_request place.now id.now body.now) }
{
    let target = push_target(alloc, place, id)?;
    let mut out = Vec::new(alloc);
    put_post(&mut out, place, target.as_slice())?;
    put_chunked(alloc, &mut out, body)?;
    Ok(Bytes::from_vec(out))
}
