//! Calls of `sm_traf` and `sm_moof`.
use crate::told;
use anyhow::{Result, bail, ensure};
use sm_model::{Bytes, Defaults, Fragment, Part, RawFragment, ReadFault, Run};
use sm_moof::{
    append_fragment, body_of, finish, fragment_len, is_one_box, put_fragment, read_fragment,
    read_moof, track_of,
};
use sm_rows::values::fragment_of;
use sm_rows::{Case, hex, told as told_bytes, told_text};
use sm_traf::{Ahead, put_tfrf, put_tfxd, put_traf, read_tfrf, read_tfxd, read_traf};
use std::alloc::Global;

fn traf_of(alloc: Global, body: &[u8], defaults: &Defaults) -> Result<String> {
    match read_traf(alloc, body, defaults) {
        Ok(run) => told::run(alloc, &run),
        Err(fault) => told::fault(alloc, &fault),
    }
}

fn traf(alloc: Global, case: &Case<'_>) -> Result<String> {
    let defaults = told::defaults(alloc, case)?;
    let body = case.bytes(alloc, "body")?;
    let text = traf_of(alloc, body.as_slice(), &defaults)?;
    Ok(told_text(alloc, case, text.as_str())?)
}

fn span(alloc: Global, time: u64, duration: u64) -> Result<String> {
    Ok(format!(in alloc; "{time} {duration}")?)
}

fn tfxd(alloc: Global, case: &Case<'_>) -> Result<String> {
    let body = case.bytes(alloc, "body")?;
    match read_tfxd(body.as_slice()) {
        Some((time, duration)) => span(alloc, time, duration),
        None => told::text(alloc, "none"),
    }
}

fn tfrf(alloc: Global, case: &Case<'_>) -> Result<String> {
    let index = case.words_of(alloc, "index")?.short(0)?;
    let body = case.bytes(alloc, "body")?;
    match read_tfrf(body.as_slice(), index) {
        Ahead::Bad => told::text(alloc, "bad"),
        Ahead::Past => told::text(alloc, "past"),
        Ahead::Pair(time, duration) => span(alloc, time, duration),
    }
}

fn written_tfrf(alloc: Global, case: &Case<'_>) -> Result<String> {
    let pairs = told::pairs_of(alloc, case)?;
    ensure!(pairs.len() <= 255, "too many pairs");
    let text = put_tfrf(alloc, pairs.as_slice())?;
    Ok(told_bytes(alloc, case, text.as_slice())?)
}

fn written_tfxd(alloc: Global, case: &Case<'_>) -> Result<String> {
    let words = case.words_of(alloc, "time")?;
    let time = words.number(0)?;
    let duration = words.number(1)?;
    let text = put_tfxd(alloc, time, duration)?;
    Ok(told_bytes(alloc, case, text.as_slice())?)
}

// The two numbers of the row's line `head`.
fn head_of(alloc: Global, case: &Case<'_>) -> Result<(u32, u32)> {
    let words = case.words_of(alloc, "head")?;
    let first = words.short(0)?;
    let second = words.short(1)?;
    Ok((first, second))
}

fn traf_text(
    alloc: Global,
    id: u32,
    data_offset: u32,
    fragment: &Fragment,
    ahead: &[(u64, u64)],
) -> Result<Bytes> {
    ensure!(fragment.is_valid(), "no valid fragment");
    ensure!(ahead.len() <= 255, "too many pairs");
    Ok(put_traf(alloc, id, data_offset, fragment, ahead)?)
}

fn written_traf(alloc: Global, case: &Case<'_>) -> Result<String> {
    let (id, data_offset) = head_of(alloc, case)?;
    let fragment = fragment_of(alloc, case)?;
    let pairs = told::pairs_of(alloc, case)?;
    let text = traf_text(alloc, id, data_offset, &fragment, pairs.as_slice())?;
    Ok(told_bytes(alloc, case, text.as_slice())?)
}

// The text of a fragment by `append_fragment`, which appends it behind what stands there.
fn appended(
    alloc: Global,
    number: u32,
    id: u32,
    fragment: &Fragment,
    ahead: &[(u64, u64)],
) -> Result<Vec<u8>> {
    ensure!(fragment.is_valid(), "no valid fragment");
    ensure!(ahead.len() <= 255, "too many pairs");
    let mut appended = Vec::from_slice(alloc, b"front")?;
    append_fragment(&mut appended, number, id, fragment, ahead)?;
    Ok(appended)
}

fn same_appended(appended: &[u8], text: &[u8]) -> Result<()> {
    let behind = appended.strip_prefix(b"front");
    ensure!(behind == Some(text), "appended otherwise");
    Ok(())
}

fn put(
    alloc: Global,
    number: u32,
    id: u32,
    fragment: &Fragment,
    ahead: &[(u64, u64)],
) -> Result<Bytes> {
    ensure!(fragment.is_valid(), "no valid fragment");
    ensure!(ahead.len() <= 255, "too many pairs");
    let text = put_fragment(alloc, number, id, fragment, ahead)?;
    let len = fragment_len(fragment, ahead);
    ensure!(len as u64 == text.len(), "another length");
    Ok(text)
}

// The text of a fragment by `put_fragment`, where `append_fragment` and `fragment_len` agree.
fn text_of(
    alloc: Global,
    number: u32,
    id: u32,
    fragment: &Fragment,
    ahead: &[(u64, u64)],
) -> Result<Bytes> {
    let text = put(alloc, number, id, fragment, ahead)?;
    let appended = appended(alloc, number, id, fragment, ahead)?;
    same_appended(appended.as_slice(), text.as_slice())?;
    Ok(text)
}

fn written(alloc: Global, case: &Case<'_>) -> Result<String> {
    let (number, id) = head_of(alloc, case)?;
    let fragment = fragment_of(alloc, case)?;
    let pairs = told::pairs_of(alloc, case)?;
    let text = text_of(alloc, number, id, &fragment, pairs.as_slice())?;
    Ok(told_bytes(alloc, case, text.as_slice())?)
}

fn raw(alloc: Global, read: &Result<RawFragment, ReadFault>) -> Result<String> {
    match read {
        Ok(fragment) => told::raw(alloc, fragment),
        Err(fault) => told::fault(alloc, fault),
    }
}

fn read_boxes(alloc: Global, moof: &[u8], mdat: &[u8], defaults: &Defaults) -> Result<String> {
    ensure!(is_one_box(moof), "the moof is no box");
    ensure!(is_one_box(mdat), "the mdat is no box");
    let read = read_fragment(alloc, moof, mdat, defaults);
    raw(alloc, &read)
}

fn read(alloc: Global, case: &Case<'_>) -> Result<String> {
    let defaults = told::defaults(alloc, case)?;
    let moof = case.bytes(alloc, "moof")?;
    let mdat = case.bytes(alloc, "mdat")?;
    let text = read_boxes(alloc, moof.as_slice(), mdat.as_slice(), &defaults)?;
    Ok(told_text(alloc, case, text.as_str())?)
}

// The fragment that a run is with its `mdat`.
fn finished(alloc: Global, size: usize, mdat: Part, run: Run) -> Result<String> {
    ensure!(is_one_box(mdat.as_slice()), "the mdat is no box");
    ensure!(size < 1_000_000, "the moof is too large");
    let read = finish(alloc, size as u64, mdat, run);
    raw(alloc, &read)
}

fn run_and_raw(alloc: Global, size: usize, mdat: Part, run: Run) -> Result<String> {
    let mut text = told::run(alloc, &run)?;
    let behind = finished(alloc, size, mdat, run)?;
    text.push_str(behind.as_str())?;
    Ok(text)
}

fn read_halves(alloc: Global, moof: &[u8], mdat: Part, defaults: &Defaults) -> Result<String> {
    ensure!(is_one_box(moof), "the moof is no box");
    match read_moof(alloc, moof, defaults) {
        Ok(run) => run_and_raw(alloc, moof.len(), mdat, run),
        Err(fault) => told::fault(alloc, &fault),
    }
}

// The run of a `moof`, and then the fragment that it is with its `mdat`.
fn halves(alloc: Global, case: &Case<'_>) -> Result<String> {
    let defaults = told::defaults(alloc, case)?;
    let moof = case.bytes(alloc, "moof")?;
    let mdat = case.bytes(alloc, "mdat")?;
    let mdat = Bytes::from_vec(mdat).into_part(alloc)?;
    read_halves(alloc, moof.as_slice(), mdat, &defaults)
}

fn track_in(alloc: Global, moof: &[u8]) -> Result<String> {
    ensure!(is_one_box(moof), "the moof is no box");
    match track_of(moof) {
        Some(id) => Ok(format!(in alloc; "track {id}")?),
        None => told::text(alloc, "none"),
    }
}

fn track(alloc: Global, case: &Case<'_>) -> Result<String> {
    let moof = case.bytes(alloc, "moof")?;
    track_in(alloc, moof.as_slice())
}

// Whether bytes are one box, and then its body.
fn one_box_in(alloc: Global, bytes: &[u8]) -> Result<String> {
    if !is_one_box(bytes) {
        return told::text(alloc, "not one box");
    }
    let body = hex(alloc, body_of(bytes))?;
    Ok(format!(in alloc; "one box [{body}]")?)
}

fn one_box(alloc: Global, case: &Case<'_>) -> Result<String> {
    let bytes = case.bytes(alloc, "bytes")?;
    one_box_in(alloc, bytes.as_slice())
}

/// What a call of `sm_traf` or `sm_moof` gives.
pub fn answer(alloc: Global, case: &Case<'_>) -> Result<String> {
    match case.call() {
        "sm_traf read_traf" => traf(alloc, case),
        "sm_traf read_tfxd" => tfxd(alloc, case),
        "sm_traf read_tfrf" => tfrf(alloc, case),
        "sm_traf put_tfxd" => written_tfxd(alloc, case),
        "sm_traf put_tfrf" => written_tfrf(alloc, case),
        "sm_traf put_traf" => written_traf(alloc, case),
        "sm_moof put_fragment" => written(alloc, case),
        "sm_moof read_fragment" => read(alloc, case),
        "sm_moof read_moof, finish" => halves(alloc, case),
        "sm_moof track_of" => track(alloc, case),
        "sm_moof is_one_box, body_of" => one_box(alloc, case),
        _ => bail!("no such call"),
    }
}
