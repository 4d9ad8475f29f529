//! A plain, slow program that lists what a part of a manifest lists, by walking over its whole lines.
ghost use Rattle.std.specs.Prelude.{◌≡◌, ◌++◌, [], map, option_to_list, nat_eq, IfOk, OnOk};
ghost use Rattle.std.specs.List.{flat_map, starts_with};
ghost use Rattle.sm_manout.specs.Shown.{ended_by, quoted, value_of, stream_name, line_bitrates, after_line, run_starts, count_in, line_starts, at_bitrates, lists};
ghost use Rattle.sm_manin.specs.Values.{wide_in};
ghost use Rattle.sm_manout.specs.Plain.{address};

use sm_manin::wide_in;
use sm_model::{Bytes, NoMemory, number_of, wide_number_of};
use std::alloc::Global;
use std::marker::Model;

/// An address that a text lists. Unlike a fragment's, its stream may be no name and its start may have more than 64 bits.
#[derive(Debug, Drop)]
pub struct ListedAt {
    pub stream: Bytes,
    pub bitrate: u32,
    pub time: u128,
}

// The name and the bitrates of the stream whose lines are read.
#[derive(Drop)]
struct OpenStream {
    stream: Bytes,
    bitrates: Vec<u32>,
}

impl Model for OpenStream {
    ghost use Rattle.sm_manout.specs.Shown.{Open};

    ghost Value = { Open };

    ghost view = { λ o. record { stream = o.stream; bitrates = o.bitrates.items } };
}

// The pieces of a text that such a byte ends.
fn ended_by(alloc: Global, mark: u8, text: &[u8]) -> Result<Vec<Bytes>, NoMemory>
    ensures { IfOk result (λ v. v.items ≡ ended_by mark [] text.now) }
{
    let mut pieces = Vec::new(alloc);
    let mut piece = Vec::new(alloc);
    for c in text {
        if *c == mark {
            pieces.push(Bytes::from_vec(piece))?;
            piece = Vec::new(alloc);
        } else {
            piece.push(*c)?;
        }
    }
    Ok(pieces)
}

// The value behind that lead.
fn quoted(alloc: Global, lead: &[u8], pieces: &[Bytes]) -> Result<Option<Bytes>, NoMemory>
    ensures { IfOk result (λ v. v ≡ quoted lead.now pieces.now) }
{
    let mut i = 0;
    while i + 1 < pieces.len() {
        if pieces[i].as_slice() == lead {
            return Ok(Some(Bytes::from_slice(alloc, pieces[i + 1].as_slice())?));
        }
        i += 2;
    }
    Ok(None)
}

fn begins(line: &[u8], text: &[u8]) -> bool
    ensures { result ≡ starts_with nat_eq line.now text.now }
{
    line.starts_with(text)
}

fn value_of(alloc: Global, tag: &[u8], lead: &[u8], line: &[u8]) -> Result<Option<Bytes>, NoMemory>
    ensures { IfOk result (λ v. v ≡ value_of tag.now lead.now line.now) }
{
    if line.len() < tag.len() {
        return Ok(None);
    }
    let pieces = ended_by(alloc, b'"', &line[tag.len()..])?;
    quoted(alloc, lead, &pieces)
}

fn stream_name(alloc: Global, line: &[u8]) -> Result<Bytes, NoMemory>
    ensures { IfOk result (λ name. name ≡ stream_name line.now) }
{
    if let Some(name) = value_of(alloc, b"<StreamIndex", b" Name=", line)? {
        return Ok(name);
    }
    if let Some(kind) = value_of(alloc, b"<StreamIndex", b" Type=", line)? {
        return Ok(kind);
    }
    Ok(Bytes::from_vec(Vec::new(alloc)))
}

fn bitrate_in(alloc: Global, line: &[u8]) -> Result<Option<u32>, NoMemory>
    ensures { IfOk result (λ bitrate. option_to_list bitrate ≡ line_bitrates line.now) }
{
    match value_of(alloc, b"<QualityLevel", b" Bitrate=", line)? {
        None => Ok(None),
        Some(text) => Ok(number_of(text.as_slice())),
    }
}

impl OpenStream {
    // A line more.
    #[tactic(auto, unfolding(crate::specs::Shown::after_line))]
    fn take(&mut self, alloc: Global, line: &[u8]) -> Result<(), NoMemory>
        ensures { OnOk result (self.new ≡ after_line self.old line.now) }
    {
        if begins(line, b"<StreamIndex ") {
            self.stream = stream_name(alloc, line)?;
            self.bitrates = Vec::new(alloc);
            return Ok(());
        }
        if begins(line, b"<QualityLevel ") {
            if let Some(bitrate) = bitrate_in(alloc, line)? {
                self.bitrates.push(bitrate)?;
            }
            return Ok(());
        }
        Ok(())
    }
}

fn count_in(text: &Option<Bytes>) -> Option<u64>
    ensures { result ≡ count_in text.now }
{
    match text {
        None => Some(1),
        Some(text) => wide_number_of(text.as_slice()),
    }
}

// So many starts, each a duration behind the one before it.
fn run_starts(alloc: Global, count: u64, start: u64, duration: u64) -> Result<Vec<u128>, NoMemory>
    ensures { IfOk result (λ v. v.items ≡ run_starts count start duration) }
{
    let mut starts = Vec::new(alloc);
    for i in 0..count {
        starts.push(start as u128 + i as u128 * duration as u128)?;
    }
    Ok(starts)
}

#[tactic(auto, unfolding(crate::specs::Shown::line_starts))]
fn line_starts(alloc: Global, line: &[u8]) -> Result<Vec<u128>, NoMemory>
    ensures { IfOk result (λ v. v.items ≡ line_starts line.now) }
{
    if !begins(line, b"<c ") {
        return Ok(Vec::new(alloc));
    }
    let start = value_of(alloc, b"<c", b" t=", line)?;
    let duration = value_of(alloc, b"<c", b" d=", line)?;
    let count = value_of(alloc, b"<c", b" r=", line)?;
    let Some(start) = wide_in(&start) else {
        return Ok(Vec::new(alloc));
    };
    let Some(duration) = wide_in(&duration) else {
        return Ok(Vec::new(alloc));
    };
    let Some(count) = count_in(&count) else {
        return Ok(Vec::new(alloc));
    };
    run_starts(alloc, count, start, duration)
}

// A start with each bitrate of the stream.
fn list_at(
    alloc: Global,
    out: &mut Vec<ListedAt>,
    opened: &OpenStream,
    start: u128,
) -> Result<(), NoMemory>
    ensures { OnOk result (map address out.new.items ≡ map address out.old.items ++ at_bitrates opened.now start) }
{
    for bitrate in &opened.bitrates {
        out.push(ListedAt {
            stream: Bytes::from_slice(alloc, opened.stream.as_slice())?,
            bitrate: *bitrate,
            time: start,
        })?;
    }
    Ok(())
}

fn list_all(
    alloc: Global,
    out: &mut Vec<ListedAt>,
    opened: &OpenStream,
    starts: &[u128],
) -> Result<(), NoMemory>
    ensures { OnOk result (map address out.new.items ≡ map address out.old.items ++ flat_map (at_bitrates opened.now) starts.now) }
{
    for start in starts {
        list_at(alloc, out, opened, *start)?;
    }
    Ok(())
}

/// The addresses that the whole lines of a text list, in order: each start of each `c`, with each quality of its stream that
/// stands before it.
pub fn lists(alloc: Global, part: &[u8]) -> Result<Vec<ListedAt>, NoMemory>
    ensures { IfOk result (λ v. map address v.items ≡ lists part.now) }
{
    let lines = ended_by(alloc, b'\n', part)?;
    let mut opened = OpenStream {
        stream: Bytes::from_vec(Vec::new(alloc)),
        bitrates: Vec::new(alloc),
    };
    let mut out = Vec::new(alloc);
    for line in &lines {
        let starts = line_starts(alloc, line.as_slice())?;
        list_all(alloc, &mut out, &opened, &starts)?;
        opened.take(alloc, line.as_slice())?;
    }
    Ok(out)
}
