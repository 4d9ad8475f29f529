//! Reading the fields of an entry, one after another.
ghost use Rattle.std.specs.Prelude.{◌≡◌, ◌*◌, List, length, IfOk, Some};
ghost use Rattle.std.specs.Int.{w16, w32, w64};
ghost use Rattle.sm_record.specs.Reading.{Gives, byte_at, number_at, taken, short_at, long_at, option_at, flag_at, kind_at, name_of, name_at, params_at, track_at, tracks_at, declare_at, row_at, sample_of, samples_at, front_at, fragment_of, all_samples_at, keep_at};

use crate::RecordFault;
use sm_model::{
    Bytes, Channel, Fragment, Kind, Name, NameFault, NoMemory, Params, Part, Sample, Samples, Track,
};
use std::alloc::Global;

// The first byte, which leaves the part.
pub(crate) fn byte_in(rest: &mut Part) -> Result<u8, RecordFault>
    ensures { Gives (λ byte. (byte, rest.new)) result (byte_at rest.old) }
{
    let (byte, _) = byte_at(rest.as_slice())?;
    rest.skip(1);
    Ok(byte)
}

// The first byte, and the bytes behind it.
pub(crate) fn byte_at(bytes: &[u8]) -> Result<(u8, &[u8]), RecordFault>
    ensures { Gives (λ x. (x.0, x.1.now)) result (byte_at bytes.now) }
{
    match bytes {
        [] => Err(RecordFault::Damaged),
        [byte, rest @ ..] => Ok((*byte, rest)),
    }
}

fn u16_at(bytes: &[u8]) -> Result<(u16, &[u8]), RecordFault>
    ensures { Gives (λ x. (x.0, x.1.now)) result (number_at w16 bytes.now) }
{
    if bytes.len() < 2 {
        return Err(RecordFault::Damaged);
    }
    let (front, rest) = bytes.split_at(2);
    Ok((u16::from_be_bytes([front[0], front[1]]), rest))
}

fn u32_at(bytes: &[u8]) -> Result<(u32, &[u8]), RecordFault>
    ensures { Gives (λ x. (x.0, x.1.now)) result (number_at w32 bytes.now) }
{
    if bytes.len() < 4 {
        return Err(RecordFault::Damaged);
    }
    let (front, rest) = bytes.split_at(4);
    let number = u32::from_be_bytes([front[0], front[1], front[2], front[3]]);
    Ok((number, rest))
}

fn u64_at(bytes: &[u8]) -> Result<(u64, &[u8]), RecordFault>
    ensures { Gives (λ x. (x.0, x.1.now)) result (number_at w64 bytes.now) }
{
    if bytes.len() < 8 {
        return Err(RecordFault::Damaged);
    }
    let (front, rest) = bytes.split_at(8);
    let number = u64::from_be_bytes([
        front[0], front[1], front[2], front[3], front[4], front[5], front[6], front[7],
    ]);
    Ok((number, rest))
}

fn taken(bytes: &[u8], len: usize) -> Result<(&[u8], &[u8]), RecordFault>
    ensures { Gives (λ x. (x.0.now, x.1.now)) result (taken len bytes.now) }
{
    if bytes.len() < len {
        return Err(RecordFault::Damaged);
    }
    Ok(bytes.split_at(len))
}

#[tactic(auto, unfolding(crate::specs::Reading::short_at))]
fn short_at(bytes: &[u8]) -> Result<(&[u8], &[u8]), RecordFault>
    ensures { Gives (λ x. (x.0.now, x.1.now)) result (short_at bytes.now) }
{
    let (len, rest) = byte_at(bytes)?;
    taken(rest, len as usize)
}

#[tactic(auto, unfolding(crate::specs::Reading::long_at))]
fn long_at(bytes: &[u8]) -> Result<(&[u8], &[u8]), RecordFault>
    ensures { Gives (λ x. (x.0.now, x.1.now)) result (long_at bytes.now) }
{
    let (len, rest) = u32_at(bytes)?;
    taken(rest, len as usize)
}

#[tactic(auto, unfolding(crate::specs::Reading::option_at))]
fn option_at(bytes: &[u8]) -> Result<(Option<u32>, &[u8]), RecordFault>
    ensures { Gives (λ x. (x.0, x.1.now)) result (option_at bytes.now) }
{
    match bytes {
        [] => Err(RecordFault::Damaged),
        [0, rest @ ..] => Ok((None, rest)),
        [1, rest @ ..] => {
            let (number, rest) = u32_at(rest)?;
            Ok((Some(number), rest))
        }
        [_, ..] => Err(RecordFault::Damaged),
    }
}

#[tactic(auto, unfolding(crate::specs::Reading::flag_at))]
fn flag_at(bytes: &[u8]) -> Result<(bool, &[u8]), RecordFault>
    ensures { Gives (λ x. (x.0, x.1.now)) result (flag_at bytes.now) }
{
    match bytes {
        [0, rest @ ..] => Ok((false, rest)),
        [1, rest @ ..] => Ok((true, rest)),
        _ => Err(RecordFault::Damaged),
    }
}

#[tactic(auto, unfolding(crate::specs::Reading::kind_at))]
fn kind_at(bytes: &[u8]) -> Result<(Kind, &[u8]), RecordFault>
    ensures { Gives (λ x. (x.0, x.1.now)) result (kind_at bytes.now) }
{
    match bytes {
        [1, rest @ ..] => Ok((Kind::Video, rest)),
        [2, rest @ ..] => Ok((Kind::Audio, rest)),
        [3, rest @ ..] => Ok((Kind::Text, rest)),
        _ => Err(RecordFault::Damaged),
    }
}

fn name_of(alloc: Global, text: &[u8]) -> Result<Name, RecordFault>
    ensures { Gives (λ name. name) result (name_of text.now) }
{
    match Name::read(alloc, text) {
        Ok(name) => Ok(name),
        Err(NameFault::Form { at: _ }) => Err(RecordFault::Damaged),
        Err(NameFault::NoMemory) => Err(RecordFault::NoMemory),
    }
}

#[tactic(auto, unfolding(crate::specs::Reading::name_at))]
fn name_at(alloc: Global, bytes: &[u8]) -> Result<(Name, &[u8]), RecordFault>
    ensures { Gives (λ x. (x.0, x.1.now)) result (name_at bytes.now) }
{
    let (text, rest) = short_at(bytes)?;
    let name = name_of(alloc, text)?;
    Ok((name, rest))
}

#[tactic(auto, unfolding(crate::specs::Reading::params_at))]
fn params_at(bytes: &[u8]) -> Result<(Params, &[u8]), RecordFault>
    ensures { Gives (λ x. (x.0, x.1.now)) result (params_at bytes.now) }
{
    let (width, rest) = option_at(bytes)?;
    let (height, rest) = option_at(rest)?;
    let (tag, rest) = option_at(rest)?;
    let (channels, rest) = option_at(rest)?;
    let (rate, rest) = option_at(rest)?;
    let (bits, rest) = option_at(rest)?;
    let (packet, rest) = option_at(rest)?;
    let numbers = Params {
        width,
        height,
        tag,
        channels,
        rate,
        bits,
        packet,
    };
    Ok((numbers, rest))
}

#[tactic(auto, unfolding(crate::specs::Reading::track_at))]
fn track_at(alloc: Global, bytes: &[u8]) -> Result<(Track, &[u8]), RecordFault>
    ensures { Gives (λ x. (x.0, x.1.now)) result (track_at bytes.now) }
{
    let (kind, rest) = kind_at(bytes)?;
    let (name, rest) = name_at(alloc, rest)?;
    let (bitrate, rest) = u32_at(rest)?;
    let (timescale, rest) = u32_at(rest)?;
    let (fourcc, rest) = short_at(rest)?;
    let (private, rest) = long_at(rest)?;
    let (numbers, rest) = params_at(rest)?;
    let track = Track {
        kind,
        name,
        bitrate,
        timescale,
        fourcc: Bytes::from_slice(alloc, fourcc)?,
        private: Bytes::from_slice(alloc, private)?,
        numbers,
    };
    Ok((track, rest))
}

fn tracks_at(alloc: Global, count: u16, bytes: &[u8]) -> Result<(Vec<Track>, &[u8]), RecordFault>
    ensures { Gives (λ x. (x.0.items, x.1.now)) result (tracks_at count bytes.now) }
{
    let mut tracks = Vec::new(alloc);
    let mut rest = bytes;
    for _ in 0..count {
        let (track, after) = track_at(alloc, rest)?;
        tracks.push(track)?;
        rest = after;
    }
    Ok((tracks, rest))
}

// The channel whose fields these bytes are, and nothing else.
#[tactic(auto, unfolding(crate::specs::Reading::declare_at))]
pub(crate) fn declare_at(alloc: Global, bytes: &[u8]) -> Result<Channel, RecordFault>
    ensures { Gives (λ channel. channel) result (declare_at bytes.now) }
{
    let (count, rest) = u16_at(bytes)?;
    let (tracks, rest) = tracks_at(alloc, count, rest)?;
    if !rest.is_empty() {
        return Err(RecordFault::Damaged);
    }
    Ok(Channel::from_vec(tracks))
}

// A sample's numbers, before its bytes are there.
#[derive(Clone, Copy)]
struct Row {
    duration: u32,
    flags: u32,
    offset: u32,
    size: u32,
}

#[tactic(auto, unfolding(crate::specs::Reading::row_at))]
fn row_at(bytes: &[u8]) -> Result<(Row, &[u8]), RecordFault>
    ensures { Gives (λ x. (x.0, x.1.now)) result (row_at bytes.now) }
{
    let (duration, rest) = u32_at(bytes)?;
    let (flags, rest) = u32_at(rest)?;
    let (offset, rest) = u32_at(rest)?;
    let (size, rest) = u32_at(rest)?;
    let row = Row {
        duration,
        flags,
        offset,
        size,
    };
    Ok((row, rest))
}

// So many of the first bytes of a part, which leave it. No byte is copied.
fn part_at(rest: &mut Part, n: usize) -> Result<Part, RecordFault>
    ensures { Gives (λ own. (own, rest.new)) result (taken n rest.old) }
{
    if rest.len() < n as u64 {
        return Err(RecordFault::Damaged);
    }
    Ok(rest.split_front(n)?)
}

fn sample_in(row: Row, own: Part) -> Sample
    ensures { result ≡ sample_of row own }
{
    Sample {
        duration: row.duration,
        flags: row.flags,
        offset: row.offset,
        bytes: Bytes::from_part(own),
    }
}

// So many samples, from their rows and their bytes, and the bytes behind them. No byte is copied: each sample owns the block.
fn samples_in(
    alloc: Global,
    count: u32,
    table: &[u8],
    bytes: Part,
) -> Result<(Vec<Sample>, Part), RecordFault>
    ensures { Gives (λ x. (x.0.items, x.1)) result (samples_at count table.now bytes) }
{
    let mut samples = Vec::with_capacity(alloc, table.len() / 16)?;
    let mut rows = table;
    let mut rest = bytes;
    for _ in 0..count {
        let (row, behind) = row_at(rows)?;
        let own = part_at(&mut rest, row.size as usize)?;
        samples.push(sample_in(row, own))?;
        rows = behind;
    }
    Ok((samples, rest))
}

// The samples of a part that has their rows and then their bytes, and nothing else. No byte is copied.
#[tactic(auto, unfolding(crate::specs::Reading::all_samples_at))]
fn all_samples_in(alloc: Global, count: u32, bytes: Part) -> Result<Samples, RecordFault>
    ensures { Gives (λ samples. samples) result (all_samples_at count bytes) }
{
    let mut rest = bytes.again()?;
    let table = part_at(&mut rest, 16 * count as usize)?;
    let whole = rest.again()?;
    let (samples, rest) = samples_in(alloc, count, table.as_slice(), rest)?;
    if rest.len() != 0 {
        return Err(RecordFault::Damaged);
    }
    Ok(Samples::of_block(samples, whole))
}

// What stands before the samples.
#[derive(Clone, Copy)]
struct Front {
    place: u32,
    time: u64,
    duration: u64,
    signed: bool,
    count: u32,
}

#[tactic(auto, unfolding(crate::specs::Reading::front_at))]
fn front_at(bytes: &[u8]) -> Result<(Front, &[u8]), RecordFault>
    ensures { Gives (λ x. (x.0, x.1.now)) result (front_at bytes.now) }
{
    let (place, rest) = u32_at(bytes)?;
    let (time, rest) = u64_at(rest)?;
    let (duration, rest) = u64_at(rest)?;
    let (signed, rest) = flag_at(rest)?;
    let (count, rest) = u32_at(rest)?;
    let front = Front {
        place,
        time,
        duration,
        signed,
        count,
    };
    Ok((front, rest))
}

// What stands before the samples, which leaves the part: 25 bytes.
fn front_in(rest: &mut Part) -> Result<Front, RecordFault>
    ensures { Gives (λ front. (front, rest.new)) result (front_at rest.old) }
{
    let (front, _) = front_at(rest.as_slice())?;
    rest.skip(25);
    Ok(front)
}

// The fragment of this channel whose fields these bytes are, and nothing else. No byte of a sample is copied.
#[tactic(auto, unfolding(crate::specs::Reading::keep_at))]
pub(crate) fn keep_at(
    alloc: Global,
    channel: &[Track],
    bytes: Part,
) -> Result<Fragment, RecordFault>
    ensures { Gives (λ fragment. fragment) result (keep_at channel.now bytes) }
{
    let mut rest = bytes;
    let front = front_in(&mut rest)?;
    match channel.get(front.place as usize) {
        None => Err(RecordFault::Damaged),
        Some(track) => {
            let samples = all_samples_in(alloc, front.count, rest)?;
            Ok(Fragment {
                stream: track.name.copy(alloc)?,
                bitrate: track.bitrate,
                time: front.time,
                duration: front.duration,
                signed: front.signed,
                samples,
            })
        }
    }
}
