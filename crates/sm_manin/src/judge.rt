//! The faults of the elements.
ghost use Rattle.std.specs.Prelude.{◌≡◌, ◌++◌, [], None, is_some, unwrap_or};
ghost use Rattle.sm_model.specs.Places.{least_from};
ghost use Rattle.sm_manin.specs.ManifestFaults.{is_two, look_text, is_root_at_fault, root_faults, name_of, are_equal_bitrates, at_if, is_level_at_fault};
ghost use Rattle.sm_manin.specs.ManifestFaults.{level_faults, is_misfit, is_stream_at_fault, lacks_levels, stream_faults, streams_faults, open_faults, faults_of};
ghost use Rattle.sm_manin.specs.Values.{narrow_in};
ghost use Rattle.sm_model.specs.Same.{is_same};
ghost use Rattle.std.specs.List.{list_any};

use crate::note::note_if;
use crate::raw::{RawLevel, RawRoot, RawStream};
use crate::text::{is_pattern, kind_in_type, narrow_in, narrow_or};
use crate::times::note_times;
use crate::walk::Walk;
use sm_model::{Bytes, Name, note, note_option};

fn is_two(number: Option<u32>) -> bool
    ensures { result ≡ is_two number }
{
    match number {
        None => false,
        Some(n) => n == 2,
    }
}

/// How many fragments ahead each names, as it stands.
pub fn look_text(root: &RawRoot) -> &Option<Bytes>
    ensures { result.now ≡ look_text root.now }
{
    if root.look.is_some() {
        &root.look
    } else {
        &root.lookahead
    }
}

#[tactic(auto, unfolding(crate::specs::ManifestFaults::is_root_at_fault))]
fn is_root_at_fault(root: &RawRoot) -> bool
    ensures { result ≡ is_root_at_fault root.now }
{
    !is_two(narrow_in(&root.major))
        || narrow_or(0, look_text(root)).is_none()
        || narrow_or(10000000, &root.timescale).is_none()
}

fn note_root(fault: &mut Option<u64>, root: &Option<RawRoot>)
    ensures { fault.new ≡ least_from fault.old (root_faults root.now) }
{
    if let Some(root) = root {
        if is_root_at_fault(root) {
            note(fault, root.at);
        }
    }
}

fn are_equal_bitrates(a: Option<u32>, b: Option<u32>) -> bool
    ensures { result ≡ are_equal_bitrates a b }
{
    match (a, b) {
        (Some(a), Some(b)) => a == b,
        _ => false,
    }
}

fn has_bitrate(earlier: &[RawLevel], bitrate: Option<u32>) -> bool
    ensures { result ≡ list_any (λ e. are_equal_bitrates (narrow_in e.bitrate) bitrate) earlier.now }
{
    for e in earlier {
        if are_equal_bitrates(narrow_in(&e.bitrate), bitrate) {
            return true;
        }
    }
    false
}

#[tactic(auto, unfolding(crate::specs::ManifestFaults::is_level_at_fault))]
fn is_level_at_fault(earlier: &[RawLevel], level: &RawLevel) -> bool
    ensures { result ≡ is_level_at_fault earlier.now level.now }
{
    let bitrate = narrow_in(&level.bitrate);
    64 <= earlier.len()
        || bitrate.is_none()
        || narrow_or(0, &level.index).is_none()
        || has_bitrate(earlier, bitrate)
}

fn note_level(fault: &mut Option<u64>, earlier: &[RawLevel], level: &RawLevel)
    ensures { fault.new ≡ least_from fault.old (at_if (is_level_at_fault earlier.now level.now) level.now.at) }
{
    note_if(fault, is_level_at_fault(earlier, level), level.at);
}

fn note_levels(fault: &mut Option<u64>, levels: &[RawLevel])
    ensures { fault.new ≡ least_from fault.old (level_faults [] levels.now) }
{
    for i in 0..levels.len() {
        note_level(fault, &levels[..i], &levels[i]);
    }
}

fn kind_or_empty(kind: &Option<Bytes>) -> &[u8]
    ensures { result.now ≡ unwrap_or kind.now [] }
{
    match kind {
        Some(kind) => kind.as_slice(),
        None => b"",
    }
}

/// The name of a stream: its Type where it says none.
pub fn name_of(stream: &RawStream) -> &[u8]
    ensures { result.now ≡ name_of stream.now }
{
    match &stream.name {
        Some(name) => name.as_slice(),
        None => kind_or_empty(&stream.kind_text),
    }
}

fn is_misfit(url: &Option<Bytes>) -> bool
    ensures { result ≡ is_misfit url.now }
{
    match url {
        None => true,
        Some(url) => !is_pattern(url.as_slice()),
    }
}

fn is_named(earlier: &[RawStream], name: &[u8]) -> bool
    ensures { result ≡ list_any (λ e. is_same (name_of e) name.now) earlier.now }
{
    for e in earlier {
        if name_of(e) == name {
            return true;
        }
    }
    false
}

#[tactic(auto, unfolding(crate::specs::ManifestFaults::is_stream_at_fault))]
fn is_stream_at_fault(earlier: &[RawStream], stream: &RawStream) -> bool
    ensures { result ≡ is_stream_at_fault earlier.now stream.now }
{
    let name = name_of(stream);
    64 <= earlier.len()
        || kind_in_type(&stream.kind_text).is_none()
        || is_misfit(&stream.url)
        || !Name::fits(name)
        || narrow_or(0, &stream.timescale).is_none()
        || is_named(earlier, name)
}

fn lacks_levels(is_open: bool, stream: &RawStream) -> bool
    ensures { result ≡ lacks_levels is_open stream.now }
{
    !is_open && stream.levels.as_slice().is_empty()
}

#[tactic(auto, using(crate::proofs::Least::least_from_append))]
fn note_stream(fault: &mut Option<u64>, is_open: bool, earlier: &[RawStream], stream: &RawStream)
    ensures { fault.new ≡ least_from fault.old (stream_faults is_open earlier.now stream.now) }
{
    let is_fault = is_stream_at_fault(earlier, stream) || lacks_levels(is_open, stream);
    note_if(fault, is_fault, stream.at);
    note_levels(fault, stream.levels.as_slice());
    note_times(fault, is_open, stream.times.as_slice());
}

fn note_streams(fault: &mut Option<u64>, streams: &[RawStream])
    ensures { fault.new ≡ least_from fault.old (streams_faults [] streams.now) }
{
    for i in 0..streams.len() {
        note_stream(fault, false, &streams[..i], &streams[i]);
    }
}

fn note_open(fault: &mut Option<u64>, earlier: &[RawStream], current: &Option<RawStream>)
    ensures { fault.new ≡ least_from fault.old (open_faults earlier.now current.now) }
{
    if let Some(stream) = current {
        note_stream(fault, true, earlier, stream);
    }
}

/// The least place of a fault in a text whose tags were walked over up to a tag at fault, if there is one, or the end.
#[tactic(auto, using(crate::proofs::Least::least_from_append))]
pub fn fault_of(bad: Option<u64>, walk: &Walk) -> Option<u64>
    ensures { result ≡ least_from None (faults_of bad walk.now) }
{
    let mut fault = None;
    note_root(&mut fault, walk.root());
    note_option(&mut fault, walk.other());
    note_option(&mut fault, walk.protection());
    note_streams(&mut fault, walk.done());
    note_open(&mut fault, walk.done(), walk.current());
    note_option(&mut fault, bad);
    fault
}
