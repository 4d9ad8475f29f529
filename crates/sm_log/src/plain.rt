//! Plain, slow programs that compute the definitions, each by walking the whole log.
ghost use Rattle.std.specs.Prelude.{◌≡◌, ◌==◌, ◌&&◌, ℕ, IfOk, OnOk, Some, is_some, filter, nat_le, MatchOption, ◌+◌, ◌<◌, ◌↔◌, IsTrue};
ghost use Rattle.std.specs.Option.{option_map};
ghost use Rattle.sm_model.specs.Same.{is_same};
ghost use Rattle.sm_log.specs.declared.verdict.Judged.TheVariants as judged;
ghost use Rattle.sm_log.specs.Times.{AreTimes, decision, with_entry};
ghost use Rattle.sm_log.specs.Adds.{track_at, tracks_of, is_kept, is_listed, listed, judged_by, place_of, two_from, behind};
ghost use Rattle.sm_log.specs.Logs.{channel_of, adds_of, is_kept_at, kept_at, times_in, listed_in, ahead_in, verdict_on, FitsBehind, IsSound};
ghost use Rattle.sm_model.specs.Fragments.{sample_bytes};
ghost use Rattle.sm_log.specs.Digests.{bytes_of, window_of};
ghost use Rattle.sm_log.specs.Plain.{keeps, times_more};

use crate::times::{overlapped, put_time, time_at};
use crate::{Decision, Judged};
use sm_model::{Entry, Fragment, NoMemory, Sample, Track};
use std::alloc::Global;

/// The channel of the log: its first entry's.
pub fn channel(log: &[Entry]) -> Option<&[Track]>
    ensures { option_map (λ c. c.now) result ≡ channel_of log.now }
{
    match log {
        [] => None,
        [first, ..] => match first {
            Entry::Declare(channel) => Some(channel.as_slice()),
            Entry::Keep(_) => None,
        },
    }
}

// Whether the entry keeps a fragment of that stream, bitrate and start.
fn keeps(entry: &Entry, stream: &[u8], bitrate: u32, time: u64) -> bool
    ensures { result ≡ keeps stream.now bitrate time entry.now }
{
    match entry {
        Entry::Declare(_) => false,
        Entry::Keep(f) => f.stream.as_bytes() == stream && f.bitrate == bitrate && f.time == time,
    }
}

/// The place from 0 of the fragment that is kept at that stream, bitrate and start.
pub fn kept(log: &[Entry], stream: &[u8], bitrate: u32, time: u64) -> Option<u64>
    ensures { result ≡ place_of (record { stream = stream.now; bitrate = bitrate; time = time }) (adds_of log.now) }
{
    for (i, entry) in log.iter().enumerate() {
        if keeps(entry, stream, bitrate, time) {
            return Some(i as u64);
        }
    }
    None
}

// Puts what the entry keeps of the stream among the times.
fn put_entry(times: &mut Vec<(u64, u64)>, entry: &Entry, stream: &[u8]) -> Result<(), NoMemory>
    ensures { OnOk result (times.new.items ≡ times_more stream.now times.old.items entry.now) }
{
    match entry {
        Entry::Declare(_) => Ok(()),
        Entry::Keep(f) => {
            if f.stream.as_bytes() == stream {
                put_time(times, f.time, f.duration)
            } else {
                Ok(())
            }
        }
    }
}

/// The starts and durations of what is kept of a stream, each start once, in order of time.
pub fn times(alloc: Global, log: &[Entry], stream: &[u8]) -> Result<Vec<(u64, u64)>, NoMemory>
    ensures { IfOk result (λ v. v.items ≡ times_in log.now stream.now) }
{
    let mut times = Vec::new(alloc);
    for entry in log {
        put_entry(&mut times, entry, stream)?;
    }
    Ok(times)
}

// What the times say of a start and a duration.
fn decide(times: &[(u64, u64)], time: u64, duration: u64) -> Decision
    ensures { AreTimes times.now → result ≡ decision times.now time duration }
{
    match time_at(times, time as u128) {
        Some(kept) => {
            if kept.1 == duration {
                Decision::There
            } else {
                Decision::Clash { kept: kept.1 }
            }
        }
        None => match overlapped(times, (time, duration)) {
            None => Decision::New,
            Some(other) => Decision::Overlap {
                end: other.0.saturating_add(other.1),
            },
        },
    }
}

// The verdict on a fragment of a declared track, of which `kept` is the place.
fn judged(kept: Option<u64>, decision: Decision) -> Judged
    ensures { result ≡ judged_by kept decision }
{
    match decision {
        Decision::New => Judged::New,
        Decision::There => match kept {
            None => Judged::New,
            Some(place) => Judged::Known { place },
        },
        Decision::Clash { kept } => Judged::Clash { kept },
        Decision::Overlap { end } => Judged::Overlap { end },
    }
}

fn is_declared(channel: &[Track], stream: &[u8], bitrate: u32) -> bool
    ensures { result ≡ is_some (track_at stream.now bitrate channel.now) }
{
    for track in channel {
        if track.name.as_bytes() == stream && track.bitrate == bitrate {
            return true;
        }
    }
    false
}

/// What is said of a fragment behind the entries of a sound log.
pub fn judge(alloc: Global, log: &[Entry], fragment: &Fragment) -> Result<Judged, NoMemory>
    ensures { IfOk result (λ v. IsSound log.now → v ≡ verdict_on log.now fragment.now) }
{
    let stream = fragment.stream.as_bytes();
    let Some(channel) = channel(log) else {
        return Ok(Judged::NotDeclared);
    };
    if !is_declared(channel, stream, fragment.bitrate) {
        return Ok(Judged::NotDeclared);
    }
    let times = times(alloc, log, stream)?;
    let kept = kept(log, stream, fragment.bitrate, fragment.time);
    Ok(judged(kept, decide(&times, fragment.time, fragment.duration)))
}

// Whether an entry may stand behind those of a sound log.
fn fits_behind(alloc: Global, before: &[Entry], entry: &Entry) -> Result<bool, NoMemory>
    ensures { IfOk result (λ b. IsSound before.now → (IsTrue b ↔ FitsBehind before.now entry.now)) }
{
    match entry {
        Entry::Declare(channel) => Ok(before.is_empty() && channel.is_valid()),
        Entry::Keep(f) => Ok(f.is_valid() && is_new(judge(alloc, before, f)?)),
    }
}

fn is_new(verdict: Judged) -> bool
    ensures { IsTrue result ↔ (verdict ≡ judged.New) }
{
    match verdict {
        Judged::New => true,
        _ => false,
    }
}

/// Whether the log is sound.
pub fn is_sound(alloc: Global, log: &[Entry]) -> Result<bool, NoMemory>
    ensures { IfOk result (λ b. IsTrue b ↔ IsSound log.now) }
{
    if log.len() > u32::MAX as usize {
        return Ok(false);
    }
    for i in 0..log.len() {
        if !fits_behind(alloc, &log[..i], &log[i])? {
            return Ok(false);
        }
    }
    Ok(true)
}

// Whether every track of that stream is kept at that start.
fn is_listed(log: &[Entry], channel: &[Track], stream: &[u8], time: (u64, u64)) -> bool
    ensures { result ≡ is_listed channel.now (adds_of log.now) stream.now time }
{
    channel
        .iter()
        .filter(|track| track.name.as_bytes() == stream)
        .all(|track| kept(log, stream, track.bitrate, time.0).is_some())
}

/// The starts and durations at which every track of a stream is kept, in order of time.
pub fn listed(alloc: Global, log: &[Entry], stream: &[u8]) -> Result<Vec<(u64, u64)>, NoMemory>
    ensures { IfOk result (λ v. v.items ≡ listed_in log.now stream.now) }
{
    let mut listed = Vec::new(alloc);
    let Some(channel) = channel(log) else {
        return Ok(listed);
    };
    let times = times(alloc, log, stream)?;
    for time in &times {
        if is_listed(log, channel, stream, *time) {
            listed.push(*time)?;
        }
    }
    Ok(listed)
}

// Up to two times: the one that starts there, and the one that starts where that ends.
fn two_from(alloc: Global, times: &[(u64, u64)], start: u128) -> Result<Vec<(u64, u64)>, NoMemory>
    ensures { IfOk result (λ v. v.items ≡ two_from times.now start) }
{
    let mut two = Vec::new(alloc);
    let Some(first) = time_at(times, start) else {
        return Ok(two);
    };
    two.push(first)?;
    let Some(second) = time_at(times, first.0 as u128 + first.1 as u128) else {
        return Ok(two);
    };
    two.push(second)?;
    Ok(two)
}

/// Up to two listed times behind what is kept of a stream at that start, each starting where the one before it ends.
pub fn ahead(
    alloc: Global,
    log: &[Entry],
    stream: &[u8],
    time: u64,
) -> Result<Vec<(u64, u64)>, NoMemory>
    ensures { IfOk result (λ v. v.items ≡ ahead_in log.now stream.now time) }
{
    let listed = listed(alloc, log, stream)?;
    let times = times(alloc, log, stream)?;
    match time_at(&times, time as u128) {
        None => Ok(Vec::new(alloc)),
        Some(here) => two_from(alloc, &listed, time as u128 + here.1 as u128),
    }
}

// What is left of so many bytes behind those of the samples.
fn left_by_samples(samples: &[Sample], most: u64) -> Option<u64>
    ensures { MatchOption result (most < sample_bytes samples.now) (λ left. left + sample_bytes samples.now ≡ most) }
{
    let mut left = most;
    for sample in samples {
        if left < sample.bytes.len() {
            return None;
        }
        left -= sample.bytes.len();
    }
    Some(left)
}

// Whether the samples of all these fragments have at most so many bytes.
fn are_within(fragments: &[Fragment], most: u64) -> bool
    ensures { result ≡ nat_le (bytes_of fragments.now) most }
{
    let mut left = most;
    for fragment in fragments {
        match left_by_samples(fragment.samples.as_slice(), left) {
            None => return false,
            Some(rest) => left = rest,
        }
    }
    true
}

/// The last of these fragments, as many as have at most 67,108,864 bytes of samples together.
pub fn window(fragments: &[Fragment]) -> &[Fragment]
    ensures { result.now ≡ window_of fragments.now }
{
    for i in 0..fragments.len() {
        if are_within(&fragments[i..], 67_108_864) {
            return &fragments[i..];
        }
    }
    &[]
}
