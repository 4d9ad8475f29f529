//! The times that a stream's elements stand for.
ghost use Rattle.std.specs.Prelude.{◌≡◌, ◌+◌, ◌*◌, ◌<◌, ◌≤◌, ◌^◌, ◌++◌, ℕ, false, Some, is_some, IfOk, OnOk};
ghost use Rattle.sm_model.specs.Places.{least_from};
ghost use Rattle.sm_manin.specs.RunTimes.{start_in, until, duration_in, checked_count, count_in, fits, checked_time};
ghost use Rattle.sm_manin.specs.RunTimes.{is_before, is_unsettled, unsettled_time, time_in, expand, times_in, fault_in, times_or_none};

use crate::raw::RawTime;
use crate::text::wide_in;
use sm_model::{Bytes, NoMemory, note, number_of, wide_number_of};
use std::alloc::Global;

fn start_in(end: u64, text: &Option<Bytes>) -> Option<u64>
    ensures { result ≡ start_in end text.now }
{
    match text {
        None => Some(end),
        Some(text) => wide_number_of(text.as_slice()),
    }
}

fn until(start: u64, behind: &[RawTime]) -> Option<u64>
    ensures { result ≡ until start behind.now }
{
    match behind {
        [] => None,
        [next, ..] => wide_in(&next.t).map(|next| next.saturating_sub(start)),
    }
}

fn duration_in(start: u64, text: &Option<Bytes>, behind: &[RawTime]) -> Option<u64>
    ensures { result ≡ duration_in start text.now behind.now }
{
    match text {
        None => until(start, behind),
        Some(text) => wide_number_of(text.as_slice()),
    }
}

fn checked_count(lasts: bool, count: Option<u32>) -> Option<u32>
    ensures { result ≡ checked_count lasts count }
{
    match count {
        None => None,
        Some(r) => {
            if 1 <= r && r <= 262144 && (r == 1 || lasts) {
                Some(r)
            } else {
                None
            }
        }
    }
}

fn count_in(lasts: bool, text: &Option<Bytes>) -> Option<u32>
    ensures { result ≡ count_in lasts text.now }
{
    match text {
        None => Some(1),
        Some(text) => checked_count(lasts, number_of(text.as_slice())),
    }
}

fn fits(end: u64, count: u64, start: u64, duration: u64, r: u32) -> bool
    ensures { result ≡ fits end count start duration r }
{
    0 < duration
        && end <= start
        && start as u128 + duration as u128 * (r as u128) < 9223372036854775808
        && count as u128 + r as u128 <= 262144
}

fn checked_time(
    end: u64,
    count: u64,
    start: Option<u64>,
    duration: Option<u64>,
    r: Option<u32>,
) -> Option<(u64, u64, u32)>
    ensures { result ≡ checked_time end count start duration r }
{
    match (start, duration, r) {
        (Some(start), Some(duration), Some(r)) => {
            if fits(end, count, start, duration, r) {
                Some((start, duration, r))
            } else {
                None
            }
        }
        _ => None,
    }
}

fn is_before(start: u64, next: Option<u64>) -> bool
    ensures { result ≡ is_before start next }
{
    match next {
        None => true,
        Some(next) => next < start,
    }
}

fn is_unsettled(is_open: bool, start: u64, text: &Option<Bytes>, behind: &[RawTime]) -> bool
    ensures { result ≡ is_unsettled is_open start text.now behind.now }
{
    if text.is_some() {
        return false;
    }
    if behind.is_empty() {
        return is_open;
    }
    behind[0].t.is_some() && is_before(start, wide_in(&behind[0].t))
}

fn unsettled_time(end: u64, start: Option<u64>, r: Option<u32>) -> Option<(u64, u64, u32)>
    ensures { result ≡ unsettled_time end start r }
{
    match (start, r) {
        (Some(start), Some(_)) => {
            if end <= start {
                Some((start, 0, 0))
            } else {
                None
            }
        }
        _ => None,
    }
}

/// The start, the duration and the count of an element behind times that end there.
pub fn time_in(
    is_open: bool,
    end: u64,
    count: u64,
    time: &RawTime,
    behind: &[RawTime],
) -> Option<(u64, u64, u32)>
    ensures { result ≡ time_in is_open end count time.now behind.now }
{
    let start = start_in(end, &time.t);
    let r = count_in(time.d.is_some(), &time.r);
    if is_unsettled(is_open, start.unwrap_or(0), &time.d, behind) {
        unsettled_time(end, start, r)
    } else {
        checked_time(
            end,
            count,
            start,
            duration_in(start.unwrap_or(0), &time.d, behind),
            r,
        )
    }
}

pub fn note_times(fault: &mut Option<u64>, is_open: bool, times: &[RawTime])
    ensures { fault.new ≡ least_from fault.old (fault_in (times_in is_open 0 0 times.now)) }
{
    let mut end: u64 = 0;
    let mut count: u64 = 0;
    for i in 0..times.len() {
        let Some((start, duration, r)) = time_in(is_open, end, count, &times[i], &times[i + 1..])
        else {
            note(fault, times[i].at);
            return;
        };
        end = start + duration * (r as u64);
        count += r as u64;
    }
}

// Puts a run of times behind others.
fn put_run(times: &mut Vec<(u64, u64)>, start: u64, duration: u64, r: u32) -> Result<(), NoMemory>
    requires { start + duration * r < 2 ^ 64 }
    ensures { OnOk result (times.new.items ≡ times.old.items ++ expand start duration r) }
{
    let mut next = start;
    for _time in 0..r {
        times.push((next, duration))?;
        next += duration;
    }
    Ok(())
}

/// The times that these elements stand for, or none where one of them is at fault.
pub fn times_of(alloc: Global, times: &[RawTime]) -> Result<Vec<(u64, u64)>, NoMemory>
    ensures { IfOk result (λ v. v.items ≡ times_or_none (times_in false 0 0 times.now)) }
{
    let mut all = Vec::new(alloc);
    let mut end: u64 = 0;
    let mut count: u64 = 0;
    for i in 0..times.len() {
        let Some((start, duration, r)) = time_in(false, end, count, &times[i], &times[i + 1..])
        else {
            return Ok(Vec::new(alloc));
        };
        end = start + duration * (r as u64);
        count += r as u64;
        put_run(&mut all, start, duration, r)?;
    }
    Ok(all)
}
