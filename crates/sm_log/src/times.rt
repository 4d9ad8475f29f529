//! The times of one stream, walked: plain and slow.
ghost use Rattle.std.specs.Prelude.{◌≡◌, ◌≤◌, ◌+◌, ◌<◌, ℕ, length, IfSome, IfNone, OnOk};
ghost use Rattle.std.specs.List.{insert};
ghost use Rattle.std.specs.Option.{option_map};
ghost use Rattle.sm_log.specs.Times.{ends, entry_at, with_entry, do_overlap, overlapped_end};

use sm_model::NoMemory;

// The place of a start in order of time, where none of the times starts there.
fn free_place(times: &[(u64, u64)], start: u64) -> Option<usize>
    ensures within { IfSome result (λ i. i ≤ length times.now) }
    ensures free { (duration : ℕ) → IfSome result (λ i. with_entry start duration times.now ≡ insert times.now i (start, duration)) }
    ensures taken { (duration : ℕ) → IfNone result (with_entry start duration times.now ≡ times.now) }
{
    for (i, time) in times.iter().enumerate() {
        if start < time.0 {
            return Some(i);
        }
        if time.0 == start {
            return None;
        }
    }
    Some(times.len())
}

/// Puts a start and a duration among others in order of time; one that stands there stays.
pub fn put_time(times: &mut Vec<(u64, u64)>, start: u64, duration: u64) -> Result<(), NoMemory>
    ensures { OnOk result (times.new.items ≡ with_entry start duration times.old.items) }
{
    match free_place(times, start) {
        None => {}
        Some(i) => times.insert(i, (start, duration))?,
    }
    Ok(())
}

/// The time that starts there.
pub fn time_at(times: &[(u64, u64)], start: u128) -> Option<(u64, u64)>
    ensures duration { option_map (λ time. time.1) result ≡ entry_at start times.now }
    ensures start { IfSome result (λ time. time.0 ≡ start) }
{
    for time in times {
        if time.0 as u128 == start {
            return Some(*time);
        }
    }
    None
}

fn do_overlap(a: (u64, u64), b: (u64, u64)) -> bool
    ensures { result ≡ do_overlap a b }
{
    (a.0 as u128) < b.0 as u128 + b.1 as u128 && (b.0 as u128) < a.0 as u128 + a.1 as u128
}

/// The first time that overlaps the span.
pub fn overlapped(times: &[(u64, u64)], span: (u64, u64)) -> Option<(u64, u64)>
    ensures { option_map ends result ≡ overlapped_end span times.now }
{
    for time in times {
        if do_overlap(*time, span) {
            return Some(*time);
        }
    }
    None
}
