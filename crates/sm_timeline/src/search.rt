//! Looking for a start in entries that are sorted, by halves.
ghost use Rattle.std.specs.Prelude.{◌≡◌, ◌≤◌, ◌<◌, length, ℕ, IfOk, IfErr, Some, None, slice_index_or};
ghost use Rattle.sm_log.specs.Times.{AreSorted, entry_at};
ghost use Rattle.sm_timeline.specs.Places.{place_in};

// How many entries start before that.
fn place_of(entries: &[(u64, u64)], start: u64) -> usize
    requires { AreSorted entries.now }
    ensures { result ≡ place_in start entries.now }
{
    entries.partition_point(|entry| entry.0 < start)
}

/// The place of the entry that starts there, or the place where such an entry belongs.
pub fn find(entries: &[(u64, u64)], start: u64) -> Result<usize, usize>
    requires { AreSorted entries.now }
    ensures found { IfOk result (λ i. (i ≡ place_in start entries.now) × (i < length entries.now) ×
        ((d : ℕ × ℕ) → entry_at start entries.now ≡ Some (slice_index_or entries.now i d).1)) }
    ensures absent { IfErr result (λ i. (i ≡ place_in start entries.now) × (i ≤ length entries.now) × (entry_at start entries.now ≡ None)) }
{
    let place = place_of(entries, start);
    if place < entries.len() && entries[place].0 == start {
        Ok(place)
    } else {
        Err(place)
    }
}
