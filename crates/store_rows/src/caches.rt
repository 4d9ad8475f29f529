//! Steps on a cache of fragments.
use anyhow::{Result, bail};
use sm_cache::Cache;
use sm_rows::scripts::is_quiet;
use sm_rows::stored::{address, fragment};
use sm_rows::tales::Tale;
use sm_rows::{Case, Line, Words};
use std::alloc::Global;

// Tells the place at which an address is kept.
fn get(alloc: Global, cache: &mut Cache, words: &Words, tale: &mut Tale) -> Result<()> {
    let address = address(alloc, words)?;
    match cache.get(&address) {
        Some(kept) => tale.count(kept.place),
        None => tale.say("none"),
    }
}

// A step: `put PLACE` is of the fragment that the line before it says, `get` of an address.
fn step(
    alloc: Global,
    cache: &mut Cache,
    line: &Line,
    words: &Words,
    tale: &mut Tale,
) -> Result<()> {
    match line.key() {
        "put" => {
            let fragment = fragment(alloc, words)?;
            let place = fragment.time.saturating_add(10);
            cache.put(alloc, place, fragment)?;
            Ok(())
        }
        "get" => get(alloc, cache, words, tale),
        _ => bail!("no such step"),
    }
}

/// Makes the steps on a cache for as many fragments as the line `capacity` says: `put` and a fragment, whose place is 10 more than its
/// time, and `get` and an address.
pub fn play(alloc: Global, case: &Case<'_>) -> Result<String> {
    let capacity = usize::try_from(case.number(alloc, "capacity")?)?;
    if capacity == 0 {
        bail!("no capacity");
    }
    let mut cache = Cache::new(alloc, capacity)?;
    let mut tale = Tale::new(alloc);
    for line in case.lines() {
        if !is_quiet(line.key()) && line.key() != "capacity" {
            let words = case.words(alloc, line)?;
            step(alloc, &mut cache, line, &words, &mut tale)?;
        }
    }
    Ok(tale.into_text())
}
