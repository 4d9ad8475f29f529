//! What the first line of an opened store chooses.
ghost use Rattle.std.specs.Prelude.{◌≤◌, ◌<◌, ◌^◌, IfOk};

use anyhow::{Result, bail};
use sm_archive::Limits;
use sm_rows::Words;

/// The number behind a word, if the word is there.
pub fn chosen(words: &Words, name: &str) -> Result<Option<u64>> {
    for at in 0..words.len() {
        if words.text(at)? == name {
            return Ok(Some(words.number(at.saturating_add(1))?));
        }
    }
    Ok(None)
}

/// The limits of a store: `bytes`, `entries` and `times`, each with its number, and those of every store where none is said.
pub fn limits(words: &Words) -> Result<Limits>
    ensures bytes { IfOk result (λ limits. limits.store_bytes ≤ 2 ^ 62) }
    ensures entries { IfOk result (λ limits. limits.entries < 2 ^ 32) }
{
    let standard = Limits::standard();
    let store_bytes = chosen(words, "bytes")?.unwrap_or(standard.store_bytes);
    let entries = chosen(words, "entries")?.unwrap_or(standard.entries);
    let times = chosen(words, "times")?.unwrap_or(standard.times);
    if store_bytes > 1 << 62 || entries > 4_294_967_295 {
        bail!("no limits");
    }
    Ok(Limits {
        store_bytes,
        entries,
        times,
    })
}
