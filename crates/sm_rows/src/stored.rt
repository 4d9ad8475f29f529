//! Channels, fragments and addresses of stores, as rows say them.

use crate::Words;
use crate::values::{fragment_of_words, numbers_of, track_of};
use anyhow::{Result, bail};
use sm_model::{Address, Bytes, Channel, Fragment, Name, Sample, Track};
use std::alloc::Global;

/// Whether a line says a track, or the private data or the numbers of the last one.
pub fn is_of_track(key: &str) -> bool {
    matches!(key, "track" | "private" | "numbers")
}

/// Takes a line of a track: `track`, or `private` or `numbers` of the last one.
pub fn add_to(alloc: Global, tracks: &mut Vec<Track>, key: &str, words: &Words) -> Result<()> {
    if key == "track" {
        tracks.push(track_of(alloc, words)?)?;
        return Ok(());
    }
    let Some(track) = tracks.last_mut() else {
        bail!("no track");
    };
    if key == "private" {
        track.private = Bytes::from_vec(words.bytes(alloc, 0)?);
    } else {
        track.numbers = numbers_of(words)?;
    }
    Ok(())
}

/// The channel of these tracks, valid or not, which are taken out.
pub fn channel(alloc: Global, tracks: &mut Vec<Track>) -> Channel {
    Channel::from_vec(std::mem::replace(tracks, Vec::new(alloc)))
}

/// The address that the words say: stream, bitrate and time.
pub fn address(alloc: Global, words: &Words) -> Result<Address> {
    let Ok(stream) = Name::read(alloc, words.raw(0)?) else {
        bail!("no name");
    };
    Ok(Address {
        stream,
        bitrate: words.short(1)?,
        time: words.number(2)?,
    })
}

/// A fragment, valid or not: its stream, bitrate, time and duration, and the bytes of its one sample, which has a duration of 20,000,000.
pub fn fragment(alloc: Global, words: &Words) -> Result<Fragment> {
    let sample = Sample {
        duration: 20_000_000,
        flags: 0,
        offset: 0,
        bytes: Bytes::from_vec(words.bytes(alloc, 4)?),
    };
    Ok(fragment_of_words(alloc, words, vec![in alloc; sample]?)?)
}
