//! Channels and fragments that a row says in lines of their own, and how they are told.
//!
//!     track video "video" 350000 10000000 "H264"
//!     private hex 000000016742
//!     numbers 640 360 - - - - -
//!     fragment "video" 350000 0 20000000 unsigned
//!     sample 20000000 0 0 hex 41
//!
//! A track has its kind, name, bitrate, timescale and FourCC; the private data and the numbers, where there are any, follow
//! it. A fragment has its stream, bitrate, time and duration, and a sample its duration, flags, offset and bytes.
use crate::{Case, RowFault, Words, hex};
use sm_model::{Bytes, Channel, Fragment, Kind, Name, Params, Sample, Samples, Track};
use std::alloc::Global;

// The name at a place.
fn name_at(alloc: Global, words: &Words, at: usize) -> Result<Name, RowFault> {
    match Name::read(alloc, words.raw(at)?) {
        Ok(name) => Ok(name),
        Err(_) => Err(words.fault("a name is none")),
    }
}

/// The numbers of a track that these words say, each a number or `-`.
pub fn numbers_of(words: &Words) -> Result<Params, RowFault> {
    Ok(Params {
        width: words.optional(0)?,
        height: words.optional(1)?,
        tag: words.optional(2)?,
        channels: words.optional(3)?,
        rate: words.optional(4)?,
        bits: words.optional(5)?,
        packet: words.optional(6)?,
    })
}

fn kind_at(words: &Words, at: usize) -> Result<Kind, RowFault> {
    match words.text(at)? {
        "video" => Ok(Kind::Video),
        "audio" => Ok(Kind::Audio),
        "text" => Ok(Kind::Text),
        _ => Err(words.fault("a kind is none")),
    }
}

/// The track that these words say, without private data and numbers.
pub fn track_of(alloc: Global, words: &Words) -> Result<Track, RowFault> {
    Ok(Track {
        kind: kind_at(words, 0)?,
        name: name_at(alloc, words, 1)?,
        bitrate: words.short(2)?,
        timescale: words.short(3)?,
        fourcc: Bytes::from_slice(alloc, words.raw(4)?)?,
        private: Bytes::from_vec(Vec::new(alloc)),
        numbers: Params {
            width: None,
            height: None,
            tag: None,
            channels: None,
            rate: None,
            bits: None,
            packet: None,
        },
    })
}

/// The channel of all tracks of a row.
pub fn channel_of(alloc: Global, case: &Case<'_>) -> Result<Channel, RowFault> {
    let mut tracks: Vec<Track> = Vec::new(alloc);
    for line in case.lines() {
        let key = line.key();
        if key == "track" {
            tracks.push(track_of(alloc, &case.words(alloc, line)?)?)?;
        } else if key == "private" || key == "numbers" {
            let words = case.words(alloc, line)?;
            let Some(track) = tracks.last_mut() else {
                return Err(line.fault("there is no track"));
            };
            if key == "private" {
                track.private = Bytes::from_vec(words.bytes(alloc, 0)?);
            } else {
                track.numbers = numbers_of(&words)?;
            }
        }
    }
    Ok(Channel::from_vec(tracks))
}

/// The sample that these words say.
pub fn sample_of(alloc: Global, words: &Words) -> Result<Sample, RowFault> {
    Ok(Sample {
        duration: words.short(0)?,
        flags: words.short(1)?,
        offset: words.short(2)?,
        bytes: Bytes::from_vec(words.bytes(alloc, 3)?),
    })
}

/// The fragment that these words say, with these samples.
pub fn fragment_of_words(
    alloc: Global,
    words: &Words,
    samples: Vec<Sample>,
) -> Result<Fragment, RowFault> {
    Ok(Fragment {
        stream: name_at(alloc, words, 0)?,
        bitrate: words.short(1)?,
        time: words.number(2)?,
        duration: words.number(3)?,
        signed: words.text(4)? == "signed",
        samples: Samples::from_vec(samples),
    })
}

/// The fragment of a row: its line `fragment` with all its lines `sample`.
pub fn fragment_of(alloc: Global, case: &Case<'_>) -> Result<Fragment, RowFault> {
    let mut samples = Vec::new(alloc);
    for line in case.lines() {
        if line.key() == "sample" {
            samples.push(sample_of(alloc, &case.words(alloc, line)?)?)?;
        }
    }
    fragment_of_words(alloc, &case.words_of(alloc, "fragment")?, samples)
}

// Tells a number or its absence.
fn tell_number(alloc: Global, number: Option<u32>) -> Result<String, RowFault> {
    match number {
        Some(number) => Ok(format!(in alloc; " {number}")?),
        None => Ok(String::from_str(alloc, " -")?),
    }
}

fn tell_numbers(alloc: Global, numbers: &Params) -> Result<String, RowFault> {
    let all = [
        numbers.width,
        numbers.height,
        numbers.tag,
        numbers.channels,
        numbers.rate,
        numbers.bits,
        numbers.packet,
    ];
    let mut text = String::new(alloc);
    for number in all {
        text.push_str(tell_number(alloc, number)?.as_str())?;
    }
    Ok(text)
}

/// The word for a kind.
pub fn kind_word(kind: Kind) -> &'static str {
    match kind {
        Kind::Video => "video",
        Kind::Audio => "audio",
        Kind::Text => "text",
    }
}

/// Tells a track in a line: kind, name, bitrate, timescale, FourCC in brackets, private data in digits in brackets, and its
/// numbers in the order of `Params`, each as `-` where it is absent.
pub fn tell_track(alloc: Global, track: &Track) -> Result<String, RowFault> {
    let kind = kind_word(track.kind);
    let name = track.name.as_str();
    let bitrate = track.bitrate;
    let timescale = track.timescale;
    let fourcc = str::from_utf8(track.fourcc.as_slice()).unwrap_or("no text");
    let private = hex(alloc, track.private.as_slice())?;
    let numbers = tell_numbers(alloc, &track.numbers)?;
    Ok(format!(in alloc;
        "track {kind} {name} {bitrate} {timescale} [{fourcc}] [{private}]{numbers}\n"
    )?)
}

/// Tells a line for each track.
pub fn tell_channel(alloc: Global, channel: &Channel) -> Result<String, RowFault> {
    let mut text = String::new(alloc);
    for track in channel.as_slice() {
        text.push_str(tell_track(alloc, track)?.as_str())?;
    }
    Ok(text)
}

/// Tells a line for each sample: duration, flags, offset, and its bytes in digits.
pub fn tell_samples(alloc: Global, samples: &Samples) -> Result<String, RowFault> {
    let mut text = String::new(alloc);
    for sample in samples.as_slice() {
        let duration = sample.duration;
        let flags = sample.flags;
        let offset = sample.offset;
        let bytes = hex(alloc, sample.bytes.as_slice())?;
        let line = format!(in alloc; "sample {duration} {flags} {offset} [{bytes}]\n")?;
        text.push_str(line.as_str())?;
    }
    Ok(text)
}

/// Tells a fragment: a line with stream, bitrate, time, duration and whether its offsets are signed, and its samples.
pub fn tell_fragment(alloc: Global, fragment: &Fragment) -> Result<String, RowFault> {
    let stream = fragment.stream.as_str();
    let bitrate = fragment.bitrate;
    let time = fragment.time;
    let duration = fragment.duration;
    let signed = if fragment.signed {
        "signed"
    } else {
        "unsigned"
    };
    let samples = tell_samples(alloc, &fragment.samples)?;
    Ok(format!(in alloc; "fragment {stream} {bitrate} {time} {duration} {signed}\n{samples}")?)
}
