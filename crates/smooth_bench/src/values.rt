//! A channel of three tracks, and fragments of each.
ghost use Rattle.std.specs.Prelude.{IfOk};
ghost use Rattle.sm_model.specs.Channels.{IsChannel};
ghost use Rattle.sm_model.specs.Fragments.{IsValid};

use anyhow::{Result, ensure};
use sm_model::{
    Address, Bytes, Channel, Fragment, Kind, Name, Params, Part, Sample, Samples, Track,
};
use std::alloc::Global;

/// How long a fragment lasts, in ticks.
pub const DURATION: u32 = 20_000_000;

/// The three tracks: their streams and bitrates.
pub const TRACKS: [(&str, u32); 3] = [("video", 350_000), ("video", 700_000), ("audio", 64_000)];

fn track(alloc: Global, stream: &str, bitrate: u32) -> Result<Track> {
    Ok(Track {
        kind: if stream == "audio" {
            Kind::Audio
        } else {
            Kind::Video
        },
        name: Name::read(alloc, stream.as_bytes())?,
        bitrate,
        timescale: 10_000_000,
        fourcc: Bytes::from_slice(alloc, b"H264")?,
        private: Bytes::from_slice(alloc, b"")?,
        numbers: Params {
            width: None,
            height: None,
            tag: None,
            channels: None,
            rate: None,
            bits: None,
            packet: None,
        },
    })
}

pub fn channel(alloc: Global) -> Result<Channel>
    ensures { IfOk result IsChannel }
{
    let mut tracks = Vec::new(alloc);
    for (stream, bitrate) in TRACKS {
        tracks.push(track(alloc, stream, bitrate)?)?;
    }
    let channel = Channel::from_vec(tracks);
    ensure!(channel.is_valid(), "no channel");
    Ok(channel)
}

/// The address that is asked for: that of the first track at the third last of so many times, behind which two are told.
pub fn asked(alloc: Global, times: u32) -> Result<Address> {
    Ok(Address {
        stream: Name::read(alloc, b"video")?,
        bitrate: 350_000,
        time: start_of(times.saturating_sub(3), 0),
    })
}

/// Samples of so many bytes, in a block that fragments may share.
pub fn block(alloc: Global, size: u32) -> Result<Part> {
    ensure!(size <= 67_108_864, "at most 67,108,864 bytes");
    Ok(Part::from_vec(alloc, vec![in alloc; 7; size as usize]?)?)
}

/// A fragment whose one sample has these bytes: the block itself, or a copy of it.
pub fn fragment(
    alloc: Global,
    at: (&str, u32),
    time: u64,
    bytes: &Part,
    is_shared: bool,
) -> Result<Fragment>
    ensures { IfOk result IsValid }
{
    let bytes = if is_shared {
        Bytes::from_part(bytes.again()?)
    } else {
        Bytes::from_slice(alloc, bytes.as_slice())?
    };
    let sample = Sample {
        duration: DURATION,
        flags: 0,
        offset: 0,
        bytes,
    };
    let fragment = Fragment {
        stream: Name::read(alloc, at.0.as_bytes())?,
        bitrate: at.1,
        time,
        duration: DURATION as u64,
        signed: false,
        samples: Samples::from_vec(vec![in alloc; sample]?),
    };
    ensure!(fragment.is_valid(), "no fragment");
    Ok(fragment)
}

/// The start of a time, where so many ticks lie between two.
pub fn start_of(place: u32, gap: u32) -> u64 {
    (DURATION as u64 + gap as u64).saturating_mul(place as u64)
}
