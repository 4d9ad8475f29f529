//! The tracks that a live manifest names.
ghost use Rattle.std.specs.Prelude.{◌≡◌, IfOk, All, map, true, Some};
ghost use Rattle.sm_model.specs.Names.{is_name};
ghost use Rattle.sm_smil.specs.LiveTracks.{value_of, is_private, bytes_in, numbers_of, track_of, smil_track, ladder_track};
ghost use Rattle.sm_smil.specs.Answers.{AreFit};

use crate::judge::{bitrate_of, name_of, number_at, timescale_of};
use crate::names::value_of;
use crate::raw_track::{ParamName, RawTrack};
use hex::FromHexError;
use sm_model::{Bytes, Name, NameFault, NoMemory, Params, SmilTrack, Track};
use std::alloc::Global;

fn read_name(alloc: Global, name: &[u8]) -> Result<Name, NoMemory>
    requires { is_name name.now ≡ true }
    ensures { IfOk result (λ n. n ≡ name.now) }
{
    match Name::read(alloc, name) {
        Ok(name) => Ok(name),
        Err(NameFault::NoMemory) => Err(NoMemory),
        Err(NameFault::Form { .. }) => unreachable!(),
    }
}

fn read_digits(alloc: Global, digits: &[u8]) -> Result<Bytes, NoMemory>
    requires { is_private digits.now ≡ true }
    ensures { IfOk result (λ bytes. bytes ≡ bytes_in (Some digits.now)) }
{
    match hex::decode(alloc, digits) {
        Ok(bytes) => Ok(Bytes::from_vec(bytes)),
        Err(fault) => match fault {
            FromHexError::OutOfMemory => Err(NoMemory),
            _ => unreachable!(),
        },
    }
}

fn private_of(alloc: Global, raw: &RawTrack) -> Result<Bytes, NoMemory>
    requires { AreFit raw.now.params }
    ensures { IfOk result (λ bytes. bytes ≡ bytes_in (value_of ParamName.CodecPrivateData raw.now.params)) }
{
    match value_of(ParamName::CodecPrivateData, raw.params.as_slice()) {
        None => Bytes::from_slice(alloc, b""),
        Some(digits) => read_digits(alloc, digits),
    }
}

#[tactic(auto, unfolding(crate::specs::LiveTracks::numbers_of))]
fn numbers_of(raw: &RawTrack) -> Params
    ensures { result ≡ numbers_of raw.now }
{
    Params {
        width: number_at(ParamName::MaxWidth, raw),
        height: number_at(ParamName::MaxHeight, raw),
        tag: number_at(ParamName::AudioTag, raw),
        channels: number_at(ParamName::Channels, raw),
        rate: number_at(ParamName::SamplingRate, raw),
        bits: number_at(ParamName::BitsPerSample, raw),
        packet: number_at(ParamName::PacketSize, raw),
    }
}

#[tactic(auto, unfolding(crate::specs::LiveTracks::track_of))]
fn track_of(alloc: Global, timescale: u32, raw: &RawTrack) -> Result<Track, NoMemory>
    requires { AreFit raw.now.params }
    ensures { IfOk result (λ t. t ≡ track_of timescale raw.now) }
{
    let fourcc = value_of(ParamName::FourCc, raw.params.as_slice()).unwrap_or(b"");
    Ok(Track {
        kind: raw.kind,
        name: read_name(alloc, name_of(raw))?,
        bitrate: bitrate_of(raw).unwrap_or(0),
        timescale,
        fourcc: Bytes::from_slice(alloc, fourcc)?,
        private: private_of(alloc, raw)?,
        numbers: numbers_of(raw),
    })
}

/// The tracks of a pushed header.
pub fn smil_tracks(alloc: Global, done: &[RawTrack]) -> Result<Vec<SmilTrack>, NoMemory>
    requires { All (λ t. AreFit t.params) done.now }
    ensures { IfOk result (λ v. v.items ≡ map smil_track done.now) }
{
    let mut tracks = Vec::new(alloc);
    for raw in done {
        let id = number_at(ParamName::TrackId, raw).unwrap_or(0);
        let track = track_of(alloc, 0, raw)?;
        tracks.push(SmilTrack { id, track })?;
    }
    Ok(tracks)
}

/// The tracks of a ladder.
pub fn ladder_tracks(alloc: Global, done: &[RawTrack]) -> Result<Vec<Track>, NoMemory>
    requires { All (λ t. AreFit t.params) done.now }
    ensures { IfOk result (λ v. v.items ≡ map ladder_track done.now) }
{
    let mut tracks = Vec::new(alloc);
    for raw in done {
        let timescale = timescale_of(raw).unwrap_or(0);
        tracks.push(track_of(alloc, timescale, raw)?)?;
    }
    Ok(tracks)
}
