//! The header that the encoders of a rehearsal push.
ghost use Rattle.std.specs.Prelude.{◌≡◌, IfOk};
ghost use Rattle.sm_world.specs.Encoders.{audio, channel, video};
ghost use Rattle.sm_world.specs.Header.{header_text};

use sm_box::put_box;
use sm_model::{Bytes, Channel, Kind, Name, NameFault, NoMemory, Params, Track};
use sm_moov::put_bare_moov;
use std::alloc::Global;

// The user type of the live server manifest box ([MS-SSTR] 2.2.7), its version and its flags.
const MANIFEST: &[u8] = b"\xa5\xd4\x0b\x30\xe8\x14\x11\xdd\xba\x2f\x08\x00\x20\x0c\x9a\x66\0\0\0\0";

const FTYP: &[u8] = b"\0\0\0\x14ftypisml\0\0\0\x01isml";

// The live server manifest of three tracks, as an encoder writes it.
const TEXT: &[u8] = br#"<?xml version="1.0" encoding="utf-8"?>
<smil xmlns="http://www.w3.org/2001/SMIL20/Language">
  <head>
    <meta name="creator" content="encoder" />
  </head>
  <body>
    <switch>
      <video src="Streams" systemBitrate="350000">
        <param name="trackID" value="1" valuetype="data" />
        <param name="FourCC" value="H264" valuetype="data" />
        <param name="CodecPrivateData" value="000000016742" valuetype="data" />
        <param name="MaxWidth" value="640" valuetype="data" />
        <param name="MaxHeight" value="360" valuetype="data" />
      </video>
      <video src="Streams" systemBitrate="700000">
        <param name="trackID" value="2" valuetype="data" />
        <param name="FourCC" value="H264" valuetype="data" />
        <param name="CodecPrivateData" value="000000016742" valuetype="data" />
        <param name="MaxWidth" value="1280" valuetype="data" />
        <param name="MaxHeight" value="720" valuetype="data" />
      </video>
      <audio src="Streams" systemBitrate="64000">
        <param name="trackID" value="3" valuetype="data" />
        <param name="FourCC" value="AACL" valuetype="data" />
        <param name="CodecPrivateData" value="1210" valuetype="data" />
        <param name="AudioTag" value="255" valuetype="data" />
        <param name="Channels" value="2" valuetype="data" />
        <param name="SamplingRate" value="44100" valuetype="data" />
        <param name="BitsPerSample" value="16" valuetype="data" />
        <param name="PacketSize" value="4" valuetype="data" />
      </audio>
    </switch>
  </body>
</smil>
"#;

// A name of these bytes, which are one.
pub(crate) fn name(alloc: Global, bytes: &[u8]) -> Result<Name, NoMemory>
    ensures { IfOk result (λ name. name ≡ bytes.now) }
{
    match Name::read(alloc, bytes) {
        Ok(name) => Ok(name),
        // the first never comes
        Err(NameFault::Form { .. } | NameFault::NoMemory) => Err(NoMemory),
    }
}

fn video(alloc: Global, bitrate: u32, width: u32, height: u32) -> Result<Track, NoMemory>
    ensures { IfOk result (λ track. track ≡ video bitrate width height) }
{
    Ok(Track {
        kind: Kind::Video,
        name: name(alloc, b"video")?,
        bitrate,
        timescale: 10_000_000,
        fourcc: Bytes::from_slice(alloc, b"H264")?,
        private: Bytes::from_slice(alloc, b"\0\0\0\x01\x67\x42")?,
        numbers: Params {
            width: Some(width),
            height: Some(height),
            tag: None,
            channels: None,
            rate: None,
            bits: None,
            packet: None,
        },
    })
}

fn audio(alloc: Global) -> Result<Track, NoMemory>
    ensures { IfOk result (λ track. track ≡ audio) }
{
    Ok(Track {
        kind: Kind::Audio,
        name: name(alloc, b"audio")?,
        bitrate: 64_000,
        timescale: 10_000_000,
        fourcc: Bytes::from_slice(alloc, b"AACL")?,
        private: Bytes::from_slice(alloc, b"\x12\x10")?,
        numbers: Params {
            width: None,
            height: None,
            tag: Some(255),
            channels: Some(2),
            rate: Some(44_100),
            bits: Some(16),
            packet: Some(4),
        },
    })
}

// The channel that both encoders push: two qualities of pictures, and sound.
pub(crate) fn channel(alloc: Global) -> Result<Channel, NoMemory>
    ensures { IfOk result (λ c. c ≡ channel) }
{
    let mut tracks = Vec::with_capacity(alloc, 3)?;
    tracks.push(video(alloc, 350_000, 640, 360)?)?;
    tracks.push(video(alloc, 700_000, 1280, 720)?)?;
    tracks.push(audio(alloc)?)?;
    Ok(Channel::from_vec(tracks))
}

// The header of a push of this channel.
pub(crate) fn header(alloc: Global) -> Result<Bytes, NoMemory>
    ensures { IfOk result (λ h. h ≡ header_text) }
{
    let mut manifest = Vec::with_capacity(alloc, MANIFEST.len() + TEXT.len())?;
    manifest.extend_from_slice(MANIFEST)?;
    manifest.extend_from_slice(TEXT)?;
    let manifest = put_box(alloc, *b"uuid", &manifest)?;
    let moov = put_bare_moov(alloc, &channel(alloc)?)?;
    let mut out = Vec::new(alloc);
    out.extend_from_slice(FTYP)?;
    out.extend_from_slice(manifest.as_slice())?;
    out.extend_from_slice(moov.as_slice())?;
    Ok(Bytes::from_vec(out))
}
