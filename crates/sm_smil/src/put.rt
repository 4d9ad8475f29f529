//! The live manifest of a channel, written.
ghost use Rattle.std.specs.Prelude.{◌≡◌, ◌≤◌, ◌++◌, [], length, OnOk, IfOk, codes};
ghost use Rattle.std.specs.Fmt.{decimal};
ghost use Rattle.sm_model.specs.Channels.{IsChannel};
ghost use Rattle.sm_smil.specs.LiveText.{element_name, param_line, number_line, option_line, number_lines, opening_line, closing_line, track_lines, tracks_lines};
ghost use Rattle.sm_smil.specs.LiveText.{live_text};

use sm_model::{Bytes, Channel, Kind, NoMemory, Params, Track};
use std::alloc::Global;

fn append(out: &mut Vec<u8>, piece: &[u8]) -> Result<(), NoMemory>
    ensures { OnOk result (out.new.items ≡ out.old.items ++ piece.now) }
{
    out.extend_from_slice(piece)?;
    Ok(())
}

fn append_two(out: &mut Vec<u8>, first: &[u8], second: &[u8]) -> Result<(), NoMemory>
    ensures { OnOk result (out.new.items ≡ out.old.items ++ (first.now ++ second.now)) }
{
    append(out, first)?;
    append(out, second)
}

#[tactic(auto, unfolding(crate::specs::LiveText::param_line))]
fn append_param(out: &mut Vec<u8>, name: &[u8], value: &[u8]) -> Result<(), NoMemory>
    ensures { OnOk result (out.new.items ≡ out.old.items ++ param_line name.now value.now) }
{
    append_two(out, b"<param name=\"", name)?;
    append_two(out, b"\" value=\"", value)?;
    append(out, b"\" valuetype=\"data\"/>\n")
}

fn append_number(alloc: Global, out: &mut Vec<u8>, name: &[u8], value: u32) -> Result<(), NoMemory>
    ensures { OnOk result (out.new.items ≡ out.old.items ++ number_line name.now value) }
{
    let text = format!(in alloc; "{value}")?;
    append_param(out, name, text.as_bytes())
}

fn append_option(
    alloc: Global,
    out: &mut Vec<u8>,
    name: &[u8],
    value: Option<u32>,
) -> Result<(), NoMemory>
    ensures { OnOk result (out.new.items ≡ out.old.items ++ option_line name.now value) }
{
    match value {
        None => Ok(()),
        Some(value) => append_number(alloc, out, name, value),
    }
}

#[tactic(auto, unfolding(crate::specs::LiveText::number_lines))]
fn append_numbers(alloc: Global, out: &mut Vec<u8>, n: &Params) -> Result<(), NoMemory>
    ensures { OnOk result (out.new.items ≡ out.old.items ++ number_lines n.now) }
{
    append_option(alloc, out, b"MaxWidth", n.width)?;
    append_option(alloc, out, b"MaxHeight", n.height)?;
    append_option(alloc, out, b"AudioTag", n.tag)?;
    append_option(alloc, out, b"Channels", n.channels)?;
    append_option(alloc, out, b"SamplingRate", n.rate)?;
    append_option(alloc, out, b"BitsPerSample", n.bits)?;
    append_option(alloc, out, b"PacketSize", n.packet)
}

fn element_name(kind: Kind) -> &'static [u8]
    ensures { result.now ≡ element_name kind }
{
    match kind {
        Kind::Video => b"video",
        Kind::Audio => b"audio",
        Kind::Text => b"textstream",
    }
}

#[tactic(auto, unfolding(crate::specs::LiveText::opening_line))]
fn append_opening(
    alloc: Global,
    out: &mut Vec<u8>,
    kind: Kind,
    bitrate: u32,
) -> Result<(), NoMemory>
    ensures { OnOk result (out.new.items ≡ out.old.items ++ opening_line kind bitrate) }
{
    let text = format!(in alloc; "{bitrate}")?;
    append_two(out, b"<", element_name(kind))?;
    append_two(out, b" src=\"Streams\" systemBitrate=\"", text.as_bytes())?;
    append(out, b"\">\n")
}

#[tactic(auto, unfolding(crate::specs::LiveText::closing_line))]
fn append_closing(out: &mut Vec<u8>, kind: Kind) -> Result<(), NoMemory>
    ensures { OnOk result (out.new.items ≡ out.old.items ++ closing_line kind) }
{
    append(out, b"</")?;
    append(out, element_name(kind))?;
    append(out, b">\n")
}

#[tactic(auto, unfolding(crate::specs::LiveText::track_lines))]
fn append_track(alloc: Global, out: &mut Vec<u8>, id: u32, t: &Track) -> Result<(), NoMemory>
    ensures { OnOk result (out.new.items ≡ out.old.items ++ track_lines id t.now) }
{
    let private = hex::encode_upper(alloc, t.private.as_slice())?;
    append_opening(alloc, out, t.kind, t.bitrate)?;
    append_number(alloc, out, b"trackID", id)?;
    append_param(out, b"trackName", t.name.as_bytes())?;
    append_number(alloc, out, b"TimeScale", t.timescale)?;
    append_param(out, b"FourCC", t.fourcc.as_slice())?;
    append_param(out, b"CodecPrivateData", private.as_bytes())?;
    append_numbers(alloc, out, &t.numbers)?;
    append_closing(out, t.kind)
}

fn append_tracks(alloc: Global, out: &mut Vec<u8>, tracks: &[Track]) -> Result<(), NoMemory>
    requires { length tracks.now ≤ 64 }
    ensures { OnOk result (out.new.items ≡ out.old.items ++ tracks_lines 1 tracks.now) }
{
    let mut id: u32 = 1;
    for t in tracks {
        append_track(alloc, out, id, t)?;
        id += 1;
    }
    Ok(())
}

/// The live manifest of a channel, which is a ladder too: its tracks in order, each with its place plus 1 as its track_ID.
#[tactic(auto, unfolding(crate::specs::LiveText::live_text))]
pub fn put_live_manifest(alloc: Global, channel: &Channel) -> Result<Bytes, NoMemory>
    requires { IsChannel channel.now }
    ensures { IfOk result (λ text. text ≡ live_text channel.now) }
{
    let mut out = Vec::new(alloc);
    append(
        &mut out,
        b"<?xml version=\"1.0\" encoding=\"utf-8\"?>\n<smil xmlns=\"http://www.w3.org/2001/SMIL20/Language\">\n<head/>\n<body>\n<switch>\n",
    )?;
    append_tracks(alloc, &mut out, channel.as_slice())?;
    append(&mut out, b"</switch>\n</body>\n</smil>\n")?;
    Ok(Bytes::from_vec(out))
}
