//! Streams, and the whole manifest.
ghost use Rattle.std.specs.Prelude.{◌≡◌, ◌+◌, ◌++◌, ◌<◌, [], IfOk, OnOk, if◌then◌else◌};
ghost use Rattle.std.specs.List.{list_any};
ghost use Rattle.sm_model.specs.Same.{is_same};
ghost use Rattle.sm_log.specs.Adds.{listed};
ghost use Rattle.sm_manout.specs.ManifestText.{number_attributes, level_line, level_lines, url, stream_opening, stream_lines, streams_lines, manifest_head, manifest};

use crate::put::{put_attribute, put_escaped, put_number, put_option, put_text};
use crate::times::put_times;
use sm_catalog::Catalog;
use sm_log::count_tracks;
use sm_model::{Bytes, NoMemory, Params, Track, put};
use std::alloc::Global;

#[tactic(auto, unfolding(crate::specs::ManifestText::number_attributes))]
fn put_numbers(alloc: Global, out: &mut Vec<u8>, n: &Params) -> Result<(), NoMemory>
    ensures { OnOk result (out.new.items ≡ out.old.items ++ number_attributes n.now) }
{
    put_option(alloc, out, b"MaxWidth", n.width)?;
    put_option(alloc, out, b"MaxHeight", n.height)?;
    put_option(alloc, out, b"AudioTag", n.tag)?;
    put_option(alloc, out, b"Channels", n.channels)?;
    put_option(alloc, out, b"SamplingRate", n.rate)?;
    put_option(alloc, out, b"BitsPerSample", n.bits)?;
    put_option(alloc, out, b"PacketSize", n.packet)
}

#[tactic(auto, unfolding(crate::specs::ManifestText::level_line))]
fn put_level(alloc: Global, out: &mut Vec<u8>, index: u64, t: &Track) -> Result<(), NoMemory>
    ensures { OnOk result (out.new.items ≡ out.old.items ++ level_line index t.now) }
{
    let private = hex::encode_upper(alloc, t.private.as_slice())?;
    put(out, b"<QualityLevel")?;
    put_number(alloc, out, b"Index", index)?;
    put_number(alloc, out, b"Bitrate", t.bitrate as u64)?;
    put_text(out, b"FourCC", t.fourcc.as_slice())?;
    put_attribute(out, b"CodecPrivateData", private.as_bytes())?;
    put_numbers(alloc, out, &t.numbers)?;
    put(out, b"/>\n")
}

fn put_levels(
    alloc: Global,
    out: &mut Vec<u8>,
    name: &[u8],
    channel: &[Track],
) -> Result<(), NoMemory>
    ensures { OnOk result (out.new.items ≡ out.old.items ++ level_lines 0 name.now channel.now) }
{
    let mut index: u64 = 0;
    for t in channel {
        if t.name.as_bytes() == name {
            put_level(alloc, out, index, t)?;
            index += 1;
        }
    }
    Ok(())
}

#[tactic(auto, unfolding(crate::specs::ManifestText::url))]
fn url_of(alloc: Global, name: &[u8]) -> Result<Vec<u8>, NoMemory>
    ensures { IfOk result (λ v. v.items ≡ url name.now) }
{
    let mut out = Vec::new(alloc);
    put(&mut out, b"QualityLevels({bitrate})/Fragments(")?;
    put_escaped(alloc, &mut out, name)?;
    put(&mut out, b"={start time})")?;
    Ok(out)
}

#[tactic(auto, unfolding(crate::specs::ManifestText::stream_opening))]
fn put_opening(
    alloc: Global,
    out: &mut Vec<u8>,
    t: &Track,
    chunks: usize,
    levels: usize,
) -> Result<(), NoMemory>
    ensures { OnOk result (out.new.items ≡ out.old.items ++ stream_opening t.now chunks levels) }
{
    let url = url_of(alloc, t.name.as_bytes())?;
    put(out, b"<StreamIndex")?;
    put_attribute(out, b"Type", t.kind.name())?;
    put_attribute(out, b"Name", t.name.as_bytes())?;
    put_number(alloc, out, b"TimeScale", t.timescale as u64)?;
    put_number(alloc, out, b"Chunks", chunks as u64)?;
    put_number(alloc, out, b"QualityLevels", levels as u64)?;
    put_attribute(out, b"Url", &url)?;
    put(out, b">\n")
}

#[tactic(auto, unfolding(crate::specs::ManifestText::stream_lines))]
fn put_stream(
    alloc: Global,
    out: &mut Vec<u8>,
    channel: &[Track],
    times: &[(u64, u64)],
    t: &Track,
) -> Result<(), NoMemory>
    ensures { OnOk result (out.new.items ≡ out.old.items ++ stream_lines channel.now times.now t.now) }
{
    let levels = count_tracks(channel, t.name.as_bytes());
    put_opening(alloc, out, t, times.len(), levels)?;
    put_levels(alloc, out, t.name.as_bytes(), channel)?;
    put_times(alloc, out, times)?;
    put(out, b"</StreamIndex>\n")
}

fn is_named(earlier: &[Track], name: &[u8]) -> bool
    ensures { result ≡ list_any (λ u. is_same u.name name.now) earlier.now }
{
    earlier.iter().any(|track| track.name.as_bytes() == name)
}

// The stream of a track, where that is its first: `earlier` are the tracks before it.
fn put_first(
    alloc: Global,
    out: &mut Vec<u8>,
    catalog: &Catalog,
    earlier: &[Track],
    t: &Track,
) -> Result<(), NoMemory>
    ensures { OnOk result (out.new.items ≡ out.old.items ++ (if list_any (λ u. is_same u.name t.now.name) earlier.now then [] else stream_lines catalog.now.channel
        (listed catalog.now.channel catalog.now.adds t.now.name) t.now)) }
{
    if is_named(earlier, t.name.as_bytes()) {
        return Ok(());
    }
    let times = catalog.listed_times(&t.name);
    put_stream(alloc, out, catalog.channel().as_slice(), times, t)
}

fn put_streams(alloc: Global, out: &mut Vec<u8>, catalog: &Catalog) -> Result<(), NoMemory>
    ensures { OnOk result (out.new.items ≡ out.old.items ++ streams_lines catalog.now.channel (listed catalog.now.channel catalog.now.adds) [] catalog.now.channel) }
{
    let channel = catalog.channel().as_slice();
    for i in 0..channel.len() {
        put_first(alloc, out, catalog, &channel[..i], &channel[i])?;
    }
    Ok(())
}

// The first two lines.
fn put_head(out: &mut Vec<u8>) -> Result<(), NoMemory>
    ensures { OnOk result (out.new.items ≡ out.old.items ++ manifest_head) }
{
    put(out, b"<?xml version=\"1.0\" encoding=\"utf-8\"?>\n")?;
    put(
        out,
        b"<SmoothStreamingMedia MajorVersion=\"2\" MinorVersion=\"2\" TimeScale=\"10000000\"",
    )?;
    put(
        out,
        b" Duration=\"0\" IsLive=\"TRUE\" LookAheadFragmentCount=\"2\" DVRWindowLength=\"0\">\n",
    )
}

/// The manifest of a catalog ([MS-SSTR] 2.2.2): its streams in the order in which each name first stands in the channel, each
/// with its qualities and with one line for each run of its listed times.
#[tactic(auto, unfolding(crate::specs::ManifestText::manifest))]
pub fn put_manifest(alloc: Global, catalog: &Catalog) -> Result<Bytes, NoMemory>
    ensures { IfOk result (λ text. text ≡ manifest catalog.now.channel (listed catalog.now.channel catalog.now.adds)) }
{
    let mut out = Vec::new(alloc);
    put_head(&mut out)?;
    put_streams(alloc, &mut out, catalog)?;
    put(&mut out, b"</SmoothStreamingMedia>\n")?;
    Ok(Bytes::from_vec(out))
}
