//! A bare `moov` written.
ghost use Rattle.std.specs.Prelude.{◌≡◌, ◌≤◌, ◌<◌, ◌^◌, ◌+◌, ◌*◌, ◌++◌, length, OnOk, IfOk};
ghost use Rattle.sm_model.specs.MoovText.{zeros, mvhd, tkhd, mdhd, sample_type, entry, stsd, stbl, minf, mdia, bare_trak, bare_traks, bare_trex, bare_trexes};
ghost use Rattle.sm_model.specs.MoovText.{bare_mvex, bare_moov};

use sm_box::{append_head, append_u32};
use sm_model::{Bytes, Channel, Kind, NoMemory, Track};
use std::alloc::Global;

fn append_zeros(out: &mut Vec<u8>, count: usize) -> Result<(), NoMemory>
    requires { count ≤ 100 }
    ensures { OnOk result (out.new.items ≡ out.old.items ++ zeros count) }
{
    let (zeros, _) = [0; 100].split_at(count);
    out.extend_from_slice(zeros)?;
    Ok(())
}

#[tactic(auto, unfolding(sm_model::specs::MoovText::mvhd))]
fn append_mvhd(out: &mut Vec<u8>) -> Result<(), NoMemory>
    ensures { OnOk result (out.new.items ≡ out.old.items ++ mvhd) }
{
    append_head(out, 108, b"mvhd")?;
    append_zeros(out, 100)
}

#[tactic(auto, unfolding(sm_model::specs::MoovText::tkhd))]
fn append_tkhd(out: &mut Vec<u8>, id: u32) -> Result<(), NoMemory>
    ensures { OnOk result (out.new.items ≡ out.old.items ++ tkhd id) }
{
    append_head(out, 92, b"tkhd")?;
    append_u32(out, 7)?;
    append_zeros(out, 8)?;
    append_u32(out, id)?;
    append_zeros(out, 68)
}

#[tactic(auto, unfolding(sm_model::specs::MoovText::mdhd))]
fn append_mdhd(out: &mut Vec<u8>, timescale: u32) -> Result<(), NoMemory>
    ensures { OnOk result (out.new.items ≡ out.old.items ++ mdhd timescale) }
{
    append_head(out, 32, b"mdhd")?;
    append_u32(out, 0)?;
    append_zeros(out, 8)?;
    append_u32(out, timescale)?;
    append_zeros(out, 8)
}

fn sample_type(kind: Kind) -> [u8; 4]
    ensures { result ≡ sample_type kind }
{
    match kind {
        Kind::Video => *b"avc1",
        Kind::Audio => *b"mp4a",
        Kind::Text => *b"text",
    }
}

#[tactic(auto, unfolding(sm_model::specs::MoovText::entry))]
fn append_entry(out: &mut Vec<u8>, kind: Kind) -> Result<(), NoMemory>
    ensures { OnOk result (out.new.items ≡ out.old.items ++ entry kind) }
{
    append_head(out, 16, &sample_type(kind))?;
    append_zeros(out, 6)?;
    out.extend_from_slice(&[0, 1])?;
    Ok(())
}

#[tactic(auto, unfolding(sm_model::specs::MoovText::stsd))]
fn append_stsd(out: &mut Vec<u8>, kind: Kind) -> Result<(), NoMemory>
    ensures { OnOk result (out.new.items ≡ out.old.items ++ stsd kind) }
{
    append_head(out, 32, b"stsd")?;
    append_u32(out, 0)?;
    append_u32(out, 1)?;
    append_entry(out, kind)
}

#[tactic(auto, unfolding(sm_model::specs::MoovText::minf, sm_model::specs::MoovText::stbl))]
fn append_minf(out: &mut Vec<u8>, kind: Kind) -> Result<(), NoMemory>
    ensures { OnOk result (out.new.items ≡ out.old.items ++ minf kind) }
{
    append_head(out, 48, b"minf")?;
    append_head(out, 40, b"stbl")?;
    append_stsd(out, kind)
}

#[tactic(auto, unfolding(sm_model::specs::MoovText::mdia))]
fn append_mdia(out: &mut Vec<u8>, track: &Track) -> Result<(), NoMemory>
    ensures { OnOk result (out.new.items ≡ out.old.items ++ mdia track.now) }
{
    append_head(out, 88, b"mdia")?;
    append_mdhd(out, track.timescale)?;
    append_minf(out, track.kind)
}

#[tactic(auto, unfolding(sm_model::specs::MoovText::bare_trak))]
fn append_trak(out: &mut Vec<u8>, id: u32, track: &Track) -> Result<(), NoMemory>
    ensures { OnOk result (out.new.items ≡ out.old.items ++ bare_trak id track.now) }
{
    append_head(out, 188, b"trak")?;
    append_tkhd(out, id)?;
    append_mdia(out, track)
}

// The tracks with the track_IDs from 1 on.
fn append_traks(out: &mut Vec<u8>, tracks: &[Track]) -> Result<(), NoMemory>
    requires { length tracks.now ≤ 64 }
    ensures { OnOk result (out.new.items ≡ out.old.items ++ bare_traks tracks.now) }
{
    let mut id = 1;
    for track in tracks {
        append_trak(out, id, track)?;
        id += 1;
    }
    Ok(())
}

#[tactic(auto, unfolding(sm_model::specs::MoovText::bare_trex))]
fn append_trex(out: &mut Vec<u8>, id: u32) -> Result<(), NoMemory>
    ensures { OnOk result (out.new.items ≡ out.old.items ++ bare_trex id) }
{
    append_head(out, 32, b"trex")?;
    append_u32(out, 0)?;
    append_u32(out, id)?;
    append_u32(out, 1)?;
    append_zeros(out, 12)
}

// The defaults of these tracks, which are zeros.
fn append_trexes(out: &mut Vec<u8>, tracks: &[Track]) -> Result<(), NoMemory>
    requires { length tracks.now ≤ 64 }
    ensures { OnOk result (out.new.items ≡ out.old.items ++ bare_trexes tracks.now) }
{
    let mut id = 1;
    for _track in tracks {
        append_trex(out, id)?;
        id += 1;
    }
    Ok(())
}

#[tactic(auto, unfolding(sm_model::specs::MoovText::bare_mvex))]
fn append_mvex(out: &mut Vec<u8>, tracks: &[Track]) -> Result<(), NoMemory>
    requires { length tracks.now ≤ 64 }
    ensures { OnOk result (out.new.items ≡ out.old.items ++ bare_mvex tracks.now) }
{
    append_head(out, 8 + 32 * tracks.len() as u32, b"mvex")?;
    append_trexes(out, tracks)
}

/// The bare `moov` of a channel of at most 64 tracks: what a reader of headers wants of them, with their places plus 1 as
/// their track_IDs. It is meant for tests, and nothing can be played by it. It has 124 bytes and 220 for each track.
#[tactic(auto, unfolding(sm_model::specs::MoovText::bare_moov, sm_model::specs::MoovText::moov_body))]
pub fn put_bare_moov(alloc: Global, channel: &Channel) -> Result<Bytes, NoMemory>
    requires few { length channel.now ≤ 64 }
    ensures { IfOk result (λ text. text ≡ bare_moov channel.now) }
{
    let tracks = channel.as_slice();
    let size = 124 + 220 * tracks.len() as u32;
    let mut out = Vec::with_capacity(alloc, size as usize)?;
    append_head(&mut out, size, b"moov")?;
    append_mvhd(&mut out)?;
    append_traks(&mut out, tracks)?;
    append_mvex(&mut out, tracks)?;
    Ok(Bytes::from_vec(out))
}
