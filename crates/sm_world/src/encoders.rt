//! What the encoders of a rehearsal push.
ghost use Rattle.std.specs.Prelude.{◌≡◌, ◌<◌, ◌≤◌, ◌^◌, ◌++◌, [], IfOk, OnOk};
ghost use Rattle.sm_model.specs.FragText.{frag_text};
ghost use Rattle.sm_model.specs.Fragments.{IsValid};
ghost use Rattle.sm_world.specs.Deeds.{body_of_a, body_of_b};
ghost use Rattle.sm_world.specs.Encoders.{bitrate_of, fragment_of, name_of, of_encoder_a};

use crate::header::name;
use sm_model::{Bytes, Fragment, NoMemory, Sample, Samples};
use sm_moof::put_fragment;
use std::alloc::Global;

// How long a fragment of encoder A is, and how far apart they are, in ticks of ten million a second.
pub(crate) const LENGTH: u64 = 20_000_000;

fn name_of(id: u32) -> &'static [u8]
    ensures { result.now ≡ name_of id }
{
    if id == 3 { b"audio" } else { b"video" }
}

fn bitrate_of(id: u32) -> u32
    ensures { result ≡ bitrate_of id }
{
    match id {
        1 => 350_000,
        2 => 700_000,
        _ => 64_000,
    }
}

// A fragment of the track with this track_ID, with one sample of these bytes.
fn fragment_of(
    alloc: Global,
    id: u32,
    time: u64,
    duration: u64,
    bytes: Vec<u8>,
) -> Result<Fragment, NoMemory>
    ensures { IfOk result (λ f. f ≡ fragment_of id time duration bytes.items) }
{
    let sample = Sample {
        duration: 20_000_000,
        flags: 0,
        offset: 0,
        bytes: Bytes::from_vec(bytes),
    };
    Ok(Fragment {
        stream: name(alloc, name_of(id))?,
        bitrate: bitrate_of(id),
        time,
        duration,
        signed: false,
        samples: Samples::from_vec(vec![in alloc; sample]?),
    })
}

// The fragment that encoder A pushes in round `i`, from 0, for the track with this track_ID.
pub(crate) fn of_encoder_a(alloc: Global, i: u64, id: u32) -> Result<Fragment, NoMemory>
    requires early { i < 2 ^ 32 }
    requires low { id < 4 }
    ensures { IfOk result (λ f. (f ≡ of_encoder_a i id) × IsValid f) }
{
    let byte = ((i + id as u64) % 256) as u8;
    let bytes = vec![in alloc; byte; 1 + (i % 64) as usize]?;
    fragment_of(alloc, id, LENGTH * i, LENGTH, bytes)
}

fn add(alloc: Global, body: &mut Vec<u8>, id: u32, fragment: &Fragment) -> Result<(), NoMemory>
    requires valid { IsValid fragment.now }
    ensures { OnOk result (body.new.items ≡ body.old.items ++ frag_text 1 id fragment.now []) }
{
    let text = put_fragment(alloc, 1, id, fragment, &[])?;
    body.extend_from_slice(text.as_slice())?;
    Ok(())
}

// The push of encoder A in round `i`, from 0: the header, and a fragment of each track.
pub(crate) fn push_of_a(alloc: Global, header: &[u8], i: u64) -> Result<Vec<u8>, NoMemory>
    requires early { i < 2 ^ 32 }
    ensures { IfOk result (λ body. body.items ≡ body_of_a header.now i) }
{
    let mut body = header.to_vec(alloc)?;
    add(alloc, &mut body, 1, &of_encoder_a(alloc, i, 1)?)?;
    add(alloc, &mut body, 2, &of_encoder_a(alloc, i, 2)?)?;
    add(alloc, &mut body, 3, &of_encoder_a(alloc, i, 3)?)?;
    Ok(body)
}

// A push of encoder B: the header, and a fragment of track 1 whose one sample is the byte 0.
pub(crate) fn push_of_b(
    alloc: Global,
    header: &[u8],
    time: u64,
    duration: u64,
) -> Result<Vec<u8>, NoMemory>
    requires early { time < 2 ^ 62 }
    requires some { 1 ≤ duration }
    requires short { duration < 2 ^ 62 }
    ensures { IfOk result (λ body. body.items ≡ body_of_b header.now time duration) }
{
    let mut body = header.to_vec(alloc)?;
    let fragment = fragment_of(alloc, 1, time, duration, vec![in alloc; 0; 1]?)?;
    add(alloc, &mut body, 1, &fragment)?;
    Ok(body)
}
