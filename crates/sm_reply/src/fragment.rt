//! A kept fragment, given.
ghost use Rattle.std.specs.Prelude.{◌≡◌, ◌≤◌, ◌<◌, ◌^◌, false, length, Some, IfOk};
ghost use Rattle.std.specs.List.{flat_map};
ghost use Rattle.sm_model.specs.Channels.{IsChannel};
ghost use Rattle.sm_model.specs.Fragments.{IsValid};
ghost use Rattle.sm_model.specs.FragText.{frag_text};
ghost use Rattle.sm_head.specs.declared.reply.Content.TheVariants.{Mp4};
ghost use Rattle.sm_head.specs.Replies.{reply_text};
ghost use Rattle.sm_reply.specs.Replies.{ok};
ghost use Rattle.sm_log.specs.Adds.{id_in};

use crate::reply::{Counted, Reply};
use sm_catalog::track_place;
use sm_head::{Content, begin_front, begin_response};
use sm_model::{Address, Bytes, Channel, Fragment, NoMemory, Part, Text, Track};
use sm_moof::{append_fragment, append_fragment_head, fragment_len};
use std::alloc::Global;

// The track_ID under which a stream and bitrate is served: the place of its track in the channel, from 1.
fn id_in(channel: &[Track], address: &Address) -> u32
    requires { length channel.now ≤ 64 }
    ensures { result ≡ id_in channel.now address.now }
{
    match track_place(channel, address.stream.as_bytes(), address.bitrate) {
        None => 0,
        Some(place) => place as u32 + 1,
    }
}

// The reply's text where the samples lie in one block: head and `moof` are written, and the samples are shared.
fn shared_text(
    alloc: Global,
    seq: u32,
    id: u32,
    fragment: &Fragment,
    ahead: &[(u64, u64)],
    samples: Part,
) -> Result<Text, NoMemory>
    requires valid { IsValid fragment.now }
    requires few { length ahead.now ≤ 255 }
    requires samples { samples ≡ flat_map (λ s. s.bytes) fragment.now.samples }
    ensures { IfOk result (λ text. text ≡ reply_text 200 Mp4 (frag_text seq id fragment.now ahead.now) false) }
{
    let count = fragment_len(fragment, ahead) as usize;
    let room = count.saturating_sub(samples.len() as usize);
    let mut head = begin_front(alloc, 200, Content::Mp4, count, room, false)?;
    append_fragment_head(&mut head, seq, id, fragment, ahead)?;
    Ok(Text::new(Bytes::from_vec(head), Bytes::from_part(samples)))
}

// The reply's text where they do not: all of it is written, at once behind the head.
fn whole_text(
    alloc: Global,
    seq: u32,
    id: u32,
    fragment: &Fragment,
    ahead: &[(u64, u64)],
) -> Result<Text, NoMemory>
    requires valid { IsValid fragment.now }
    requires few { length ahead.now ≤ 255 }
    ensures { IfOk result (λ text. text ≡ reply_text 200 Mp4 (frag_text seq id fragment.now ahead.now) false) }
{
    let count = fragment_len(fragment, ahead) as usize;
    let mut bytes = begin_response(alloc, 200, Content::Mp4, count, false)?;
    append_fragment(&mut bytes, seq, id, fragment, ahead)?;
    Ok(Text::whole(alloc, Bytes::from_vec(bytes)))
}

// The text of the reply that gives the canonical text with these times ahead.
fn give_text(
    alloc: Global,
    seq: u32,
    id: u32,
    fragment: &Fragment,
    ahead: &[(u64, u64)],
) -> Result<Text, NoMemory>
    requires valid { IsValid fragment.now }
    requires few { length ahead.now ≤ 255 }
    ensures { IfOk result (λ text. text ≡ reply_text 200 Mp4 (frag_text seq id fragment.now ahead.now) false) }
{
    match fragment.samples.block()? {
        Some(samples) => shared_text(alloc, seq, id, fragment, ahead, samples),
        None => whole_text(alloc, seq, id, fragment, ahead),
    }
}

/// The reply that gives a fragment which is kept at an address of a channel: its canonical text (ISO/IEC 14496-12, 8.8;
/// [MS-SSTR] 2.2.4.4), whose sequence number is its place in the log, counted from 0, and whose track_ID is the place of the
/// address's track in the channel, counted from 1. The starts and durations of up to 255 fragments are told ahead, in ticks
/// of the track's timescale. It keeps the connection. Samples that lie in one block are not copied.
pub fn fragment_reply(
    alloc: Global,
    channel: &Channel,
    address: &Address,
    place: u64,
    fragment: &Fragment,
    ahead: &[(u64, u64)],
) -> Result<Reply, NoMemory>
    requires channel { IsChannel channel.now }
    requires valid { IsValid fragment.now }
    requires place { place < 2 ^ 32 }
    requires few { length ahead.now ≤ 255 }
    ensures { IfOk result (λ reply. reply ≡ ok Mp4 (frag_text place (id_in channel.now address.now) fragment.now ahead.now)) }
{
    let id = id_in(channel.as_slice(), address);
    Ok(Reply {
        status: 200,
        bytes: give_text(alloc, place as u32, id, fragment, ahead)?,
        close: false,
        counted: Counted::Neither,
    })
}
