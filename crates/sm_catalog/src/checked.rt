//! The tracks of a header against those of a channel.
ghost use Rattle.std.specs.Prelude.{◌≡◌, ◌==◌, ◌&&◌, is_none};
ghost use Rattle.std.specs.List.{position};
ghost use Rattle.sm_model.specs.Same.{is_same};
ghost use Rattle.sm_model.specs.Kinds.{are_one_kind};
ghost use Rattle.sm_log.specs.Adds.{track_at};
ghost use Rattle.sm_log.specs.Headers.{are_same_numbers, are_same_params, is_same_track, differs, checked_by, check};

use crate::lookup::track_place;
use sm_log::Checked;
use sm_model::{Kind, Params, Track};

fn is_kind(a: Kind, b: Kind) -> bool
    ensures { result ≡ are_one_kind a b }
{
    match (a, b) {
        (Kind::Video, Kind::Video) | (Kind::Audio, Kind::Audio) | (Kind::Text, Kind::Text) => true,
        _ => false,
    }
}

fn are_same_numbers(a: Option<u32>, b: Option<u32>) -> bool
    ensures { result ≡ are_same_numbers a b }
{
    match (a, b) {
        (None, None) => true,
        (Some(a), Some(b)) => a == b,
        _ => false,
    }
}

fn are_same_params(a: &Params, b: &Params) -> bool
    ensures { result ≡ are_same_params a.now b.now }
{
    are_same_numbers(a.width, b.width)
        && are_same_numbers(a.height, b.height)
        && are_same_numbers(a.tag, b.tag)
        && are_same_numbers(a.channels, b.channels)
        && are_same_numbers(a.rate, b.rate)
        && are_same_numbers(a.bits, b.bits)
        && are_same_numbers(a.packet, b.packet)
}

fn is_same_track(a: &Track, b: &Track) -> bool
    ensures { result ≡ is_same_track a.now b.now }
{
    is_kind(a.kind, b.kind)
        && a.timescale == b.timescale
        && a.fourcc.as_slice() == b.fourcc.as_slice()
        && a.private.as_slice() == b.private.as_slice()
        && are_same_params(&a.numbers, &b.numbers)
}

// Whether the channel has no track of that stream and bitrate.
fn lacks(channel: &[Track], track: &Track) -> bool
    ensures { result ≡ is_none (track_at track.now.name track.now.bitrate channel.now) }
{
    match track_place(channel, track.name.as_bytes(), track.bitrate) {
        None => true,
        Some(_) => false,
    }
}

fn differs(channel: &[Track], track: &Track) -> bool
    ensures { result ≡ differs track.now (track_at track.now.name track.now.bitrate channel.now) }
{
    match track_place(channel, track.name.as_bytes(), track.bitrate) {
        None => true,
        Some(place) => !is_same_track(&channel[place], track),
    }
}

fn first_lacking(channel: &[Track], header: &[Track]) -> Option<usize>
    ensures { result ≡ position (λ t. is_none (track_at t.name t.bitrate channel.now)) header.now }
{
    header.iter().position(|track| lacks(channel, track))
}

fn first_differing(channel: &[Track], header: &[Track]) -> Option<usize>
    ensures { result ≡ position (λ t. differs t (track_at t.name t.bitrate channel.now)) header.now }
{
    header.iter().position(|track| differs(channel, track))
}

fn checked(lacking: Option<usize>, differing: Option<usize>) -> Checked
    ensures { result ≡ checked_by lacking differing }
{
    match (lacking, differing) {
        (Some(index), _) => Checked::NotDeclared {
            index: index as u64,
        },
        (None, Some(index)) => Checked::Clash {
            index: index as u64,
        },
        (None, None) => Checked::Agreed,
    }
}

/// How the tracks of a header stand to those of a channel.
pub fn check_tracks(channel: &[Track], header: &[Track]) -> Checked
    ensures { result ≡ check channel.now header.now }
{
    checked(
        first_lacking(channel, header),
        first_differing(channel, header),
    )
}
