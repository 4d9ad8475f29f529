//! The faults of the tracks.
ghost use Rattle.std.specs.Prelude.{◌≡◌, ◌++◌, [], None, option_map};
ghost use Rattle.std.specs.List.{list_all};
ghost use Rattle.hex.specs.Hex.{is_hex_digit};
ghost use Rattle.sm_model.specs.Digits.{is_number};
ghost use Rattle.sm_smil.specs.LiveTracks.{value_of, is_private, is_timescale, is_fit, stream_name, bitrate_text, number_in, bitrate_of};
ghost use Rattle.sm_smil.specs.LiveTracks.{ticks_of, timescale_of};
ghost use Rattle.sm_smil.specs.LiveFaults.{is_invalid, misfits, inner_faults, are_equal, do_differ, clash, share_id, collide, lacks_id, lacks_part};
ghost use Rattle.sm_model.specs.Kinds.{are_one_kind};
ghost use Rattle.sm_smil.specs.LiveFaults.{collides_with, end_faults, tracks_faults, open_faults, text_faults, faults_of};
ghost use Rattle.sm_model.specs.Places.{least_from};

use crate::names::value_of;
use crate::raw_track::{Form, ParamName, RawTrack, SmilParam};
use crate::walk::Walk;
use sm_model::{Bytes, Kind, Name, is_fourcc, note, note_option, number_of};

fn is_hex_digit(c: u8) -> bool
    ensures { result ≡ is_hex_digit c }
{
    65 <= c && c <= 70 || 97 <= c && c <= 102 || 48 <= c && c <= 57
}

fn are_hex_digits(text: &[u8]) -> bool
    ensures { result ≡ list_all is_hex_digit text.now }
{
    text.iter().all(|c| is_hex_digit(*c))
}

// An even number of hexadecimal digits, at most 65,536 of them: tested before room for the bytes is taken.
#[tactic(auto, unfolding(crate::specs::LiveTracks::is_private))]
fn is_private(value: &[u8]) -> bool
    ensures { result ≡ is_private value.now }
{
    value.len() <= 65536 && value.len() % 2 == 0 && are_hex_digits(value)
}

#[tactic(auto, unfolding(sm_model::specs::Digits::number_of))]
fn is_number(value: &[u8]) -> bool
    ensures { result ≡ is_number value.now }
{
    number_of(value).is_some()
}

#[tactic(auto, unfolding(crate::specs::LiveTracks::is_timescale, sm_model::specs::Digits::number_of))]
fn is_timescale(value: &[u8]) -> bool
    ensures { result ≡ is_timescale value.now }
{
    match number_of(value) {
        None => false,
        Some(number) => 0 < number,
    }
}

/// Whether a value is one that its name can have.
#[tactic(auto, unfolding(crate::specs::LiveTracks::is_fit))]
pub fn is_fit(name: ParamName, value: &[u8]) -> bool
    ensures { result ≡ is_fit name value.now }
{
    match name {
        ParamName::TrackName => Name::fits(value),
        ParamName::TimeScale => is_timescale(value),
        ParamName::FourCc => is_fourcc(value),
        ParamName::CodecPrivateData => is_private(value),
        _ => is_number(value),
    }
}

fn note_misfits(fault: &mut Option<u64>, params: &[SmilParam])
    ensures { fault.new ≡ least_from fault.old (misfits params.now) }
{
    for param in params {
        if !is_fit(param.name, param.value.as_slice()) {
            note(fault, param.at);
        }
    }
}

/// Whether a text stands there that is no number.
pub fn is_misread(text: Option<&[u8]>) -> bool
    ensures { result ≡ is_invalid (option_map (λ x. x.now) text.entry) }
{
    match text {
        None => false,
        Some(text) => !is_number(text),
    }
}

/// The bytes, lent, where there are some.
pub fn option_bytes(text: &Option<Bytes>) -> Option<&[u8]>
    ensures { option_map (λ x. x.now) result ≡ text.now }
{
    match text {
        None => None,
        Some(text) => Some(text.as_slice()),
    }
}

// What is seen before the track has ended.
#[tactic(auto, using(crate::proofs::Least::least_from_append))]
fn note_inner(fault: &mut Option<u64>, track: &RawTrack)
    ensures { fault.new ≡ least_from fault.old (inner_faults track.now) }
{
    if is_misread(option_bytes(&track.bitrate)) {
        note(fault, track.at);
    }
    note_misfits(fault, track.params.as_slice());
    note_option(fault, track.again);
}

fn number_in(text: Option<&[u8]>) -> Option<u32>
    ensures { result ≡ number_in (option_map (λ x. x.now) text.entry) }
{
    match text {
        None => None,
        Some(text) => number_of(text),
    }
}

fn bitrate_text(track: &RawTrack) -> Option<&[u8]>
    ensures { option_map (λ x. x.now) result ≡ bitrate_text track.now.bitrate track.now.params }
{
    match &track.bitrate {
        Some(text) => Some(text.as_slice()),
        None => value_of(ParamName::SystemBitrate, track.params.as_slice()),
    }
}

/// The bitrate of a track, where it has one that is a number.
pub fn bitrate_of(track: &RawTrack) -> Option<u32>
    ensures { result ≡ bitrate_of track.now }
{
    number_in(bitrate_text(track))
}

/// The number that a track's param of that name says, where there is one that is a number.
pub fn number_at(name: ParamName, track: &RawTrack) -> Option<u32>
    ensures { result ≡ number_in (value_of name track.now.params) }
{
    number_in(value_of(name, track.params.as_slice()))
}

// The timescale that a text is, from 1 on.
fn ticks_of(text: &[u8]) -> Option<u32>
    ensures { result ≡ ticks_of text.now }
{
    if is_timescale(text) {
        number_of(text)
    } else {
        None
    }
}

/// The timescale of a track, 10,000,000 where it says none; none where what it says is no timescale.
pub fn timescale_of(track: &RawTrack) -> Option<u32>
    ensures { result ≡ timescale_of track.now }
{
    match value_of(ParamName::TimeScale, track.params.as_slice()) {
        None => Some(10000000),
        Some(text) => ticks_of(text),
    }
}

/// The name of a track, as it stands there or that of its kind.
pub fn name_of(track: &RawTrack) -> &[u8]
    ensures { result.now ≡ stream_name track.now }
{
    match value_of(ParamName::TrackName, track.params.as_slice()) {
        None => track.kind.name(),
        Some(name) => name,
    }
}

fn are_equal(a: Option<u32>, b: Option<u32>) -> bool
    ensures { result ≡ are_equal a b }
{
    match (a, b) {
        (Some(a), Some(b)) => a == b,
        _ => false,
    }
}

fn do_differ(a: Option<u32>, b: Option<u32>) -> bool
    ensures { result ≡ do_differ a b }
{
    match (a, b) {
        (Some(a), Some(b)) => a != b,
        _ => false,
    }
}

fn is_kind(a: Kind, b: Kind) -> bool
    ensures { result ≡ are_one_kind a b }
{
    match a {
        Kind::Video => matches!(b, Kind::Video),
        Kind::Audio => matches!(b, Kind::Audio),
        Kind::Text => matches!(b, Kind::Text),
    }
}

#[tactic(auto, unfolding(crate::specs::LiveFaults::clash))]
fn clash(a: &RawTrack, b: &RawTrack) -> bool
    ensures { result ≡ clash a.now b.now }
{
    name_of(a) == name_of(b)
        && (are_equal(bitrate_of(a), bitrate_of(b))
            || !is_kind(a.kind, b.kind)
            || do_differ(timescale_of(a), timescale_of(b)))
}

fn share_id(form: Form, a: &RawTrack, b: &RawTrack) -> bool
    ensures { result ≡ share_id form a.now b.now }
{
    match form {
        Form::Pushed => are_equal(
            number_at(ParamName::TrackId, a),
            number_at(ParamName::TrackId, b),
        ),
        Form::Ladder => false,
    }
}

#[tactic(auto, unfolding(crate::specs::LiveFaults::collide))]
fn collide(form: Form, a: &RawTrack, b: &RawTrack) -> bool
    ensures { result ≡ collide form a.now b.now }
{
    clash(a, b) || share_id(form, a, b)
}

/// Whether a track shares with an earlier one what no two may share.
pub fn collides_with(form: Form, earlier: &[RawTrack], track: &RawTrack) -> bool
    ensures { result ≡ collides_with form earlier.now track.now }
{
    for other in earlier {
        if collide(form, other, track) {
            return true;
        }
    }
    false
}

fn lacks_id(form: Form, track: &RawTrack) -> bool
    ensures { result ≡ lacks_id form track.now.params }
{
    match form {
        Form::Pushed => value_of(ParamName::TrackId, track.params.as_slice()).is_none(),
        Form::Ladder => false,
    }
}

/// Whether a track lacks its bitrate, or a track_ID that it needs.
#[tactic(auto, unfolding(crate::specs::LiveFaults::lacks_part))]
pub fn lacks_part(form: Form, track: &RawTrack) -> bool
    ensures { result ≡ lacks_part form track.now }
{
    bitrate_text(track).is_none() || lacks_id(form, track)
}

// What the end of the track shows.
#[tactic(auto, unfolding(crate::specs::LiveFaults::end_faults))]
fn note_end(fault: &mut Option<u64>, form: Form, earlier: &[RawTrack], track: &RawTrack)
    ensures { fault.new ≡ least_from fault.old (end_faults form earlier.now track.now) }
{
    if lacks_part(form, track) || collides_with(form, earlier, track) {
        note(fault, track.at);
    }
}

#[tactic(auto, using(crate::proofs::Least::least_from_append))]
fn note_track(fault: &mut Option<u64>, form: Form, earlier: &[RawTrack], track: &RawTrack)
    ensures { fault.new ≡ least_from fault.old (inner_faults track.now ++ end_faults form earlier.now track.now) }
{
    note_inner(fault, track);
    note_end(fault, form, earlier, track);
}

fn note_tracks(fault: &mut Option<u64>, form: Form, tracks: &[RawTrack])
    ensures { fault.new ≡ least_from fault.old (tracks_faults form [] tracks.now) }
{
    for i in 0..tracks.len() {
        note_track(fault, form, &tracks[..i], &tracks[i]);
    }
}

fn note_open(fault: &mut Option<u64>, current: &Option<RawTrack>)
    ensures { fault.new ≡ least_from fault.old (open_faults current.now) }
{
    if let Some(track) = current {
        note_inner(fault, track);
    }
}

fn note_text(fault: &mut Option<u64>, size: u64, bad: Option<u64>, done: &[RawTrack])
    ensures { fault.new ≡ least_from fault.old (text_faults size bad done.now) }
{
    match bad {
        Some(at) => note(fault, at),
        None => {
            if done.is_empty() {
                note(fault, size);
            }
        }
    }
}

/// The least place of a fault in a text of `size` bytes, whose tags were walked over up to a tag at fault, if there is one.
#[tactic(auto, using(crate::proofs::Least::least_from_append))]
pub fn fault_of(form: Form, size: u64, bad: Option<u64>, walk: &Walk) -> Option<u64>
    ensures { result ≡ least_from None (faults_of form size bad walk.now) }
{
    let mut fault = None;
    note_tracks(&mut fault, form, walk.done());
    note_open(&mut fault, walk.current());
    note_option(&mut fault, walk.other());
    note_option(&mut fault, walk.over());
    note_text(&mut fault, size, bad, walk.done());
    fault
}
