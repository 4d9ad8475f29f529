//! The names of elements, attributes and params.
ghost use Rattle.std.specs.Prelude.{◌≡◌, option_map};
ghost use Rattle.sm_smil.specs.LiveTracks.{value_of};
ghost use Rattle.sm_smil.specs.LiveWalk.{text_param, number_param, video_param, audio_param, param_name, kind_in};

use crate::raw_track::{ParamName, SmilParam};
use sm_model::Kind;

#[tactic(auto, unfolding(crate::specs::LiveWalk::text_param))]
fn text_param(name: &[u8]) -> Option<ParamName>
    ensures { result ≡ text_param name.now }
{
    if name == b"trackName".as_slice() {
        Some(ParamName::TrackName)
    } else if name == b"FourCC".as_slice() {
        Some(ParamName::FourCc)
    } else if name == b"CodecPrivateData".as_slice() {
        Some(ParamName::CodecPrivateData)
    } else {
        None
    }
}

#[tactic(auto, unfolding(crate::specs::LiveWalk::number_param))]
fn number_param(name: &[u8]) -> Option<ParamName>
    ensures { result ≡ number_param name.now }
{
    if name == b"systemBitrate".as_slice() {
        Some(ParamName::SystemBitrate)
    } else if name == b"trackID".as_slice() {
        Some(ParamName::TrackId)
    } else if name == b"TimeScale".as_slice() {
        Some(ParamName::TimeScale)
    } else {
        None
    }
}

#[tactic(auto, unfolding(crate::specs::LiveWalk::video_param))]
fn video_param(name: &[u8]) -> Option<ParamName>
    ensures { result ≡ video_param name.now }
{
    if name == b"MaxWidth".as_slice() {
        Some(ParamName::MaxWidth)
    } else if name == b"MaxHeight".as_slice() {
        Some(ParamName::MaxHeight)
    } else {
        None
    }
}

#[tactic(auto, unfolding(crate::specs::LiveWalk::audio_param))]
fn audio_param(name: &[u8]) -> Option<ParamName>
    ensures { result ≡ audio_param name.now }
{
    if name == b"AudioTag".as_slice() {
        Some(ParamName::AudioTag)
    } else if name == b"Channels".as_slice() {
        Some(ParamName::Channels)
    } else if name == b"SamplingRate".as_slice() {
        Some(ParamName::SamplingRate)
    } else if name == b"BitsPerSample".as_slice() {
        Some(ParamName::BitsPerSample)
    } else if name == b"PacketSize".as_slice() {
        Some(ParamName::PacketSize)
    } else {
        None
    }
}

/// The name of a param, where it is one that is read.
#[tactic(auto, unfolding(crate::specs::LiveWalk::param_name))]
pub fn param_name(name: &[u8]) -> Option<ParamName>
    ensures { result ≡ param_name name.now }
{
    if let Some(found) = text_param(name) {
        return Some(found);
    }
    if let Some(found) = number_param(name) {
        return Some(found);
    }
    if let Some(found) = video_param(name) {
        return Some(found);
    }
    audio_param(name)
}

/// The kind of track that an element inside the switch is.
#[tactic(auto, unfolding(crate::specs::LiveWalk::kind_in))]
pub fn kind_in(element: &[u8]) -> Option<Kind>
    ensures { result ≡ kind_in element.now }
{
    if element == b"video".as_slice() {
        Some(Kind::Video)
    } else if element == b"audio".as_slice() {
        Some(Kind::Audio)
    } else if element == b"textstream".as_slice() {
        Some(Kind::Text)
    } else {
        None
    }
}

/// The value of the first param of that name.
pub fn value_of(name: ParamName, params: &[SmilParam]) -> Option<&[u8]>
    ensures { option_map (λ x. x.now) result ≡ value_of name params.now }
{
    for param in params {
        if param.name == name {
            return Some(param.value.as_slice());
        }
    }
    None
}
