//! Equal channels and fragments.
ghost use Rattle.std.specs.Prelude.{◌≡◌, IsTrue};

use sm_model::{Channel, Fragment, Params, Sample, Track, is_same};

fn is_same_number(a: Option<u32>, b: Option<u32>) -> bool
    ensures { IsTrue result → a ≡ b }
{
    a == b
}

fn are_same_params(a: &Params, b: &Params) -> bool
    ensures { IsTrue result → a.now ≡ b.now }
{
    if !is_same_number(a.width, b.width) || !is_same_number(a.height, b.height) {
        return false;
    }
    if !is_same_number(a.tag, b.tag) || !is_same_number(a.channels, b.channels) {
        return false;
    }
    if !is_same_number(a.rate, b.rate) || !is_same_number(a.bits, b.bits) {
        return false;
    }
    is_same_number(a.packet, b.packet)
}

fn is_same_track(a: &Track, b: &Track) -> bool
    ensures { IsTrue result → a.now ≡ b.now }
{
    if a.kind != b.kind {
        return false;
    }
    if a.name != b.name {
        return false;
    }
    if a.bitrate != b.bitrate {
        return false;
    }
    if a.timescale != b.timescale {
        return false;
    }
    if !is_same(a.fourcc.as_slice(), b.fourcc.as_slice()) {
        return false;
    }
    if !are_same_params(&a.numbers, &b.numbers) {
        return false;
    }
    is_same(a.private.as_slice(), b.private.as_slice())
}

fn are_same_tracks(a: &[Track], b: &[Track]) -> bool
    ensures { IsTrue result → a.now ≡ b.now }
{
    match (a, b) {
        ([], []) => true,
        ([first, rest @ ..], [other, others @ ..]) => {
            if !is_same_track(first, other) {
                return false;
            }
            are_same_tracks(rest, others)
        }
        ([], [_, ..]) | ([_, ..], []) => false,
    }
}

// Whether these are the same tracks in the same order.
pub(crate) fn is_same_channel(a: &Channel, b: &Channel) -> bool
    ensures { IsTrue result → a.now ≡ b.now }
{
    are_same_tracks(a.as_slice(), b.as_slice())
}

fn is_same_sample(a: &Sample, b: &Sample) -> bool
    ensures { IsTrue result → a.now ≡ b.now }
{
    if a.duration != b.duration {
        return false;
    }
    if a.flags != b.flags {
        return false;
    }
    if a.offset != b.offset {
        return false;
    }
    is_same(a.bytes.as_slice(), b.bytes.as_slice())
}

fn are_same_samples(a: &[Sample], b: &[Sample]) -> bool
    ensures { IsTrue result → a.now ≡ b.now }
{
    match (a, b) {
        ([], []) => true,
        ([first, rest @ ..], [other, others @ ..]) => {
            if !is_same_sample(first, other) {
                return false;
            }
            are_same_samples(rest, others)
        }
        ([], [_, ..]) | ([_, ..], []) => false,
    }
}

// Whether these are the same fragments, samples and all.
pub(crate) fn is_same_fragment(a: &Fragment, b: &Fragment) -> bool
    ensures { IsTrue result → a.now ≡ b.now }
{
    if a.stream != b.stream {
        return false;
    }
    if a.bitrate != b.bitrate {
        return false;
    }
    if a.time != b.time {
        return false;
    }
    if a.duration != b.duration {
        return false;
    }
    if a.signed != b.signed {
        return false;
    }
    are_same_samples(a.samples.as_slice(), b.samples.as_slice())
}
