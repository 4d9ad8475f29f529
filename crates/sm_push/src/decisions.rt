//! What is done with a box, as its head says.
ghost use Rattle.std.specs.Prelude.{◌≡◌, ◌+◌};
ghost use Rattle.sm_push.specs.PushHeads.{decision, by_kind, ruling, kind_sort, user_sort, within};

use crate::state::{BoxDecision, HeaderStage, PushState, TopBox};
use sm_box::{BoxHead, Head};
use sm_model::{Cause, is_same};

// In bytes, of the whole box.
const MOOF_LIMIT: u64 = 2_097_152;

// In bytes, of the whole box.
const HEADER_LIMIT: u64 = 1_048_576;

// In bytes, of the body.
const MDAT_LIMIT: u64 = 67_108_864;

// a5d40b30-e814-11dd-ba2f-0800200c9a66
const MANIFEST_TYPE: [u8; 16] = [
    0xa5, 0xd4, 0x0b, 0x30, 0xe8, 0x14, 0x11, 0xdd, 0xba, 0x2f, 0x08, 0x00, 0x20, 0x0c, 0x9a, 0x66,
];

/// What is done with the box that the bytes begin. It looks at their first 32 at most, and takes no memory.
#[tactic(auto, using(crate::proofs::HeadLemmas::decision_is))]
pub fn decide(state: &PushState, bytes: &[u8]) -> BoxDecision
    ensures { result ≡ decision state.now bytes.now }
{
    match BoxHead::read(bytes) {
        Head::Short => BoxDecision::Wait,
        Head::Bad => BoxDecision::Refuse(Cause::BadBox),
        Head::OpenEnded => BoxDecision::Refuse(Cause::OpenEnded),
        Head::Whole { kind, head, size } => decide_kind(state, bytes, &kind, head, size),
    }
}

fn decide_kind(state: &PushState, bytes: &[u8], kind: &[u8], head: u64, size: u64) -> BoxDecision
    ensures { result ≡ by_kind state.now bytes.now kind.now head size }
{
    if is_same(kind, b"uuid") && 16 <= size.saturating_sub(head) {
        if (bytes.len() as u64) < head + 16 {
            return BoxDecision::Wait;
        }
        let (_, rest) = bytes.split_at(head as usize);
        let (user, _) = rest.split_at(16);
        return rule(state, user_sort(user), head, size);
    }
    rule(state, kind_sort(kind), head, size)
}

fn kind_sort(kind: &[u8]) -> TopBox
    ensures { result ≡ kind_sort kind.now }
{
    if is_same(kind, b"moof") {
        TopBox::Moof
    } else if is_same(kind, b"mdat") {
        TopBox::Mdat
    } else if is_same(kind, b"moov") {
        TopBox::Moov
    } else {
        TopBox::Other
    }
}

fn user_sort(user: &[u8]) -> TopBox
    ensures { result ≡ user_sort user.now }
{
    if is_same(user, &MANIFEST_TYPE) {
        TopBox::Manifest
    } else {
        TopBox::Other
    }
}

fn rule(state: &PushState, sort: TopBox, head: u64, size: u64) -> BoxDecision
    ensures { result ≡ ruling state.now sort head size }
{
    if state.moof.is_some() {
        return match sort {
            TopBox::Mdat => limit(sort, size, size.saturating_sub(head), MDAT_LIMIT),
            _ => BoxDecision::Refuse(Cause::NoMdat),
        };
    }
    match (sort, &state.stage) {
        (TopBox::Moof, HeaderStage::Complete(_)) => limit(sort, size, size, MOOF_LIMIT),
        (
            TopBox::Moof,
            HeaderStage::Gathering {
                manifest: _,
                moov: _,
            },
        ) => {
            if state.headerless {
                limit(sort, size, size, MOOF_LIMIT)
            } else {
                BoxDecision::Refuse(Cause::NoHeader)
            }
        }
        (
            TopBox::Moov,
            HeaderStage::Gathering {
                manifest: _,
                moov: None,
            },
        ) => { limit(sort, size, size, HEADER_LIMIT) }
        (
            TopBox::Manifest,
            HeaderStage::Gathering {
                manifest: None,
                moov: _,
            },
        ) => { limit(sort, size, size, HEADER_LIMIT) }
        _ => BoxDecision::Pass(size),
    }
}

// Reads a box of which no more is counted than the limit.
fn limit(sort: TopBox, size: u64, counted: u64, most: u64) -> BoxDecision
    ensures { result ≡ within sort size counted most }
{
    if most < counted {
        BoxDecision::Refuse(Cause::BoxTooLarge)
    } else {
        BoxDecision::Take(sort, size)
    }
}
