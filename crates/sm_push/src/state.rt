//! What the boxes of a push body leave for the boxes behind them, and what is done with a box.

use sm_model::{Bytes, Cause, HeaderTrack, HeaderTracks, Run};

/// How far the header of a push has come.
#[derive(Debug, Drop)]
pub enum HeaderStage {
    /// The whole live server manifest box and the whole `moov`, as far as they came.
    Gathering {
        manifest: Option<Bytes>,
        moov: Option<Bytes>,
    },
    /// Both came, and these are the tracks.
    Complete(HeaderTracks),
}

/// A `moof` that waits for its `mdat`.
#[derive(Debug, Drop)]
pub struct PendingMoof {
    /// What it says, with the defaults of its track.
    pub run: Run,
    /// In bytes, of the whole box.
    pub size: u64,
    /// The place of its first byte in the body of the push.
    pub at: u64,
    /// The track that it names.
    pub track: HeaderTrack,
}

/// What later boxes need of the boxes before them.
#[derive(Debug, Drop)]
pub struct PushState {
    /// Whether fragments may come before a header.
    pub headerless: bool,
    pub stage: HeaderStage,
    pub moof: Option<PendingMoof>,
    /// The place of the next box in the body of the push, in bytes from 0; 2^64 - 1 stands for that and all above.
    pub at: u64,
}

/// The boxes at the top of a push body that can be read.
#[derive(Clone, Copy, Debug, PartialEq, Eq)]
pub enum TopBox {
    Moof,
    Mdat,
    Moov,
    /// The live server manifest box.
    Manifest,
    Other,
}

/// What is done with a box, as its head says. Sizes are in bytes and count the head.
#[derive(Debug, Drop, PartialEq, Eq)]
pub enum BoxDecision {
    /// More of its head is needed.
    Wait,
    Refuse(Cause),
    /// The whole box is passed over unread.
    Pass(u64),
    /// The whole box is read.
    Take(TopBox, u64),
}
