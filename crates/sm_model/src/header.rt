//! The header of a push.
ghost use Rattle.std.specs.Prelude.{◌≡◌, IfOk};

use crate::{Channel, Defaults, Name, NoMemory, Sequence};
use std::alloc::Global;

/// What fragments of a track need of the header that declared it.
#[derive(Debug, Drop)]
pub struct HeaderTrack {
    /// The track_ID under which its fragments come.
    pub id: u32,
    /// The name of its stream.
    pub stream: Name,
    /// In bits a second, as declared.
    pub bitrate: u32,
    /// What holds for samples whose fragments do not say it.
    pub defaults: Defaults,
}

impl HeaderTrack {
    /// An equal one.
    pub fn copy(&self, alloc: Global) -> Result<HeaderTrack, NoMemory>
        ensures { IfOk result (λ copy. copy ≡ self.now) }
    {
        Ok(HeaderTrack {
            id: self.id,
            stream: self.stream.copy(alloc)?,
            bitrate: self.bitrate,
            defaults: self.defaults,
        })
    }
}

/// The tracks of a header in the order of its channel, which contracts see as a list.
pub type HeaderTracks = Sequence<HeaderTrack>;

/// The header of a push: what its live server manifest and its `moov` say together.
#[derive(Debug, Drop)]
pub struct Header {
    /// The tracks that the live server manifest names, with the timescales of the `moov`. It is valid.
    pub channel: Channel,
    /// The same tracks in the same order, as their fragments need them.
    pub tracks: HeaderTracks,
}
