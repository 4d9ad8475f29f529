//! Addresses of fragments.
ghost use Rattle.std.specs.Prelude.{◌≡◌, IfOk};
ghost use Rattle.sm_model.specs.Entries.{address_of};

use crate::{Fragment, Name, NoMemory};
use std::alloc::Global;

/// Under which a fragment is kept and asked for: its stream, its bitrate and its start ([MS-SSTR] 2.2.3).
#[derive(Debug, PartialEq, Eq, Hash, Drop)]
pub struct Address {
    /// The name of the stream.
    pub stream: Name,
    /// In bits a second, as declared.
    pub bitrate: u32,
    /// The absolute start in ticks of the track's timescale.
    pub time: u64,
}

impl Address {
    /// The address of a fragment.
    pub fn of(alloc: Global, fragment: &Fragment) -> Result<Address, NoMemory>
        ensures { IfOk result (λ address. address ≡ address_of fragment.now) }
    {
        Ok(Address {
            stream: fragment.stream.copy(alloc)?,
            bitrate: fragment.bitrate,
            time: fragment.time,
        })
    }

    /// An equal address.
    pub fn copy(&self, alloc: Global) -> Result<Address, NoMemory>
        ensures { IfOk result (λ copy. copy ≡ self.now) }
    {
        Ok(Address {
            stream: self.stream.copy(alloc)?,
            bitrate: self.bitrate,
            time: self.time,
        })
    }
}
