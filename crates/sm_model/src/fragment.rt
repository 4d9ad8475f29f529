//! Fragments.
ghost use Rattle.std.specs.Prelude.{◌≡◌, ◌↔◌, ◌-◌, ◌^◌, min, IsTrue, IfOk};
ghost use Rattle.sm_model.specs.Fragments.{IsValid, sample_bytes};
ghost use Rattle.sm_model.specs.Entries.{address_of};

use crate::{Address, Name, NoMemory, Sample, Samples};
use std::alloc::Global;

/// One fragment of one track: the samples of a `moof` and the `mdat` behind it.
///
/// It is valid where it has 1 to 65,536 samples of at most 67,108,864 bytes together, a duration of at least 1, and
/// `time + duration` is at most 2^63 - 1. Every call but `copy` that takes a fragment needs a valid one.
#[derive(Debug, Drop)]
pub struct Fragment {
    /// The name of its stream.
    pub stream: Name,
    /// In bits a second, as declared.
    pub bitrate: u32,
    /// Its absolute start in ticks of the track's timescale ([MS-SSTR] 2.2.4.4).
    pub time: u64,
    /// In ticks of the track's timescale.
    pub duration: u64,
    /// Whether the composition offsets of its samples are signed.
    pub signed: bool,
    pub samples: Samples,
}

// How many bytes all samples have together. It stands still at its type's end.
fn bytes_of(samples: &[Sample]) -> u64
    ensures { result ≡ min (sample_bytes samples.now) (2 ^ 64 - 1) }
{
    let mut total: u64 = 0;
    for sample in samples {
        total = total.saturating_add(sample.bytes.len());
    }
    total
}

impl Fragment {
    /// Whether it is valid.
    pub fn is_valid(&self) -> bool
        ensures { IsTrue result ↔ IsValid self.now }
    {
        let samples = self.samples.len();
        0 < samples
            && samples <= 65536
            && 0 < self.duration
            && self.time < 1 << 63
            && self.duration < (1 << 63) - self.time
            && self.bytes() <= 67_108_864
    }

    /// How many bytes its samples have together. It stands still at 2^64 - 1, which no valid fragment reaches.
    pub fn bytes(&self) -> u64
        ensures { result ≡ min (sample_bytes self.now.samples) (2 ^ 64 - 1) }
    {
        bytes_of(self.samples.as_slice())
    }

    /// Whether this is its address.
    pub fn is_at(&self, address: &Address) -> bool
        ensures { IsTrue result ↔ (address_of self.now ≡ address.now) }
    {
        self.time == address.time
            && self.bitrate == address.bitrate
            && self.stream.as_bytes() == address.stream.as_bytes()
    }

    /// An equal fragment. Bytes of samples that have several owners are not copied: they have one owner more.
    pub fn copy(&self, alloc: Global) -> Result<Fragment, NoMemory>
        ensures { IfOk result (λ copy. copy ≡ self.now) }
    {
        Ok(Fragment {
            stream: self.stream.copy(alloc)?,
            bitrate: self.bitrate,
            time: self.time,
            duration: self.duration,
            signed: self.signed,
            samples: self.samples.copy(alloc)?,
        })
    }
}
