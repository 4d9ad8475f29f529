//! Why what was received is refused.
ghost use Rattle.std.specs.Prelude.{◌≡◌, IfOk, string_bytes};
ghost use Rattle.sm_model.specs.Causes.{telling, cause_row, cause_number, cause_status, cause_name, cause_values, has_place, cause_line};

use crate::{Bytes, Name, NoMemory};
use std::alloc::Global;
use thiserror::Error;

/// Why what came from outside is refused. Its number, its name and its HTTP status stand in one table, which the methods
/// answer by rows. The number 34 stands for a store that is none, which no reply tells.
#[derive(Debug, Drop, PartialEq, Eq, Error)]
pub enum Cause {
    /// A child is cut or has a bad size, a box that must stand is missing or stands twice, or a body has not the length
    /// that its flags, version and count give.
    #[error("a box is cut, missing, doubled or of the wrong length")]
    BadBox,
    /// The box is larger than the limit on boxes of its kind: 2,097,152 bytes for a `moof`, 1,048,576 bytes for a `moov`
    /// or a live server manifest box, and 67,108,864 bytes for the body of an `mdat`.
    #[error("a box is too large")]
    BoxTooLarge,
    /// A box at the top has a size of 0, which would go on to the end.
    #[error("a box has no end of its own")]
    OpenEnded,
    /// A `moof` stands before the header is complete.
    #[error("a fragment comes before the header")]
    NoHeader,
    /// The text of the live server manifest box is none.
    #[error("the live manifest is wrong at byte {inside} of its text")]
    BadLiveManifest {
        /// The place of the fault, in bytes from the first of the text.
        inside: u64,
    },
    /// A child of the `moov` is cut or has a bad size, a `trak` lacks what is read of it, a timescale is 0, or two tracks
    /// have one track_ID; or a track of the live server manifest is not in it, or two of its tracks with one name have
    /// different timescales.
    #[error("the header of the movie is malformed")]
    BadMoov,
    /// The header names no track with this track_ID.
    #[error("the fragment is of a track that the header does not name")]
    UnknownTrack,
    /// The channel has no track of this stream and bitrate.
    #[error("the channel does not declare a track")]
    NotDeclared {
        stream: Name,
        bitrate: u32,
    },
    /// The channel's track of this stream and bitrate has other fields.
    #[error("a track differs from the declared one")]
    DeclClash {
        stream: Name,
        bitrate: u32,
    },
    /// A sample encryption box stands in the `traf`, or a track of the live server manifest has an encrypted sample entry.
    #[error("the samples are protected")]
    Protected,
    /// A second `traf`.
    #[error("there are several tracks in one fragment")]
    ManyTracks,
    /// A second `trun`.
    #[error("there are several runs in one fragment")]
    ManyRuns,
    /// The `tfhd` has a base data offset.
    #[error("a base data offset is not supported")]
    BaseOffset,
    /// There is no `tfxd`.
    #[error("the fragment says no time")]
    NoTime,
    /// The `tfxd` says a duration of 0.
    #[error("the fragment says a duration of 0")]
    NoDuration,
    /// There is no `trun`, or it counts no samples.
    #[error("the fragment has no samples")]
    NoSamples,
    /// The samples' bytes are not all inside the body of the `mdat`.
    #[error("the samples lie outside the media data")]
    SamplesOutside,
    /// The box behind the `moof` is no `mdat`.
    #[error("no media data follows the movie fragment")]
    NoMdat,
    /// The stream has this start with another duration. Both are in ticks of the track's timescale.
    #[error("the start is kept with a duration of {kept}, not {given}")]
    DurationClash {
        kept: u64,
        given: u64,
    },
    /// The fragment's span overlaps one that the stream has.
    #[error("the fragment overlaps one that ends at {end}")]
    Overlap {
        /// The end of the first such span, in ticks of the track's timescale.
        end: u64,
    },
    /// The body ends inside a box, or between a `moof` and its `mdat`.
    #[error("the body is cut off")]
    CutOff,
    /// Time and duration together exceed 2^63 - 1.
    #[error("the fragment ends too late")]
    TimeTooLarge,
    /// The `trun` counts more than 65,536 samples.
    #[error("the fragment has too many samples")]
    TooManySamples,
    /// The `trun` has not the length that its flags and count give, or another version than 0 and 1.
    #[error("the run of samples is malformed")]
    BadRun,
    /// A limit on the bytes or entries of the store, on the times of a stream or on segments is met.
    #[error("the store is full")]
    Full,
    /// The disk failed.
    #[error("the disk failed")]
    DiskFault,
    /// What the disk gave is not what was written.
    #[error("the store is damaged")]
    Damaged,
    /// Memory ran out.
    #[error("out of memory")]
    NoMemory,
    /// The origin behind this server did not answer.
    #[error("the origin did not answer")]
    Forward,
    /// The head of the request is none (RFC 9112, 3 to 6).
    #[error("the head of the request is malformed")]
    BadHead,
    /// The head of the request has more than 8,192 bytes or more than 64 fields.
    #[error("the head of the request is too large")]
    HeadTooLarge,
    /// The target names nothing that is served.
    #[error("the target names nothing")]
    NoTarget,
    /// Another method than the target takes.
    #[error("the target does not take this method")]
    Method,
    /// A content coding other than `identity`, or a transfer coding other than `chunked`.
    #[error("the body is encoded")]
    Encoded,
    /// The body's chunks are malformed (RFC 9112, 7.1), or a chunk line or the trailer is too long.
    #[error("a chunk of the body is malformed")]
    BadChunk,
    /// A POST says neither a length nor chunks.
    #[error("the body has no length")]
    LengthRequired,
    /// No fragment is kept at this address.
    #[error("the fragment is not kept")]
    NotKept,
    /// Nothing is declared yet.
    #[error("nothing is declared")]
    NoChannel,
    /// As many connections live as may.
    #[error("there are too many connections")]
    TooManyConnections,
}

// How a cause is told.
#[derive(Drop)]
struct Telling {
    number: u16,
    name: &'static str,
    status: u16,
    has_place: bool,
}

fn by(number: u16, name: &'static str, status: u16, has_place: bool) -> Telling
    ensures number { result.number ≡ number }
    ensures name { result.name.now ≡ name.now }
    ensures status { result.status ≡ status }
    ensures place { result.has_place ≡ has_place }
{
    Telling {
        number,
        name,
        status,
        has_place,
    }
}

impl Cause {
    // The table of the causes: a line each.
    fn telling(&self) -> Telling
        ensures { telling result.number result.name.now result.status result.has_place ≡ cause_row self.now }
    {
        match self {
            Cause::BadBox => by(1, "BadBox", 400, true),
            Cause::BoxTooLarge => by(2, "BoxTooLarge", 413, true),
            Cause::OpenEnded => by(3, "OpenEnded", 400, true),
            Cause::NoHeader => by(4, "NoHeader", 400, true),
            Cause::BadLiveManifest { .. } => by(5, "BadLiveManifest", 400, true),
            Cause::BadMoov => by(6, "BadMoov", 400, true),
            Cause::UnknownTrack => by(7, "UnknownTrack", 400, true),
            Cause::NotDeclared { .. } => by(8, "NotDeclared", 409, false),
            Cause::DeclClash { .. } => by(9, "DeclClash", 409, false),
            Cause::Protected => by(10, "Protected", 415, true),
            Cause::ManyTracks => by(11, "ManyTracks", 400, true),
            Cause::ManyRuns => by(12, "ManyRuns", 400, true),
            Cause::BaseOffset => by(13, "BaseOffset", 400, true),
            Cause::NoTime => by(14, "NoTime", 400, true),
            Cause::NoDuration => by(15, "NoDuration", 400, true),
            Cause::NoSamples => by(16, "NoSamples", 400, true),
            Cause::SamplesOutside => by(17, "SamplesOutside", 400, true),
            Cause::NoMdat => by(18, "NoMdat", 400, true),
            Cause::DurationClash { .. } => by(19, "DurationClash", 409, false),
            Cause::Overlap { .. } => by(20, "Overlap", 409, false),
            Cause::CutOff => by(21, "CutOff", 400, true),
            Cause::TimeTooLarge => by(22, "TimeTooLarge", 400, true),
            Cause::TooManySamples => by(23, "TooManySamples", 413, true),
            Cause::BadRun => by(24, "BadRun", 400, true),
            Cause::Full => by(30, "Full", 507, false),
            Cause::DiskFault => by(31, "DiskFault", 503, false),
            Cause::Damaged => by(32, "Damaged", 503, false),
            Cause::NoMemory => by(33, "NoMemory", 500, false),
            Cause::Forward => by(35, "Forward", 503, false),
            Cause::BadHead => by(40, "BadHead", 400, false),
            Cause::HeadTooLarge => by(41, "HeadTooLarge", 431, false),
            Cause::NoTarget => by(42, "NoTarget", 404, false),
            Cause::Method => by(43, "Method", 405, false),
            Cause::Encoded => by(44, "Encoded", 415, false),
            Cause::BadChunk => by(45, "BadChunk", 400, false),
            Cause::LengthRequired => by(46, "LengthRequired", 411, false),
            Cause::NotKept => by(47, "NotKept", 404, false),
            Cause::NoChannel => by(48, "NoChannel", 404, false),
            Cause::TooManyConnections => by(49, "TooManyConnections", 503, false),
        }
    }

    /// The number by which it is told.
    pub fn number(&self) -> u16
        ensures { result ≡ cause_number self.now }
    {
        self.telling().number
    }

    /// The HTTP status of the reply that tells it.
    pub fn status(&self) -> u16
        ensures { result ≡ cause_status self.now }
    {
        self.telling().status
    }

    /// The name by which it is told.
    pub fn name(&self) -> &'static str
        ensures { result.now ≡ cause_name self.now }
    {
        self.telling().name
    }

    /// Whether its line tells a place in the received bytes.
    pub fn has_place(&self) -> bool
        ensures { result ≡ has_place self.now }
    {
        self.telling().has_place
    }
}

/// A cause, and where in the received bytes it stands.
#[derive(Debug, Drop, PartialEq, Eq)]
pub struct Refusal {
    /// In bytes, from 0: the first byte of the box at fault, or the number of bytes where these are cut off. It is 0 with a
    /// cause that has no place.
    pub at: u64,
    pub cause: Cause,
}

// The values that a cause names, each behind a space.
fn put_values(alloc: Global, cause: &Cause) -> Result<String, NoMemory>
    ensures { IfOk result (λ values. string_bytes values ≡ cause_values cause.now) }
{
    Ok(match cause {
        Cause::BadLiveManifest { inside } => format!(in alloc; " inside {inside}")?,
        Cause::NotDeclared { stream, bitrate } => {
            format!(in alloc; " {} {bitrate}", stream.as_str())?
        }
        Cause::DeclClash { stream, bitrate } => {
            format!(in alloc; " {} {bitrate}", stream.as_str())?
        }
        Cause::DurationClash { kept, given } => { format!(in alloc; " kept {kept} given {given}")? }
        Cause::Overlap { end } => format!(in alloc; " end {end}")?,
        _ => String::new(alloc),
    })
}

/// The line that tells a refusal: number, name, the values that the cause names, the place where it has one, and a line
/// feed.
pub fn put_cause(alloc: Global, refusal: &Refusal) -> Result<Bytes, NoMemory>
    ensures { IfOk result (λ line. line ≡ cause_line refusal.now.at refusal.now.cause) }
{
    let number = refusal.cause.number();
    let name = refusal.cause.name();
    let at = refusal.at;
    let values = put_values(alloc, &refusal.cause)?;
    let line = if refusal.cause.has_place() {
        format!(in alloc; "{number} {name}{values} at {at}\n")?
    } else {
        format!(in alloc; "{number} {name}{values}\n")?
    };
    Ok(Bytes::from_vec(line.into_bytes()))
}
