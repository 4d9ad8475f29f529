//! What causes say to people.
ghost use Rattle.std.specs.Prelude.{◌≡◌};
ghost use Rattle.sm_pick.specs.Sentences.{sentence_of};

use sm_model::Cause;

/// The sentence behind the line of a cause.
pub fn sentence(cause: &Cause) -> &'static str
    ensures { result.now ≡ sentence_of cause.now }
{
    match cause {
        Cause::BadBox => "A box is cut, missing, doubled, or of another length than it says.",
        Cause::BoxTooLarge =>
            "A box is too large: a moof may have 2,097,152 bytes, a moov or live manifest box 1,048,576, the body of an mdat 67,108,864.",
        Cause::OpenEnded => "A box has a size of 0 and so no end: each box needs its size.",
        Cause::NoHeader => "The header is missing, or a fragment comes before it is complete.",
        Cause::BadLiveManifest { .. } =>
            "The text of the live manifest is malformed, or lacks what is read of a track.",
        Cause::BadMoov => "The moov is malformed, or lacks a track of the live manifest.",
        Cause::UnknownTrack => "A fragment has a track_ID that the header does not name.",
        Cause::NotDeclared { .. } =>
            "The event, or the header that was given, has no track of this name and bitrate.",
        Cause::DeclClash { .. } =>
            "The event has a track of this name and bitrate with other values, and the first header stays.",
        Cause::Protected => "The samples are encrypted, which is not supported.",
        Cause::ManyTracks => "A moof has a second traf: each fragment needs a moof of its own.",
        Cause::ManyRuns => "A traf has a second trun: the samples of a fragment are one run.",
        Cause::BaseOffset =>
            "A tfhd has a base data offset: places need to count from the start of the moof.",
        Cause::NoTime => "A fragment has no tfxd box, which says its time and duration.",
        Cause::NoDuration => "A tfxd says a duration of 0.",
        Cause::NoSamples => "A fragment has no samples.",
        Cause::SamplesOutside => "The samples of a fragment do not lie inside the mdat behind it.",
        Cause::NoMdat => "A moof is not followed by its mdat.",
        Cause::DurationClash { .. } =>
            "A fragment with this time is kept with another duration, and stays.",
        Cause::Overlap { .. } => "A fragment that is kept overlaps this one, and stays.",
        Cause::CutOff => "The input ends inside a box, or between a moof and its mdat.",
        Cause::TimeTooLarge => "A fragment ends later than 2^63 - 1 ticks.",
        Cause::TooManySamples => "A fragment has more than 65,536 samples.",
        Cause::BadRun =>
            "A trun has another length than its flags and its count give, or a version above 1.",
        Cause::Full => "A limit is met: the store's bytes, its entries, or a stream's times.",
        Cause::DiskFault => "The system refused a call on the files of the store.",
        Cause::Damaged => "What was read of the store is not what was written there.",
        Cause::NoMemory => "There was not enough memory.",
        Cause::Forward => "The origin behind this one did not answer.",
        Cause::BadHead => "The head of the request is malformed.",
        Cause::HeadTooLarge =>
            "The head of the request has more than 8,192 bytes or more than 64 fields.",
        Cause::NoTarget => "Nothing is served at this address.",
        Cause::Method => "Nothing at this address takes this method.",
        Cause::Encoded => "The body is encoded: it has to come as it is, whole or in chunks.",
        Cause::BadChunk => "A chunk of the body is malformed.",
        Cause::LengthRequired => "The request says no length of its body, and is not in chunks.",
        Cause::NotKept => "No fragment has this address.",
        Cause::NoChannel => "No header has come yet.",
        Cause::TooManyConnections => "There are as many connections as the origin takes.",
    }
}
