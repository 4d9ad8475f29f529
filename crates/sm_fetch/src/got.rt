//! What a request for a manifest or a fragment got.
use sm_manin::Listing;
use sm_model::RawFragment;

/// What a request got.
#[derive(Debug, Drop)]
pub enum Got {
    /// A manifest was asked for, and this is what it lists.
    Manifest(Listing),
    /// A fragment was asked for: a valid one, of the time that was asked.
    Fragment(RawFragment),
    /// A whole reply with another status than 200.
    Status(u16),
    /// The front of a reply.
    Cut,
    /// No reply, or a whole 200 whose body isn't what was asked for. `at` counts from the first byte of the answer: it is the
    /// first byte of a head that is bad, else the first one behind the reply's head.
    Unreadable { at: u64 },
    /// The dial failed. Its count of faults says so too.
    Lost,
    NoMemory,
}

/// What a request for a fragment got, and how much came.
#[derive(Debug, Drop)]
pub struct Fetched {
    pub got: Got,
    /// How many bytes came, all of them: heads, body, and what stood behind the reply. 0 where nothing came.
    pub bytes: u64,
}
