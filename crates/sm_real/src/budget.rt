// How much of what a peer sends is handed on at once.
ghost use Rattle.std.specs.Prelude.{◌≡◌, ◌≤◌, ◌<◌, ◌*◌, ◌/◌, max, min};

// The least and the most, in bytes.
const LEAST: usize = 256;

const MOST: usize = 65_536;

// How long a turn of the loop may take before the peer whose piece it was has less, in milliseconds.
const TURN: u128 = 5;

/// How many bytes the next piece of a peer may have. A piece may hold hundreds of requests or fragments, and nobody else is served
/// while the loop is at them: so a peer whose piece took long has less the next time, and one whose piece was soon done has more. What
/// came before shows nothing of what the next piece holds: so it never has more than what is soon done whatever it is.
#[derive(Drop)]
pub struct Budget {
    bytes: usize,
    ghost range: { (256 ≤ bytes) × (bytes ≤ 65536) },
}

impl Budget {
    /// The least.
    pub fn new() -> Budget
        ensures { result.bytes ≡ 256 }
    {
        Budget { bytes: LEAST }
    }

    /// From 256 to so many bytes as are soon done whatever they are, and never above 65,536.
    pub fn bytes(&self, soon: usize) -> usize
        ensures value { result ≡ max 256 (min soon self.now.bytes) }
        ensures least { 256 ≤ result }
        ensures most { result ≤ 65536 }
        ensures soon { 256 ≤ soon → result ≤ soon }
    {
        LEAST.max(soon.min(self.bytes))
    }

    /// A turn of the loop on a piece of this peer took so many milliseconds, where so many bytes were soon done whatever they are.
    pub fn weigh(&mut self, took: u128, soon: usize)
        ensures slow { 5 < took → self.new.bytes ≡ max 256 (max 256 (min soon self.old.bytes) / 2) }
        ensures fast { took ≤ 5 → self.new.bytes ≡ min 65536 (2 * max 256 (min soon self.old.bytes)) }
    {
        let had = self.bytes(soon);
        self.bytes = if took > TURN {
            LEAST.max(had / 2)
        } else {
            MOST.min(2 * had)
        };
    }
}
