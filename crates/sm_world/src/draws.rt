//! Numbers that are drawn.
ghost use Rattle.std.specs.Prelude.{◌≡◌};
ghost use Rattle.sm_world.specs.Rounds.{drawn, stirred};

// What decides a rehearsal: a linear congruential generator of 31 bits, of which each draw gives the upper ones.
#[derive(Clone, Copy, Debug)]
pub(crate) struct Draws {
    pub state: u32,
}

impl Draws {
    /// The next draw, below 32,768.
    pub fn draw(&mut self) -> u32
        ensures state { self.new.state ≡ stirred self.old.state }
        ensures drawn { result ≡ drawn self.new.state }
    {
        let stirred = (self.state as u64 * 1_103_515_245 + 12_345) % (1 << 31);
        self.state = stirred as u32;
        self.state / 65_536
    }
}
