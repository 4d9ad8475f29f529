//! A gate at which two players meet.

use sm_players::Gate;
use std::sync::Arc;
use std::sync::atomic::{AtomicBool, Ordering};
use std::thread;

// How often the other player is looked for.
const TURNS: u32 = 50_000_000;

/// A player raises its flag before its first answer, and waits until the other one has raised its own. One that waits in vain says so.
#[derive(Drop)]
pub struct Meeting {
    pub mine: Arc<AtomicBool>,
    pub other: Arc<AtomicBool>,
    pub missed: Arc<AtomicBool>,
}

impl Meeting {
    fn wait(&self) {
        for _ in 0..TURNS {
            if self.other.load(Ordering::SeqCst) {
                return;
            }
            thread::yield_now();
        }
        self.missed.store(true, Ordering::SeqCst);
    }
}

impl Gate for Meeting {
    fn before(&mut self, call: u64) {
        if call == 1 {
            self.mine.store(true, Ordering::SeqCst);
            self.wait();
        }
    }

    fn after(&mut self, _call: u64) {}
}
