//! What a player passes at each request.

/// What a player passes at each request that it answers. A test may hold a player there; the gate of the program does nothing.
pub trait Gate {
    /// It is called before a player answers its request of this number, counted from 1. The count stands still at its type's end.
    fn before(&mut self, call: u64);

    /// It is called behind the reply to that request.
    fn after(&mut self, call: u64);
}

/// The gate of the program, which holds nobody.
#[derive(Debug, Drop)]
pub struct NoGate;

impl Gate for NoGate {
    fn before(&mut self, _call: u64) {}

    fn after(&mut self, _call: u64) {}
}
