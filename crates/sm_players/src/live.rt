//! The live connections of a player.
ghost use Rattle.std.specs.Prelude.{◌≡◌, ◌≢◌, ◌<◌, [], ◌∷◌, ◌++◌, ℕ, length, OnOk, OnErr, IfSome, IfNone, slice_index};
ghost use Rattle.sm_players.specs.Open.{numbers_of, IsNewborn, Forgets};

use sm_conn::Conn;
use sm_model::NoMemory;
use std::alloc::Global;

/// A live connection, and what it has sent.
#[derive(Drop)]
pub struct Live {
    pub number: u64,
    pub conn: Conn,
}

// The place of a connection.
pub(crate) fn find(lives: &[Live], number: u64) -> Option<usize>
    ensures found { IfSome result (λ i. (i < length lives.now) × (slice_index (numbers_of lives.now) i ≡ number)) }
    ensures missing { IfNone result ((k : ℕ) → k < length lives.now → slice_index (numbers_of lives.now) k ≢ number) }
{
    for (i, live) in lives.iter().enumerate() {
        if live.number == number {
            return Some(i);
        }
    }
    None
}

// Puts in a connection that has sent nothing.
pub(crate) fn admit(alloc: Global, lives: &mut Vec<Live>, number: u64) -> Result<(), NoMemory>
    ensures admitted { OnOk result ((new : Live) × IsNewborn number new × (lives.new.items ≡ lives.old.items ++ new ∷ [])) }
    ensures refused { OnErr result (lives.new.items ≡ lives.old.items) }
{
    let conn = Conn::new(alloc)?;
    lives.push(Live { number, conn })?;
    Ok(())
}

// Forgets a connection that the peer closed.
pub(crate) fn forget(lives: &mut Vec<Live>, number: u64)
    ensures { Forgets number lives.old.items lives.new.items }
{
    match find(lives, number) {
        Some(i) => {
            lives.remove(i);
        }
        None => {}
    }
}
