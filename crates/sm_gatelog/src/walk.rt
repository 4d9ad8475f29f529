//! Walking the records of a file.
ghost use Rattle.std.specs.Prelude.{◌≡◌, ◌≢◌, ℕ, ◌+◌, ◌<◌, ◌≤◌, ◌^◌, length, take, drop, IfSome, IfOk, IsErrOf, OnOk};
ghost use Rattle.sm_model.specs.Numbers.{number32, number32_at};
ghost use Rattle.sm_site.specs.Image.{bytes_of};
ghost use Rattle.sm_site.specs.Clauses.{read};
ghost use Rattle.sm_gatelog.specs.Files.{alike, IsFresh, IsHeaded, NotALog};
ghost use Rattle.sm_gatelog.specs.Logs.{Begins, Reads, GatesFit};
ghost use Rattle.sm_gatelog.specs.Moments.{Asks, FailsFor, Looks};

use crate::log::FIRST_GATE;
use crate::window::{Window, blank_window, fill, front_at};
use crate::{LogFault, Slot};
use sm_site::{Disk, Failed};
use std::alloc::Global;

/// What stands where a record may begin.
#[derive(Clone, Copy)]
pub enum Found {
    /// A closed gate.
    Closed,
    /// A record with a body of so many bytes.
    Open(u32),
    /// Neither.
    Bad,
}

// A walk to its end: where the bodies stand, and the place of the closed gate.
#[derive(Drop)]
pub(crate) struct Ended {
    pub(crate) slots: Vec<Slot>,
    pub(crate) end: u64,
}

// The length that stands behind a gate.
#[tactic(auto, unfolding(sm_model::specs::Numbers::number32_at))]
fn length_in(front: &[u8]) -> u32
    requires { length front.now ≡ 5 }
    ensures number { result ≡ number32_at 1 front.now }
    ensures text { number32 result ≡ take 4 (drop 1 front.now) }
{
    let (_, rest) = front.split_at(1);
    let (four, _) = rest.split_at(4);
    u32::from_be_bytes([four[0], four[1], four[2], four[3]])
}

// What begins at a place of a file of this size.
fn record_at<D: Disk>(
    window: &mut Window,
    disk: &mut D,
    file: u32,
    size: u64,
    at: u64,
) -> Result<Found, Failed>
    requires size { IfSome (D.seen.view disk.old).contents (λ c. size ≡ length (bytes_of c file)) }
    requires within { at ≤ size }
    requires five { 5 ≤ length window.old.bytes.items }
    requires told { IfSome (D.seen.view disk.old).contents (λ c. window.old.bytes.items ≡ read (bytes_of c file) window.old.start (length window.old.bytes.items)) }
    ensures found { IfOk result (λ found. IfSome (D.seen.view disk.old).contents (λ c. Begins found (drop at (bytes_of c file)))) }
    ensures five { 5 ≤ length window.new.bytes.items }
    ensures told { IfOk result (λ found. IfSome (D.seen.view disk.old).contents
        (λ c. window.new.bytes.items ≡ read (bytes_of c file) window.new.start (length window.new.bytes.items))) }
    ensures fits { IfOk result (λ found. (n : ℕ) → found ≡ Found.Open n → at + 5 + n ≤ size) }
    ensures asks { Asks D.seen disk.old disk.new result }
{
    if at == size {
        return Ok(Found::Bad);
    }
    let front = front_at(window, disk, file, at)?;
    if front[0] == 0 {
        return Ok(Found::Closed);
    }
    let length = length_in(&front);
    if size - at < 5 || length == 0 || size - at - 5 < length as u64 {
        return Ok(Found::Bad);
    }
    Ok(Found::Open(length))
}

pub(crate) fn walk<D: Disk>(
    alloc: Global,
    disk: &mut D,
    file: u32,
    size: u64,
) -> Result<Ended, LogFault>
    requires size { IfSome (D.seen.view disk.old).contents (λ c. size ≡ length (bytes_of c file)) }
    requires small { size < 2 ^ 63 }
    requires long { 13 ≤ size }
    requires headed { IfSome (D.seen.view disk.old).contents (λ c. IsHeaded (bytes_of c file)) }
    ensures reads { IfOk result (λ walk. IfSome (D.seen.view disk.old).contents (λ c. Reads walk.slots.items walk.end (bytes_of c file))) }
    ensures sound { IfOk result (λ walk. GatesFit walk.slots.items walk.end) }
    ensures not_a_log { (at : ℕ) → IsErrOf result (LogFault.NotAStore at) → IfSome (D.seen.view disk.old).contents (λ c. NotALog at (bytes_of c file)) }
    ensures looks { Looks D.seen disk.old disk.new }
    ensures cause { FailsFor LogFault.DiskFault (D.seen.view disk.old) (D.seen.view disk.new) result }
{
    let mut slots = Vec::new(alloc);
    let mut at = FIRST_GATE;
    let mut window = blank_window(alloc)?;
    fill(&mut window, disk, file, at)?;
    'records: loop {
        match record_at(&mut window, disk, file, size, at)? {
            Found::Closed => return Ok(Ended { slots, end: at }),
            Found::Bad => return Err(LogFault::NotAStore { at }),
            Found::Open(length) => {
                slots.push(Slot { gate: at, length })?;
                at += 5 + length as u64;
            }
        }
    }
}

// How many bytes the two begin with alike.
fn alike(xs: &[u8], ys: &[u8]) -> usize
    ensures { result ≡ alike xs.now ys.now }
{
    let mut i = 0;
    while i < xs.len() && i < ys.len() && xs[i] == ys[i] {
        i += 1;
    }
    i
}

// The first byte that isn't as in every log.
pub(crate) fn check_head<D: Disk>(disk: &mut D, file: u32, size: u64) -> Result<(), LogFault>
    requires size { IfSome (D.seen.view disk.old).contents (λ c. size ≡ length (bytes_of c file)) }
    requires not_fresh { IfSome (D.seen.view disk.old).contents (λ c. IsFresh (bytes_of c file) → ⊥) }
    ensures long { OnOk result (13 ≤ size) }
    ensures headed { OnOk result (IfSome (D.seen.view disk.old).contents (λ c. IsHeaded (bytes_of c file))) }
    ensures not_a_log { (at : ℕ) → IsErrOf result (LogFault.NotAStore at) → IfSome (D.seen.view disk.old).contents (λ c. NotALog at (bytes_of c file)) }
    ensures memory { result ≢ Err LogFault.NoMemory }
    ensures looks { Looks D.seen disk.old disk.new }
    ensures cause { FailsFor LogFault.DiskFault (D.seen.view disk.old) (D.seen.view disk.new) result }
{
    let mut front = [0; 13];
    disk.read_at(file, 0, &mut front)?;
    let known = size.max(1).min(FIRST_GATE) as usize;
    let same = alike(&front[1..known], b"SSLOG\r\n\x1a\0\0\0\x01");
    if same < 12 {
        return Err(LogFault::NotAStore {
            at: 1 + same as u64,
        });
    }
    Ok(())
}
