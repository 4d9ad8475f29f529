//! A client of a rehearsal.
ghost use Rattle.std.specs.Prelude.{◌≡◌, ◌≤◌, ◌<◌, ◌⊎◌, ◌^◌, ◌%◌, ◌==◌, ℕ, IfOk, IsTrue, codes, false};
ghost use Rattle.sm_site.specs.Faults.{is_listed};
ghost use Rattle.sm_world.specs.Clients.{CameBy, HasPlayed, HaveCome, plan_of};
ghost use Rattle.sm_world.specs.Deeds.{place};
ghost use Rattle.sm_client.specs.Turns.{meant};

use crate::OriginDial;
use crate::header::name;
use sm_client::{End, Names, Plan, play};
use sm_ends::{Calls, MemoryTracks};
use sm_fetch::{Answer, Exchange, Place};
use sm_model::{Bytes, NoMemory};
use sm_policy::Policy;
use sm_site::{MemorySite, Numbers};
use std::alloc::Global;

// Of the exchanges of a client the multiples of this number are lost, and the other multiples of that one are cut.
const LOST: u64 = 5;

const CUT: u64 = 7;

// How often a client asks for one thing, and how many manifests it reads for one start.
const TRIES: u32 = 3;

const REFRESH: u32 = 2;

/// What came of a client: what it wrote, and how many of its exchanges were lost and cut.
#[derive(Drop)]
pub struct Client {
    pub tracks: MemoryTracks,
    pub lost: u64,
    pub cut: u64,
    pub played: u64,
}

// Where the origin is. Its host, its port and its path say nothing to an origin in memory.
pub(crate) fn place(alloc: Global) -> Result<Place, NoMemory>
    ensures { IfOk result (λ p. p ≡ place) }
{
    Ok(Place {
        host: Bytes::from_slice(alloc, b"rehearsal")?,
        port: 80,
        path: Bytes::from_slice(alloc, b"live")?,
    })
}

// The multiples of a number up to the last exchange that a client may make.
fn multiples(alloc: Global, of: u64, most: u64) -> Result<Numbers, NoMemory>
    requires some { 0 < of }
    requires few { most < 2 ^ 32 }
    ensures { IfOk result (λ numbers. (n : ℕ) → 0 < n → n ≤ most → is_listed n numbers ≡ (n % of == 0)) }
{
    let mut numbers = Vec::new(alloc);
    for number in 1..most + 1 {
        if number % of == 0 {
            numbers.push(number)?;
        }
    }
    Ok(Numbers::from_vec(numbers))
}

fn is_lost(answer: &Answer) -> bool
    ensures { IsTrue result → answer.now ≡ Answer.Lost }
{
    match answer {
        Answer::Lost => true,
        Answer::Bytes(_) | Answer::NoMemory => false,
    }
}

fn has_bytes(answer: &Answer) -> bool
    ensures { IsTrue result → CameBy false answer.now }
{
    match answer {
        Answer::Bytes(bytes) => !bytes.as_slice().is_empty(),
        Answer::Lost | Answer::NoMemory => false,
    }
}

// Whether an answer is lost, or some bytes came, as is due.
fn is_due(lost: bool, answer: &Answer) -> bool
    ensures { IsTrue result → CameBy lost answer.now }
{
    if lost {
        is_lost(answer)
    } else {
        has_bytes(answer)
    }
}

// Whether of these exchanges, numbered from 1, those that are to be lost were lost, and no others.
fn have_come(exchanges: &[Exchange]) -> bool
    ensures { IsTrue result → HaveCome 1 exchanges.now }
{
    let mut rest = exchanges;
    let mut number = 1;
    while let [first, more @ ..] = rest {
        if !is_due(number % LOST == 0, &first.answer) {
            return false;
        }
        rest = more;
        number += 1;
    }
    true
}

fn plan(alloc: Global, stream: &[u8], count: u64) -> Result<Plan, NoMemory>
    ensures { IfOk result (λ p. p ≡ plan_of stream.now count) }
{
    let stream = name(alloc, stream)?;
    Ok(Plan {
        place: place(alloc)?,
        streams: Names::from_vec(vec![in alloc; stream]?),
        from: None,
        count,
        tries: TRIES,
        refresh: REFRESH,
    })
}

// Plays a stream of the channel of the encoders with one policy: so many fragments, or only a manifest. A play that doesn't get them all
// is told as want of memory.
pub(crate) fn play_stream(
    alloc: Global,
    dial: &mut OriginDial<MemorySite>,
    policy: Box<dyn Policy>,
    stream: &[u8],
    count: u64,
) -> Result<Client, NoMemory>
    requires few { count ≤ 2000 }
    requires stream { (stream.now ≡ codes "video") ⊎ (stream.now ≡ codes "audio") }
    ensures { IfOk result (HasPlayed (meant pick_after retired_after) policy stream.now count dial.old dial.new) }
{
    let most = (count + 1) * (TRIES as u64 * (REFRESH as u64 + 1));
    dial.renumber(multiples(alloc, LOST, most)?, multiples(alloc, CUT, most)?);
    let before = dial.exchanges().len();
    let plan = plan(alloc, stream, count)?;
    let mut tracks = MemoryTracks::new(alloc, Calls::from_vec(Vec::new(alloc)));
    let report = play(alloc, dial, &mut tracks, vec![in alloc; policy]?, &plan);
    match report.end {
        End::Done => {}
        _ => {
            if count > 0 {
                return Err(NoMemory);
            }
        }
    }
    if report.played != count {
        return Err(NoMemory);
    }
    let more = &dial.exchanges()[before..];
    if !have_come(more) {
        return Err(NoMemory);
    }
    let made = more.len() as u64;
    Ok(Client {
        tracks,
        lost: made / LOST,
        cut: made / CUT - made / (LOST * CUT),
        played: count,
    })
}
