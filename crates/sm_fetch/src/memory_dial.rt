//! A dial in memory.
ghost use Rattle.std.specs.Prelude.{◌≡◌, ◌≢◌, ◌≤◌, ◌++◌, [], ◌∷◌, Some, None, Ok, OnOk, OnErr, IsErrOf, take};
ghost use Rattle.sm_fetch.specs.Exchanges.{logged, Rose, IsTurnedTo, IsWithin, untold_peer};
ghost use Rattle.sm_fetch.specs.Memory.{DialState, one_more, cut_at, coming_at, rest_of, made_one, passed_one};
ghost use Rattle.sm_fetch.specs.MemoryLaws.{no_fewer, no_fewer_then};
ghost use Rattle.sm_fetch.specs.Origins.{Untold, Grows, AnswersFrom};

use crate::{Answer, Answers, Dial, DialError, Exchange, Given};
use sm_model::{Bytes, NoMemory};
use std::alloc::Global;
use std::marker::Model;

/// Gives answers that lie in memory, one at each exchange and cut at its limit, and notes the exchanges. A lost one, and
/// every exchange behind the last answer, is lost. It tells no store, and not what it
/// is turned to.
#[derive(Drop)]
pub struct MemoryDial {
    alloc: Global,
    // The last one comes next.
    coming: Vec<Given>,
    made: Vec<Exchange>,
    faults: u64,
    pauses: u64,
}

impl Model for MemoryDial {
    ghost use Rattle.std.specs.Prelude.{reverse};
    ghost use Rattle.sm_fetch.specs.Memory.{DialState};

    ghost Value = { DialState };

    ghost view = { λ d. record { made = d.made.items; faults = d.faults; pauses = d.pauses; coming = reverse d.coming.items } };
}

impl MemoryDial {
    /// A dial that was asked nothing, with the answers that it will give.
    pub fn new(alloc: Global, answers: Answers) -> MemoryDial
        ensures { result ≡ record { made = []; faults = 0; pauses = 0; coming = answers } }
    {
        let mut coming = answers.into_vec();
        coming.reverse();
        MemoryDial {
            alloc,
            coming,
            made: Vec::new(alloc),
            faults: 0,
            pauses: 0,
        }
    }

    /// The exchanges so far, but for those that wanted memory.
    pub fn exchanges(&self) -> &[Exchange]
        ensures { result.now ≡ self.now.made }
    {
        &self.made
    }

    /// How often it has failed.
    pub fn faults(&self) -> u64
        ensures { result ≡ self.now.faults }
    {
        self.faults
    }

    /// How often it was asked to pause. The count stands still at 2^64 - 1.
    pub fn pauses(&self) -> u64
        ensures { result ≡ self.now.pauses }
    {
        self.pauses
    }
}

// The reply, cut at the limit.
fn cut_at(limit: u64, given: Given) -> Answer
    ensures { result ≡ cut_at limit given }
{
    match given {
        Given::Bytes(mut bytes) => {
            if bytes.len() > limit {
                bytes.truncate(limit as usize);
            }
            Answer::Bytes(bytes)
        }
        Given::Lost => Answer::Lost,
    }
}

fn note(
    alloc: Global,
    made: &mut Vec<Exchange>,
    request: &[u8],
    limit: u64,
    answer: &Answer,
) -> Result<(), NoMemory>
    ensures ok { OnOk result (made.new.items ≡ made.old.items ++ (record { request = request.now; limit = limit; answer = answer.now }) ∷ []) }
    ensures err { OnErr result (made.new.items ≡ made.old.items) }
{
    let request = Bytes::from_slice(alloc, request)?;
    let answer = answer.copy(alloc)?;
    made.push(Exchange {
        request,
        limit,
        answer,
    })?;
    Ok(())
}

impl Dial for MemoryDial {
    ghost log = { λ d. Some d.made };

    ghost dial_faults = { λ d. d.faults };

    ghost store = { λ d. Untold };

    ghost chosen = { λ d. untold_peer };

    /// It was asked to pause no less often.
    ghost later = { λ d e. d.pauses ≤ e.pauses };

    ghost later_same = { λ d. no_fewer d.pauses };

    ghost later_then = { λ d e f. no_fewer_then d.pauses e.pauses f.pauses };

    fn select(&mut self, _host: &str, _port: u16) -> Result<(), DialError>
        ensures chosen { OnOk result (IsTurnedTo untold_peer _host.now _port) }
        ensures log { Some self.new.made ≡ Some self.old.made }
        ensures later { self.old.faults ≤ self.new.faults }
        ensures goes_on { self.old.pauses ≤ self.new.pauses }
        ensures failed { IsErrOf result DialError.Failed → Rose self.old.faults self.new.faults }
        ensures store { Grows Untold Untold }

        ensures always { result ≡ Ok tt }
        ensures same { self.new ≡ self.old }
    {
        Ok(())
    }

    fn exchange(&mut self, request: &[u8], limit: u64) -> Answer
        ensures chosen { untold_peer ≡ untold_peer }
        ensures log { Some self.new.made ≡ logged (Some self.old.made) request.now limit result }
        ensures within { IsWithin limit result }
        ensures later { self.old.faults ≤ self.new.faults }
        ensures goes_on { self.old.pauses ≤ self.new.pauses }
        ensures lost { result ≡ Answer.Lost → Rose self.old.faults self.new.faults }
        ensures store { AnswersFrom Untold Untold request.now result }

        ensures gives { result ≢ Answer.NoMemory → result ≡ coming_at limit self.old.coming }
        ensures made { result ≢ Answer.NoMemory → self.new ≡ made_one self.old request.now limit }
        ensures passed { result ≡ Answer.NoMemory → self.new ≡ passed_one self.old }
    {
        let answer = match self.coming.pop() {
            Some(given) => cut_at(limit, given),
            None => Answer::Lost,
        };
        if note(self.alloc, &mut self.made, request, limit, &answer).is_err() {
            return Answer::NoMemory;
        }
        match answer {
            Answer::Lost => {
                self.faults = self.faults.saturating_add(1);
                Answer::Lost
            }
            Answer::Bytes(bytes) => Answer::Bytes(bytes),
            Answer::NoMemory => Answer::NoMemory,
        }
    }

    fn pause(&mut self)
        ensures chosen { untold_peer ≡ untold_peer }
        ensures log { Some self.new.made ≡ Some self.old.made }
        ensures later { self.old.faults ≤ self.new.faults }
        ensures goes_on { self.old.pauses ≤ self.new.pauses }
        ensures store { Grows Untold Untold }

        ensures counted { self.new ≡ record self.old { pauses = one_more self.old.pauses } }
    {
        self.pauses = self.pauses.saturating_add(1);
    }
}
