//! The exchanges of an origin on a site.
ghost use Rattle.std.specs.Prelude.{◌≡◌, ◌≤◌, ◌⊎◌, ◌++◌, ◌∷◌, [], Ok, Some, None, OnOk, OnErr, IsErrOf};
ghost use Rattle.sm_fetch.specs.Exchanges.{logged, Rose, IsTurnedTo, IsWithin, untold_peer};
ghost use Rattle.sm_fetch.specs.Origins.{Grows, AnswersFrom};
ghost use Rattle.sm_site.specs.Faults.{is_listed};
ghost use Rattle.sm_world.specs.Answering.{HasCause, answer_for, faults_after};
ghost use Rattle.sm_world.specs.Dialing.{next_number};
ghost use Rattle.sm_world.specs.Later.{IsLater};
ghost use Rattle.sm_world.specs.LaterLaws.{is_later_same, is_later_then};
ghost use Rattle.sm_world.specs.Saying.{SaysOn, StandsAt};
ghost use Rattle.sm_world.specs.declared.acted.Acted.{Acted as Came};

use crate::OriginDial;
use crate::acted::answer_for;
use crate::opening::{Asked, ask};
use sm_fetch::{Answer, Dial, DialError, Exchange};
use sm_model::{Bytes, NoMemory};
use sm_site::Crashing;
use std::alloc::Global;

// Puts an exchange down.
fn note(
    alloc: Global,
    made: &mut Vec<Exchange>,
    request: &[u8],
    limit: u64,
    answer: &Answer,
) -> Result<(), NoMemory>
    ensures ok { OnOk result (made.new.items ≡ made.old.items ++ (record { request = request.now; limit = limit; answer = answer.now }) ∷ []) }
    ensures err { OnErr result (made.new.items ≡ made.old.items) }
{
    let request = Bytes::from_slice(alloc, request)?;
    let answer = answer.copy(alloc)?;
    made.push(Exchange {
        request,
        limit,
        answer,
    })?;
    Ok(())
}

// Puts an exchange down and counts a lost one. One for which there was no memory is neither.
fn told(
    alloc: Global,
    made: &mut Vec<Exchange>,
    faults: &mut u64,
    request: &[u8],
    limit: u64,
    answer: Answer,
) -> Answer
    ensures same { (result ≡ Answer.NoMemory) ⊎ (result ≡ answer) }
    ensures made { Some made.new.items ≡ logged (Some made.old.items) request.now limit result }
    ensures faults { faults.new ≡ faults_after faults.old result }
{
    if matches!(answer, Answer::NoMemory) {
        return Answer::NoMemory;
    }
    match note(alloc, made, request, limit, &answer) {
        Ok(()) => {
            if matches!(answer, Answer::Lost) {
                *faults = faults.saturating_add(1);
            }
            answer
        }
        Err(NoMemory) => Answer::NoMemory,
    }
}

/// It tells its exchanges, and the logs that the origin may have behind it, and not what it is turned to.
impl<S: Crashing> Dial for OriginDial<S> {
    ghost log = { λ d. Some d.1.made };

    ghost dial_faults = { λ d. d.1.faults };

    ghost chosen = { λ d. untold_peer };

    ghost store = { λ d. StandsAt S.Disk.seen d.1.state d.0 };

    /// Nothing that an exchange doesn't do was done: no crash, and no new numbers; and the log only goes on.
    ghost later = { λ d e. IsLater S.Disk.seen d e };

    fn select(&mut self, _host: &str, _port: u16) -> Result<(), DialError>
        ensures chosen { OnOk result (IsTurnedTo untold_peer _host.now _port) }
        ensures log { Some self.new.1.made ≡ Some self.old.1.made }
        ensures later { self.old.1.faults ≤ self.new.1.faults }
        ensures failed { IsErrOf result DialError.Failed → Rose self.old.1.faults self.new.1.faults }
        ensures store { Grows (StandsAt S.Disk.seen self.old.1.state self.old.0) (StandsAt S.Disk.seen self.new.1.state self.new.0) }
        ensures goes_on { IsLater S.Disk.seen self.old self.new }
        ensures always { result ≡ Ok tt }
        ensures same { self.new ≡ self.old }
    {
        Ok(())
    }

    // `Lost` is answered where the number is listed so, once the origin has acted; and otherwise where the store could not be
    // opened because its disk failed, or the link failed before all was served. Else what went out to a GET is a front of the reply of the log of
    // that moment: it tells a disk that failed, or a connection too many, only where this exchange met with it. `NoMemory` is not told, and says
    // nothing of what the origin did.
    fn exchange(&mut self, request: &[u8], limit: u64) -> Answer
        ensures chosen { untold_peer ≡ untold_peer }
        ensures log { Some self.new.1.made ≡ logged (Some self.old.1.made) request.now limit result }
        ensures within { IsWithin limit result }
        ensures later { self.old.1.faults ≤ self.new.1.faults }
        ensures lost { result ≡ Answer.Lost → Rose self.old.1.faults self.new.1.faults }
        ensures store { AnswersFrom (StandsAt S.Disk.seen self.old.1.state self.old.0)
            (StandsAt S.Disk.seen self.new.1.state self.new.0) request.now result }
        ensures faults { self.new.1.faults ≡ faults_after self.old.1.faults result }
        ensures goes_on { IsLater S.Disk.seen self.old self.new }
        ensures answers { (came : Came) × HasCause S.Disk.seen.view self.old.1.state self.old.0 self.new.1.state self.new.0 request.now came
            × SaysOn S.Disk.seen self.old.1.state self.old.0 request.now came self.new.1.state self.new.0
            × ((result ≡ Answer.NoMemory)
            ⊎ (result ≡ answer_for (is_listed (next_number self.old.1) self.old.1.lost) (is_listed (next_number self.old.1) self.old.1.cut) limit came)) }
    {
        let number = self.number();
        let state = self.state.take();
        let Asked { state, acted } = ask(self.alloc, &mut self.site, state, self.limits, request);
        self.state = state;
        let lost = self.lost.contains(number);
        let cut = self.cut.contains(number);
        let answer = answer_for(lost, cut, limit, acted);
        told(
            self.alloc,
            &mut self.made,
            &mut self.faults,
            request,
            limit,
            answer,
        )
    }

    fn pause(&mut self)
        ensures chosen { untold_peer ≡ untold_peer }
        ensures log { Some self.new.1.made ≡ Some self.old.1.made }
        ensures later { self.old.1.faults ≤ self.new.1.faults }
        ensures store { Grows (StandsAt S.Disk.seen self.old.1.state self.old.0) (StandsAt S.Disk.seen self.new.1.state self.new.0) }
        ensures goes_on { IsLater S.Disk.seen self.old self.new }
        ensures same { self.new ≡ self.old }
    {}

    ghost later_same = { λ d. is_later_same S.Disk.seen d };

    ghost later_then = { λ d e f first then. is_later_then S.Disk.seen d e f first then };
}
