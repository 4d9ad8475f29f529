//! The way of a player to the loop.
ghost use Rattle.std.specs.Prelude.{◌≡◌, ◌≤◌, None, IfOk, IsErrOf, OnOk};
ghost use Rattle.sm_site.specs.Clauses.{Rose};
ghost use Rattle.sm_site.specs.Texts.{text_of};
ghost use Rattle.sm_fetch.specs.Exchanges.{IsTurnedTo, logged};
ghost use Rattle.sm_players.specs.Asking.{asked_with};
ghost use Rattle.sm_crew.specs.Forwarding.{host_by, loop_request, HasAsked};

use sm_addr::put_target;
use sm_fetch::{Answer, Dial, DialError};
use sm_model::{Bytes, NoMemory, Target};
use sm_players::{Forward, ForwardError};
use sm_real::{OpenFault, TcpDial};
use std::alloc::Global;

// The most bytes of a reply that are taken: those of the longest fragment.
const LIMIT: u64 = 70_254_592;

// The path that is asked for: any reaches the one channel of a store.
const PATH: &[u8] = b"live";

// The address at which a loop listens that listens at all.
const HERE: &str = "127.0.0.1";

/// A forward that asks the loop at its port over a dial, by one exchange for each target. It tells nothing of what it asked; the dial may.
#[derive(Drop)]
pub struct DialForward<D: Dial + Drop> {
    alloc: Global,
    pub dial: D,
    faults: u64,
}

/// The same over sockets.
pub type LoopForward<R> = DialForward<TcpDial<R>>;

impl<D: Dial + Drop> DialForward<D> {
    /// To a loop at this port, which listens at that address alone or at all of the machine.
    pub fn over(
        dial: D,
        alloc: Global,
        address: &Option<String>,
        port: u16,
    ) -> Result<DialForward<D>, OpenFault>
        ensures turned { IfOk result (λ f. IsTurnedTo (D.chosen f.dial) (host_by (text_of address.now)) port) }
    {
        let mut dial = dial;
        match turn(&mut dial, address, port) {
            Ok(()) => Ok(DialForward {
                alloc,
                dial,
                faults: 0,
            }),
            Err(DialError::NoMemory) => Err(OpenFault::NoMemory),
            Err(DialError::Failed) => Err(OpenFault::Failed),
        }
    }

    // Asks for the target, and for nothing else.
    fn fetch(&mut self, target: &Target) -> Answer
        ensures asks { D.log self.new.dial ≡ logged (D.log self.old.dial) (loop_request target.now) 70254592 result }
        ensures chosen { D.chosen self.new.dial ≡ D.chosen self.old.dial }
        ensures faults { self.new.faults ≡ self.old.faults }
    {
        let Ok(request) = request_for(self.alloc, target) else {
            return Answer::NoMemory;
        };
        self.dial.exchange(&request, LIMIT)
    }
}

// Turns a dial to the loop.
fn turn<D: Dial>(dial: &mut D, address: &Option<String>, port: u16) -> Result<(), DialError>
    ensures { OnOk result (IsTurnedTo (D.chosen dial.new) (host_by (text_of address.now)) port) }
{
    match address {
        Some(address) => dial.select(address.as_str(), port),
        None => dial.select(HERE, port),
    }
}

// A request for a target, behind whose reply the connection closes.
fn request_for(alloc: Global, target: &Target) -> Result<Vec<u8>, NoMemory>
    ensures { IfOk result (λ text. text.items ≡ loop_request target.now) }
{
    let target = put_target(alloc, PATH, target)?;
    let mut text = Vec::new(alloc);
    text.extend_from_slice(b"GET ")?;
    text.extend_from_slice(target.as_slice())?;
    text.extend_from_slice(b" HTTP/1.1\r\nHost: localhost\r\nConnection: close\r\n\r\n")?;
    Ok(text)
}

impl<D: Dial + Drop> Forward for DialForward<D> {
    ghost asked = { λ f. None };

    ghost forward_faults = { λ f. f.faults };

    // The first three are the clauses of the trait, beside which the last says what is asked.
    fn ask(&mut self, target: &Target) -> Result<Bytes, ForwardError>
        ensures asked { None ≡ asked_with None target.now result }
        ensures failed { IsErrOf result ForwardError.Failed → Rose self.old.faults self.new.faults }
        ensures later { self.old.faults ≤ self.new.faults }
        ensures asks { HasAsked (D.log self.old.dial) (D.log self.new.dial) target.now result }
    {
        match self.fetch(target) {
            Answer::Bytes(bytes) => Ok(bytes),
            Answer::NoMemory => Err(ForwardError::NoMemory),
            Answer::Lost => {
                self.faults = self.faults.saturating_add(1);
                Err(ForwardError::Failed)
            }
        }
    }
}
