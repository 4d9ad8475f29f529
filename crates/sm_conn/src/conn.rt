//! A connection whose bytes come in pieces.
ghost use Rattle.std.specs.Prelude.{◌≡◌, ◌≤◌, ℕ, Bool, [], ◌++◌, true, List, Ok, Err, IfOk, OnOk, OnErr};
ghost use Rattle.sm_conn.specs.Live.{is_live};
ghost use Rattle.sm_conn.specs.Parts.{PartItem, Mode, in_head, closed, behind_item, behind_head, opening, Reads};
ghost use Rattle.sm_model.specs.declared.framing.Framing.{Framing};
ghost use Rattle.sm_model.specs.declared.target.Target.{Target};

use crate::{Part, Parts};
use sm_body::{Framer, Step};
use sm_head::{HeadFault, ReqHead, Verb, read_request};
use sm_model::{Bytes, Cause, Framing, NoMemory, Target};
use std::alloc::Global;

/// Where a connection stands.
#[derive(Debug, Drop)]
pub enum State {
    /// In a head.
    Head,
    /// In the body of a push, behind whose reply the connection closes or not.
    Body(Framer, bool),
    /// Behind its last part.
    Closed,
}

/// The server's end of a connection, that is given the bytes of the client as they come, cut anywhere, and gives their
/// parts. It keeps the bytes of a head that isn't whole, fewer than 8,192, and none of a body.
///
/// Each piece that comes while a head is open reads that head anew, so at most 8,191 bytes a piece are read again.
#[derive(Debug, Drop)]
pub struct Conn {
    alloc: Global,
    pub state: State,
    /// The bytes of a head that isn't whole.
    pub kept: Vec<u8>,
    pub ghost live: { is_live state ≡ true },
}

impl Conn {
    ghost use Rattle.sm_head.specs.declared.request.ReqHead.{ReqHead};
    ghost use Rattle.sm_head.specs.Requests.{IsReqAnswer};
    ghost use Rattle.sm_conn.specs.declared.conn.State.TheVariants.{Head};
    ghost use Rattle.sm_conn.specs.Stands.{mode_of, mode_at, rank, joined, StandsFor, ActGives};

    /// A connection that was given nothing.
    pub fn new(alloc: Global) -> Result<Conn, NoMemory>
        ensures { IfOk result (λ conn. StandsFor conn [] []) }
    {
        Ok(Conn {
            alloc,
            state: State::Head,
            kept: Vec::new(alloc),
        })
    }

    // Where the connection stands behind an item that closes or not.
    fn behind_item(close: bool) -> State
        ensures leads { mode_at result ≡ behind_item close }
        ensures low { rank result ≡ 0 }
        ensures live { is_live result ≡ true }
    {
        if close { State::Closed } else { State::Head }
    }

    // Where the connection stands behind a head.
    fn behind_head(method: Verb, framing: Framing, close: bool) -> State
        ensures leads { (target : Target) (expects : Bool)
            → mode_at result ≡ behind_head (record { method = method; target = target; framing = framing; close = close; expects = expects }) }
        ensures low { rank result ≤ 1 }
        ensures live { is_live result ≡ true }
    {
        match method {
            Verb::Get => Conn::behind_item(close),
            Verb::Post => State::Body(Framer::new(framing), close),
        }
    }

    // Gives the parts of a head by itself.
    fn open(
        parts: &mut Vec<Part>,
        method: Verb,
        target: Target,
        close: bool,
        expects: bool,
    ) -> Result<(), NoMemory>
        ensures { OnOk result ((framing : Framing) → joined parts.new.items
            ≡ joined parts.old.items ++ opening (record { method = method; target = target; framing = framing; close = close; expects = expects })) }
    {
        match method {
            Verb::Get => parts.push(Part::Get { target, close })?,
            Verb::Post => {
                if expects {
                    parts.push(Part::Continue)?;
                }
                parts.push(Part::Post)?;
            }
        }
        Ok(())
    }

    fn refuse(
        &mut self,
        parts: &mut Vec<Part>,
        bytes: &[u8],
        fault: HeadFault,
    ) -> Result<Option<usize>, NoMemory>
        requires stands { self.old.state ≡ Head }
        requires read { IsReqAnswer bytes.now (Err fault) }
        ensures { IfOk result (λ used. ActGives self.old.state bytes.now (joined parts.old.items) used self.new (joined parts.new.items)) }
    {
        match fault {
            HeadFault::Refused(cause) => {
                parts.push(Part::Bad(cause))?;
                self.state = State::Closed;
                Ok(None)
            }
            HeadFault::NoMemory => Err(NoMemory),
        }
    }

    fn take_head(
        &mut self,
        parts: &mut Vec<Part>,
        bytes: &[u8],
        head: ReqHead,
    ) -> Result<Option<usize>, NoMemory>
        requires stands { self.old.state ≡ Head }
        requires read { IsReqAnswer bytes.now (Ok head) }
        ensures { IfOk result (λ used. ActGives self.old.state bytes.now (joined parts.old.items) used self.new (joined parts.new.items)) }
    {
        match head {
            ReqHead::Whole {
                length,
                method,
                target,
                framing,
                close,
                expects,
            } => {
                Conn::open(parts, method, target, close, expects)?;
                self.state = Conn::behind_head(method, framing, close);
                Ok(Some(length as usize))
            }
            ReqHead::Partial => {
                self.kept = bytes.to_vec(self.alloc)?;
                Ok(None)
            }
        }
    }

    // Reads a head, or some bytes of a body.
    fn act(&mut self, parts: &mut Vec<Part>, bytes: &[u8]) -> Result<Option<usize>, NoMemory>
        ensures { IfOk result (λ used. ActGives self.old.state bytes.now (joined parts.old.items) used self.new (joined parts.new.items)) }
    {
        match &mut self.state {
            State::Closed => Ok(None),
            State::Body(framer, close) => match framer.step(bytes) {
                Step::Skip(count) => Ok(Some(count)),
                Step::Body(count) => {
                    parts.push(Part::Body(Bytes::from_slice(self.alloc, &bytes[..count])?))?;
                    Ok(Some(count))
                }
                Step::End(count) => {
                    let close = *close;
                    parts.push(Part::End { close })?;
                    self.state = Conn::behind_item(close);
                    Ok(Some(count))
                }
                Step::More => Ok(None),
                Step::Bad => {
                    self.state = State::Closed;
                    parts.push(Part::Bad(Cause::BadChunk))?;
                    Ok(None)
                }
            },
            State::Head => {
                // Behind a request mostly nothing follows yet.
                if bytes.is_empty() {
                    self.kept.clear();
                    return Ok(None);
                }
                match read_request(self.alloc, bytes) {
                    Ok(head) => self.take_head(parts, bytes, head),
                    Err(fault) => self.refuse(parts, bytes, fault),
                }
            }
        }
    }

    // Reads bytes that begin where the connection stands, with none kept.
    fn read_all(&mut self, bytes: &[u8]) -> Result<Parts, NoMemory>
        ensures { IfOk result (λ parts. Reads (mode_at self.old.state) bytes.now (joined parts) (mode_of self.new)) }
    {
        let mut parts = Vec::new(self.alloc);
        let mut at = 0;
        loop {
            match self.act(&mut parts, &bytes[at..])? {
                Some(used) => at += used,
                None => return Ok(Parts::from_vec(parts)),
            }
        }
    }

    fn read_piece(&mut self, piece: &[u8]) -> Result<Parts, NoMemory>
        ensures { IfOk result (λ parts. Reads (mode_of self.old) piece.now (joined parts) (mode_of self.new)) }
    {
        match self.state {
            State::Head if !self.kept.is_empty() => {
                let mut bytes = self.kept.as_slice().to_vec(self.alloc)?;
                bytes.extend_from_slice(piece)?;
                self.read_all(bytes.as_slice())
            }
            State::Head | State::Body(..) | State::Closed => self.read_all(piece),
        }
    }

    /// Takes the next piece, and gives the parts that the bytes have now beyond those that they had. Neighbouring `Body` parts
    /// are one, cut anywhere. After `Bad`, after a part that closes, and after want of memory it gives no further part.
    pub fn feed(&mut self, piece: &[u8]) -> Result<Parts, NoMemory>
        ensures reads { IfOk result (λ parts. Reads (mode_of self.old) piece.now (joined parts) (mode_of self.new)) }
        ensures stands { IfOk result (λ parts. (bytes : List ℕ) (items : List PartItem) → StandsFor self.old bytes items
            → StandsFor self.new (bytes ++ piece.now) (items ++ joined parts)) }
        ensures closes { OnErr result (mode_of self.new ≡ closed) }
    {
        match self.read_piece(piece) {
            Ok(parts) => Ok(parts),
            Err(error) => {
                self.state = State::Closed;
                Err(error)
            }
        }
    }
}
