//! The reply to a request.
ghost use Rattle.std.specs.Prelude.{◌≡◌, ◌==◌, ◌||◌, ◌&&◌, ◌+◌, [], ◌∷◌, Some, IfOk};
ghost use Rattle.sm_conn.specs.Parts.{got};
ghost use Rattle.sm_conn.specs.Stands.{items_of};
ghost use Rattle.sm_players.specs.Asking.{HasAsked};
ghost use Rattle.sm_players.specs.Replying.{act_for, refusal, refusal_last, ClosesBehind, IsForwardOr, IsFinalOr, IsAnswer};

use crate::forward::{Forward, ForwardError};
use sm_conn::Part;
use sm_head::{RespFault, RespHead, read_response};
use sm_model::{Act, Bytes, Cause, Framing, NoMemory, Target, Text};
use sm_reply::tell;
use sm_shelf::{ShelfReader, Shown};
use std::alloc::Global;

/// A final reply, and whether the connection closes behind it.
#[derive(Debug, Drop)]
pub struct Final {
    pub text: Text,
    pub close: bool,
}

// The refusal of a cause.
pub(crate) fn refuse(alloc: Global, cause: Cause) -> Result<Final, NoMemory>
    ensures { IfOk result (λ reply. reply ≡ refusal cause) }
{
    let reply = tell(alloc, cause)?;
    Ok(Final {
        text: reply.bytes,
        close: reply.close,
    })
}

// The same, and the connection closes.
fn refuse_last(alloc: Global, cause: Cause) -> Result<Final, NoMemory>
    ensures { IfOk result (λ reply. reply ≡ refusal_last cause) }
{
    let reply = tell(alloc, cause)?;
    Ok(Final {
        text: reply.bytes,
        close: true,
    })
}

// Whether so many bytes are one whole reply of status 200 or 404, whose head has so many and counts so many behind it.
fn is_whole(total: u64, length: u64, status: u16, count: u64) -> bool
    ensures { result ≡ (((status == 200) || (status == 404)) && (length + count == total)) }
{
    (status == 200 || status == 404) && length <= total && total - length == count
}

// Whether the connection closes behind what the loop replied: it does unless that is one whole reply of status 200 or 404.
fn closes(alloc: Global, bytes: &Bytes) -> Result<bool, NoMemory>
    ensures { IfOk result (ClosesBehind bytes.now) }
{
    match read_response(alloc, bytes.as_slice()) {
        Ok(
            RespHead::Whole {
                length,
                status,
                framing: Framing::Counted(count),
            },
        ) => Ok(!is_whole(bytes.len(), length, status, count)),
        Ok(_) | Err(RespFault::Bad) => Ok(true),
        Err(RespFault::NoMemory) => Err(NoMemory),
    }
}

// A reply that the loop gave.
fn brought(alloc: Global, bytes: Bytes) -> Result<Final, NoMemory>
    ensures text { IfOk result (λ reply. reply.text ≡ bytes) }
    ensures close { IfOk result (λ reply. ClosesBehind bytes reply.close) }
{
    let close = closes(alloc, &bytes)?;
    Ok(Final {
        text: Text::whole(alloc, bytes),
        close,
    })
}

// What the loop replies.
fn forwarded<F: Forward>(alloc: Global, forward: &mut F, target: &Target) -> Result<Final, NoMemory>
    ensures { HasAsked (F.asked forward.old) (F.asked forward.new) (F.forward_faults forward.old) (F.forward_faults forward.new)
        (λ asked. IsForwardOr target.now asked result) }
{
    match forward.ask(target) {
        Ok(bytes) => brought(alloc, bytes),
        Err(ForwardError::Failed) => refuse(alloc, Cause::Forward),
        Err(ForwardError::NoMemory) => Err(NoMemory),
    }
}

// The act of a target, if it is one that a shelf answers.
fn act_of(alloc: Global, target: &Target) -> Result<Option<Act>, NoMemory>
    ensures { IfOk result (λ act. act ≡ act_for target.now) }
{
    match target {
        Target::Manifest => Ok(Some(Act::Manifest)),
        Target::Fragment(address) => Ok(Some(Act::Fragment(address.copy(alloc)?))),
        Target::Streams(_) | Target::Unknown => Ok(None),
    }
}

// The reply of a shelf, or of the loop where that forwards.
fn published<F: Forward>(
    alloc: Global,
    forward: &mut F,
    reader: &mut ShelfReader,
    target: &Target,
    act: &Act,
) -> Result<Final, NoMemory>
    requires { act_for target.now ≡ Some act.now }
    ensures { HasAsked (F.asked forward.old) (F.asked forward.new) (F.forward_faults forward.old) (F.forward_faults forward.new)
        (λ asked. IsFinalOr reader.old.seen target.now reader.new.seen asked result) }
{
    match reader.answer(alloc, act) {
        Shown::Reply(text) => Ok(Final { text, close: false }),
        Shown::Forward => forwarded(alloc, forward, target),
        Shown::NoMemory => Err(NoMemory),
    }
}

// The reply to a request for a target.
fn reply_to<F: Forward>(
    alloc: Global,
    forward: &mut F,
    reader: &mut ShelfReader,
    target: &Target,
) -> Result<Final, NoMemory>
    ensures { HasAsked (F.asked forward.old) (F.asked forward.new) (F.forward_faults forward.old) (F.forward_faults forward.new)
        (λ asked. IsFinalOr reader.old.seen target.now reader.new.seen asked result) }
{
    match act_of(alloc, target) {
        Ok(Some(act)) => published(alloc, forward, reader, target, &act),
        Ok(None) => refuse(alloc, Cause::NoTarget),
        Err(NoMemory) => Err(NoMemory),
    }
}

// The same, and whether the connection closes behind it.
fn answered<F: Forward>(
    alloc: Global,
    forward: &mut F,
    reader: &mut ShelfReader,
    target: &Target,
    close: bool,
) -> Result<Final, NoMemory>
    ensures { HasAsked (F.asked forward.old) (F.asked forward.new) (F.forward_faults forward.old) (F.forward_faults forward.new)
        (λ asked. IsAnswer reader.old.seen (got target.now close ∷ []) reader.new.seen asked result) }
{
    match reply_to(alloc, forward, reader, target) {
        Ok(reply) => Ok(Final {
            text: reply.text,
            close: reply.close | close,
        }),
        Err(NoMemory) => Err(NoMemory),
    }
}

// The reply to a part of what a connection sent. A push gets 405, and the connection closes, so that nothing of its body comes.
pub(crate) fn reply_for<F: Forward>(
    alloc: Global,
    forward: &mut F,
    reader: &mut ShelfReader,
    part: Part,
) -> Result<Final, NoMemory>
    ensures { HasAsked (F.asked forward.old) (F.asked forward.new) (F.forward_faults forward.old) (F.forward_faults forward.new)
        (λ asked. IsAnswer reader.old.seen (items_of part) reader.new.seen asked result) }
{
    match part {
        Part::Get { target, close } => answered(alloc, forward, reader, &target, close),
        Part::Post => refuse(alloc, Cause::Method),
        Part::Bad(cause) => refuse_last(alloc, cause),
        Part::Continue | Part::Body(_) | Part::End { close: _ } => Err(NoMemory),
    }
}
