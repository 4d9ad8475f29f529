//! Refusals, told.
ghost use Rattle.std.specs.Prelude.{◌≡◌, IfOk};
ghost use Rattle.sm_reply.specs.Replies.{told, unplaced};

use crate::reply::{Counted, Reply};
use sm_head::{Content, put_response};
use sm_model::{Cause, NoMemory, Refusal, Text, put_cause};
use std::alloc::Global;

/// A refusal as a reply: the status of its cause, and its line. A 404 keeps the connection; all others close it.
pub fn tell_at(alloc: Global, refusal: &Refusal) -> Result<Reply, NoMemory>
    ensures { IfOk result (λ reply. reply ≡ told refusal.now) }
{
    let status = refusal.cause.status();
    let close = status != 404;
    let line = put_cause(alloc, refusal)?;
    let text = put_response(alloc, status, Content::Plain, line.as_slice(), close)?;
    Ok(Reply {
        status,
        bytes: Text::whole(alloc, text),
        close,
        counted: Counted::Neither,
    })
}

/// The same of a cause that has no place in what was read.
pub fn tell(alloc: Global, cause: Cause) -> Result<Reply, NoMemory>
    ensures { IfOk result (λ reply. reply ≡ unplaced cause) }
{
    let refusal = Refusal { at: 0, cause };
    tell_at(alloc, &refusal)
}
