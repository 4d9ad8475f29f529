//! What an archive answered, told.
ghost use Rattle.std.specs.Prelude.{◌≡◌, ◌⊎◌, IfOk};
ghost use Rattle.sm_model.specs.declared.cause.Cause.{Cause};
ghost use Rattle.sm_origin.specs.Answers.{IsTold, ToldHeader, ToldFragment};
ghost use Rattle.sm_origin.specs.Giving.{Made};

use sm_archive::{Declared, Keeping};
use sm_model::{Cause, NoMemory};
use sm_reply::{Counted, Reply, silent, starved, tell};
use std::alloc::Global;

// What was made, or the reply that tells want of memory.
pub(crate) fn or_starved(alloc: Global, made: Result<Reply, NoMemory>) -> Reply
    ensures { Made made result }
{
    match made {
        Ok(reply) => reply,
        Err(NoMemory) => starved(alloc),
    }
}

// A refusal, or want of memory for its text.
pub(crate) fn refuse(alloc: Global, cause: Cause) -> Reply
    ensures { IsTold cause result }
{
    match tell(alloc, cause) {
        Ok(reply) => reply,
        Err(NoMemory) => starved(alloc),
    }
}

pub(crate) fn tell_declared(alloc: Global, answer: Declared) -> Reply
    ensures { ToldHeader answer result }
{
    match answer {
        Declared::Fixed | Declared::Agreed => silent(alloc, Counted::Neither),
        Declared::Refused(cause) => refuse(alloc, cause),
        Declared::Full => refuse(alloc, Cause::Full),
        Declared::DiskFault => refuse(alloc, Cause::DiskFault),
        Declared::NoMemory => starved(alloc),
    }
}

pub(crate) fn tell_kept(alloc: Global, answer: Keeping) -> Reply
    ensures { ToldFragment answer result }
{
    match answer {
        Keeping::Kept { place: _ } => silent(alloc, Counted::Kept),
        Keeping::Known { place: _ } => silent(alloc, Counted::Known),
        Keeping::Refused(cause) => refuse(alloc, cause),
        Keeping::Full => refuse(alloc, Cause::Full),
        Keeping::DiskFault => refuse(alloc, Cause::DiskFault),
        Keeping::NoMemory => starved(alloc),
    }
}
