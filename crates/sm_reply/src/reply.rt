//! What an act answers.
ghost use Rattle.std.specs.Prelude.{◌≡◌, ◌==◌, [], IfOk};
ghost use Rattle.sm_reply.specs.Replies.{ok, silent, no_memory};

use sm_head::{Content, put_response};
use sm_model::{Bytes, NoMemory, Text};
use std::alloc::Global;

/// How the end of a push counts an act.
#[derive(Clone, Copy, Debug, PartialEq, Eq)]
pub enum Counted {
    /// A fragment that is kept now.
    Kept,
    /// A fragment whose address was kept before.
    Known,
    /// Anything else.
    Neither,
}

/// What an act answers.
#[derive(Debug, Drop)]
pub struct Reply {
    /// The status of the reply (RFC 9110, section 15); 0 where nothing is said, which is the answer to a header or a fragment that was
    /// accepted.
    pub status: u16,
    /// The whole reply, whose body may be shared with others; no bytes at the statuses 0 and 500. What tells 500 stands ready as `NO_MEMORY` of `sm_head`.
    pub bytes: Text,
    /// Whether the connection is closed behind it.
    pub close: bool,
    /// How the end of a push counts it.
    pub counted: Counted,
}

impl Reply {
    /// Whether nothing is said, and the connection goes on.
    pub fn is_silent(&self) -> bool
        ensures { result ≡ (self.now.status == 0) }
    {
        self.status == 0
    }

    /// Whether it tells a want of memory, for which a text stands ready.
    pub fn is_starved(&self) -> bool
        ensures { result ≡ (self.now.status == 500) }
    {
        self.status == 500
    }
}

fn nothing(alloc: Global) -> Text
    ensures { result ≡ [] }
{
    Text::whole(alloc, Bytes::from_vec(Vec::new(alloc)))
}

/// The answer of a want of memory: 500, no bytes, and the connection closes. It takes none.
pub fn starved(alloc: Global) -> Reply
    ensures { result ≡ no_memory }
{
    Reply {
        status: 500,
        bytes: nothing(alloc),
        close: true,
        counted: Counted::Neither,
    }
}

/// Nothing is said, and the connection goes on. It takes no memory.
pub fn silent(alloc: Global, counted: Counted) -> Reply
    ensures { result ≡ silent counted }
{
    Reply {
        status: 0,
        bytes: nothing(alloc),
        close: false,
        counted,
    }
}

/// A body that is there, with the status 200. The connection goes on.
pub fn ok(alloc: Global, kind: Content, body: &[u8]) -> Result<Reply, NoMemory>
    ensures { IfOk result (λ reply. reply ≡ ok kind body.now) }
{
    Ok(Reply {
        status: 200,
        bytes: Text::whole(alloc, put_response(alloc, 200, kind, body, false)?),
        close: false,
        counted: Counted::Neither,
    })
}
