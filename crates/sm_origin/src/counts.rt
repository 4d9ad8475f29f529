//! The end of a push, told.
ghost use Rattle.std.specs.Prelude.{◌≡◌, IfOk};
ghost use Rattle.sm_head.specs.declared.reply.Content.TheVariants.{Plain};
ghost use Rattle.sm_reply.specs.Replies.{ok, counts_line};

use sm_head::Content;
use sm_model::NoMemory;
use sm_reply::{Reply, ok};
use std::alloc::Global;

// The two counts of a push that has ended.
pub(crate) fn tell_counts(alloc: Global, kept: u64, known: u64) -> Result<Reply, NoMemory>
    ensures { IfOk result (λ reply. reply ≡ ok Plain (counts_line kept known)) }
{
    let line = format!(in alloc; "kept {kept} known {known}\n")?;
    ok(alloc, Content::Plain, line.as_bytes())
}
