//! The manifest, given.
ghost use Rattle.std.specs.Prelude.{◌≡◌, IfOk};
ghost use Rattle.sm_log.specs.Logs.{channel_of};
ghost use Rattle.sm_reply.specs.Replies.{manifest_reply};
ghost use Rattle.sm_origin.specs.Giving.{OfLog};

use sm_archive::Archive;
use sm_model::NoMemory;
use sm_reply::{Reply, manifest_reply};
use std::alloc::Global;

// The reply to a request for the manifest.
pub(crate) fn list(alloc: Global, archive: &Archive) -> Result<Reply, NoMemory>
    ensures { OfLog archive.now (λ log. IfOk result (λ reply. reply ≡ manifest_reply (channel_of log) log)) }
{
    manifest_reply(alloc, archive.catalog())
}
