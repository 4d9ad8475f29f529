//! The manifest, given.
ghost use Rattle.std.specs.Prelude.{◌≡◌, IfOk, option_map};
ghost use Rattle.sm_reply.specs.Replies.{catalog_reply};

use crate::refusal::tell;
use crate::reply::{Reply, ok};
use sm_catalog::Catalog;
use sm_head::Content;
use sm_manout::put_manifest;
use sm_model::{Cause, NoMemory};
use std::alloc::Global;

/// The reply to a request for the manifest: that of the catalog ([MS-SSTR] 2.2.2), or 404 where no channel is declared. It
/// keeps the connection.
pub fn manifest_reply(alloc: Global, catalog: Option<&Catalog>) -> Result<Reply, NoMemory>
    ensures { IfOk result (λ reply. reply ≡ catalog_reply (option_map (λ c. c.now) catalog.entry)) }
{
    match catalog {
        None => tell(alloc, Cause::NoChannel),
        Some(catalog) => {
            let text = put_manifest(alloc, catalog)?;
            ok(alloc, Content::Xml, text.as_slice())
        }
    }
}
