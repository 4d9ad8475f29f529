//! A kept fragment, given.
ghost use Rattle.std.specs.Prelude.{◌≡◌, ◌<◌, ◌^◌, IfOk};
ghost use Rattle.sm_model.specs.Fragments.{IsValid};
ghost use Rattle.sm_model.specs.FragText.{frag_text};
ghost use Rattle.sm_log.specs.Adds.{ahead};
ghost use Rattle.sm_head.specs.declared.reply.Content.TheVariants.{Mp4};
ghost use Rattle.sm_reply.specs.Replies.{ok};
ghost use Rattle.sm_log.specs.Adds.{id_in};

use sm_catalog::Catalog;
use sm_model::{Address, Fragment, NoMemory};
use sm_reply::{Reply, fragment_reply};
use std::alloc::Global;

// The reply that gives a fragment which is kept at that address and place, with up to two listed times ahead.
pub(crate) fn give(
    alloc: Global,
    catalog: &Catalog,
    address: &Address,
    place: u64,
    fragment: &Fragment,
) -> Result<Reply, NoMemory>
    requires valid { IsValid fragment.now }
    requires place { place < 2 ^ 32 }
    ensures { IfOk result (λ reply. reply ≡ ok Mp4 (frag_text place (id_in catalog.now.channel address.now) fragment.now
        (ahead catalog.now.channel catalog.now.adds address.now.stream address.now.time))) }
{
    let channel = catalog.channel();
    let first = catalog.ahead(&address.stream, address.time, 0);
    let second = catalog.ahead(&address.stream, address.time, 1);
    match (first, second) {
        (None, _) => fragment_reply(alloc, channel, address, place, fragment, &[]),
        (Some(first), None) => fragment_reply(alloc, channel, address, place, fragment, &[first]),
        (Some(first), Some(second)) => {
            fragment_reply(alloc, channel, address, place, fragment, &[first, second])
        }
    }
}
