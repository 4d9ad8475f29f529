//! A relay into a store.
ghost use Rattle.std.specs.Prelude.{◌≡◌, ◌<◌, ◌≤◌, ℕ, IfOk, IfErr, IsErrOf, OnErr};
ghost use Rattle.sm_command.specs.declared.fault.StoreFault.TheVariants as fault;
ghost use Rattle.sm_command.specs.Choosing.{IsChosen};
ghost use Rattle.sm_command.specs.Lasting.{IsSilent, KeepsStores};
ghost use Rattle.sm_fetch.specs.Origins.{DialGoesOn};
ghost use Rattle.sm_edge.specs.Opening.{WhyNoEdge};
ghost use Rattle.sm_edge.specs.Relaying.{HasRelayed};
ghost use Rattle.sm_ends.specs.Ended.{end_of};

use crate::opening::{Edge, open_edge};
use sm_archive::{an_image_fits, bodies_have_one_log};
use sm_command::StoreFault;
use sm_ends::Source;
use sm_fetch::Dial;
use sm_model::Channel;
use sm_pull::PullPlan;
use sm_relay::{RelayReport, relay};
use sm_seglog::law::stores_have_one_reading;
use sm_site::{Selection, Site};
use std::alloc::Global;

/// What a relay into a store did.
#[derive(Debug, Drop)]
pub struct StoreRelay {
    pub report: RelayReport,
    /// The channel of the store.
    pub channel: Channel,
}

/// Opens the store of an edge, as `open_edge` does, and pulls into it what an origin lists of the tracks of its channel.
pub fn relay_store<I: Source, S: Site, C: Dial>(
    alloc: Global,
    input: &mut I,
    site: &mut S,
    dial: &mut C,
    selection: Selection,
    host: &str,
    plan: &PullPlan,
) -> Result<StoreRelay, StoreFault>
    requires rounds { 0 < plan.now.rounds }
    requires tries { 0 < plan.now.tries }
    // No other folder is chosen, and no other port.
    ensures chosen { IsChosen result selection (S.Disk.seen.view site.old) (S.Disk.seen.view site.new) }
    ensures relayed { IfOk result (λ r. HasRelayed S.Disk.seen C.log C.store C.later C.dial_faults C.chosen
        (end_of I.left I.faults input.old) (end_of I.left I.faults input.new)
        selection host.now plan.now site.old site.new dial.old dial.new r.channel r.report) }
    ensures why { IfErr result (WhyNoEdge S.Disk.seen (end_of I.left I.faults input.old) (end_of I.left I.faults input.new)
        (C.dial_faults dial.old) (C.dial_faults dial.new) selection site.old site.new) }
    // Where no store was opened, nothing was asked for.
    ensures unasked { OnErr result (C.log dial.new ≡ C.log dial.old) }
    ensures dial { DialGoesOn C.store C.later C.dial_faults dial.old dial.new }
    // The store that was there outlasts the call, and what is no store isn't written, whatever the answer.
    ensures stores { KeepsStores S.Disk.seen site.old site.new ((at : ℕ) × IsErrOf result (fault.NotAStore at)) }
    // Nothing is taken from the site's link, and nothing is sent.
    ensures silent { IsSilent (S.Disk.seen.view site.old) (S.Disk.seen.view site.new) }
    ensures counted { I.faults input.old ≤ I.faults input.new }
{
    an_image_fits::<S>();
    bodies_have_one_log();
    stores_have_one_reading();
    match open_edge(alloc, input, site, dial, selection, host, plan.place.port) {
        Ok(
            Edge {
                mut archive,
                channel,
            },
        ) => {
            let report = relay(alloc, dial, site, &mut archive, plan);
            Ok(StoreRelay { report, channel })
        }
        Err(fault) => Err(fault),
    }
}
