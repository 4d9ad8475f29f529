//! The commands that pull into a store.
ghost use Rattle.std.specs.Prelude.{◌≡◌, ◌≤◌, ℕ, List, IfOk, OnErr, slice_get};
ghost use Rattle.sm_command.specs.Lasting.{IsSilent, KeepsStores};
ghost use Rattle.sm_fetch.specs.Origins.{DialGoesOn};
ghost use Rattle.sm_words.specs.Orders.{IsPullable, pulling_of};
ghost use Rattle.sm_tool.specs.declared.answer.Answer.TheVariants as answers;
ghost use Rattle.sm_tool.specs.Edges.{HasFollowLine, HasRelayLine, RelayMeans, StandbyMeans, TellsFollow, TellsRelay, at_edge, dialing};
ghost use Rattle.sm_tool.specs.Edges.{followed_line, gap_line, no_track_line, other_id_line, relayed_line};
ghost use Rattle.sm_tool.specs.Stores.{IsSelected};
ghost use Rattle.sm_ends.specs.Ended.{end_of};

use crate::answer::Answer;
use crate::misses::{gave_up_line, no_manifest_line};
use crate::stores::{clash_line, or_starved, refused};
use sm_edge::{StoreFollow, StoreRelay, follow_store, relay_store};
use sm_ends::Source;
use sm_fetch::Dial;
use sm_model::{Address, Bytes, Channel, NoMemory};
use sm_pull::PullPlan;
use sm_relay::{RelayEnd, RelayReport};
use sm_site::{Selection, Site};
use sm_standby::{FollowEnd, FollowReport};
use sm_words::EdgeOrder;
use std::alloc::Global;

fn relayed_line(alloc: Global, kept: u64) -> Result<Bytes, NoMemory>
    ensures { IfOk result (λ line. line ≡ relayed_line kept) }
{
    let line = format!(in alloc; "relayed {kept}\n")?;
    Ok(Bytes::from_vec(line.into_bytes()))
}

fn followed_line(alloc: Global, kept: u64) -> Result<Bytes, NoMemory>
    ensures { IfOk result (λ line. line ≡ followed_line kept) }
{
    let line = format!(in alloc; "followed {kept}\n")?;
    Ok(Bytes::from_vec(line.into_bytes()))
}

fn gap_line(alloc: Global, place: u64, next: u64) -> Result<Bytes, NoMemory>
    ensures { IfOk result (λ line. line ≡ gap_line place next) }
{
    let line = format!(in alloc;
        "error: Gap {place} {next}\nThe primary lists nothing for the first of these places of its log, and something for the second.\n"
    )?;
    Ok(Bytes::from_vec(line.into_bytes()))
}

// The line of the track at that place of the channel, from 0.
fn no_track_line(alloc: Global, channel: &Channel, index: u32) -> Result<Bytes, NoMemory>
    ensures { IfOk result (λ line. line ≡ no_track_line (slice_get channel.now index)) }
{
    let Some(track) = channel.as_slice().get(index as usize) else {
        return Bytes::from_slice(alloc, b"error: NoTrack\nThe ladder has no such track.\n");
    };
    let name = track.name.as_str();
    let bitrate = track.bitrate;
    let line = format!(in alloc;
        "error: NoTrack {name} {bitrate}\nThe ladder has a track of this name and bitrate, and the origin lists none, or one with another timescale.\n"
    )?;
    Ok(Bytes::from_vec(line.into_bytes()))
}

fn other_id_line(alloc: Global, address: &Address, id: u32) -> Result<Bytes, NoMemory>
    ensures { IfOk result (λ line. line ≡ other_id_line address.now id) }
{
    let stream = address.stream.as_str();
    let bitrate = address.bitrate;
    let line = format!(in alloc;
        "error: OtherId {stream} {bitrate} {id}\nThe primary gives fragments of this name and bitrate a track_ID that is not the ladder's.\n"
    )?;
    Ok(Bytes::from_vec(line.into_bytes()))
}

// How a relay ended.
fn relayed(alloc: Global, relay: StoreRelay) -> Result<Answer, NoMemory>
    ensures told { IfOk result (λ answer. TellsRelay relay.channel relay.report answer) }
    ensures unwritten { OnErr result (HasRelayLine relay.report.end) }
{
    let StoreRelay {
        report: RelayReport { kept, end },
        channel,
    } = relay;
    match end {
        RelayEnd::Done => Ok(Answer::Found(relayed_line(alloc, kept)?)),
        RelayEnd::NoManifest { outcomes } => {
            Ok(Answer::Undone(no_manifest_line(alloc, &outcomes)?))
        }
        RelayEnd::NoTrack { index } => {
            Ok(Answer::Undone(no_track_line(alloc, &channel, index)?))
        }
        RelayEnd::GaveUp { address, outcomes } => {
            Ok(Answer::Undone(gave_up_line(alloc, address.time, &outcomes)?))
        }
        RelayEnd::Refused { cause, .. } => Ok(Answer::Undone(clash_line(alloc, cause)?)),
        RelayEnd::Full => Ok(Answer::Full),
        RelayEnd::DiskFault => Ok(Answer::DiskFault),
        RelayEnd::NoMemory => Ok(Answer::Starved),
    }
}

// How a standby ended.
fn followed(alloc: Global, follow: StoreFollow) -> Result<Answer, NoMemory>
    ensures told { IfOk result (λ answer. TellsFollow follow.channel follow.report answer) }
    ensures unwritten { OnErr result (HasFollowLine follow.report.end) }
{
    let StoreFollow {
        report: FollowReport { kept, end },
        channel,
    } = follow;
    match end {
        FollowEnd::Done => Ok(Answer::Found(followed_line(alloc, kept)?)),
        FollowEnd::Gap { place, next } => Ok(Answer::Undone(gap_line(alloc, place, next)?)),
        FollowEnd::NoManifest { outcomes } => {
            Ok(Answer::Undone(no_manifest_line(alloc, &outcomes)?))
        }
        FollowEnd::NoTrack { index } => {
            Ok(Answer::Undone(no_track_line(alloc, &channel, index)?))
        }
        FollowEnd::GaveUp { address, outcomes } => {
            Ok(Answer::Undone(gave_up_line(alloc, address.time, &outcomes)?))
        }
        FollowEnd::OtherId { address, id } => {
            Ok(Answer::Undone(other_id_line(alloc, &address, id)?))
        }
        FollowEnd::Refused { cause, .. } => Ok(Answer::Undone(clash_line(alloc, cause)?)),
        FollowEnd::Full => Ok(Answer::Full),
        FollowEnd::DiskFault => Ok(Answer::DiskFault),
        FollowEnd::NoMemory => Ok(Answer::Starved),
    }
}

/// Pulls what an origin lists into the store that the order names, and says how that ended.
pub fn relay<I: Source, S: Site, C: Dial>(
    alloc: Global,
    input: &mut I,
    site: &mut S,
    dial: &mut C,
    order: EdgeOrder,
) -> Answer
    requires pullable { IsPullable (pulling_of order) }
    ensures selected { IsSelected result (at_edge (pulling_of order)) (S.Disk.seen.view site.old) (S.Disk.seen.view site.new) }
    ensures means { RelayMeans S.Disk.seen (dialing C.log C.store C.later C.dial_faults C.chosen) (pulling_of order)
        (end_of I.left I.faults input.old) (end_of I.left I.faults input.new) site.old site.new dial.old dial.new result }
    ensures dial { DialGoesOn C.store C.later C.dial_faults dial.old dial.new }
    ensures silent { IsSilent (S.Disk.seen.view site.old) (S.Disk.seen.view site.new) }
    ensures counted { I.faults input.old ≤ I.faults input.new }
    ensures stores { KeepsStores S.Disk.seen site.old site.new ((line : List ℕ) × (result ≡ answers.NotAStore line)) }
{
    let selection = Selection {
        store: order.store,
        make: true,
        port: 0,
        bind: None,
        journal: order.journal,
    };
    let plan = PullPlan {
        place: order.place,
        rounds: order.rounds,
        tries: order.tries,
    };
    match relay_store(
        alloc,
        input,
        site,
        dial,
        selection,
        order.host.as_str(),
        &plan,
    ) {
        Ok(relay) => or_starved(relayed(alloc, relay)),
        Err(fault) => or_starved(refused(alloc, fault)),
    }
}

/// Rebuilds the log of a primary in the store that the order names, and says how that ended.
pub fn standby<I: Source, S: Site, C: Dial>(
    alloc: Global,
    input: &mut I,
    site: &mut S,
    dial: &mut C,
    order: EdgeOrder,
) -> Answer
    requires pullable { IsPullable (pulling_of order) }
    ensures selected { IsSelected result (at_edge (pulling_of order)) (S.Disk.seen.view site.old) (S.Disk.seen.view site.new) }
    ensures means { StandbyMeans S.Disk.seen (dialing C.log C.store C.later C.dial_faults C.chosen) (pulling_of order)
        (end_of I.left I.faults input.old) (end_of I.left I.faults input.new) site.old site.new dial.old dial.new result }
    ensures dial { DialGoesOn C.store C.later C.dial_faults dial.old dial.new }
    ensures silent { IsSilent (S.Disk.seen.view site.old) (S.Disk.seen.view site.new) }
    ensures counted { I.faults input.old ≤ I.faults input.new }
    ensures stores { KeepsStores S.Disk.seen site.old site.new ((line : List ℕ) × (result ≡ answers.NotAStore line)) }
{
    let selection = Selection {
        store: order.store,
        make: true,
        port: 0,
        bind: None,
        journal: order.journal,
    };
    let plan = PullPlan {
        place: order.place,
        rounds: order.rounds,
        tries: order.tries,
    };
    match follow_store(
        alloc,
        input,
        site,
        dial,
        selection,
        order.host.as_str(),
        &plan,
    ) {
        Ok(follow) => or_starved(followed(alloc, follow)),
        Err(fault) => or_starved(refused(alloc, fault)),
    }
}
