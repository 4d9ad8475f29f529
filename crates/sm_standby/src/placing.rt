//! One address, asked for and put in its place.
ghost use Rattle.std.specs.Prelude.{◌≡◌, ◌==◌, ◌&&◌, [], List, None, IfOk, IfErr, IsErrOf};
ghost use Rattle.std.specs.List.{position};
ghost use Rattle.sm_model.specs.Same.{is_same};
ghost use Rattle.sm_model.specs.declared.entry.Entry.{Entry};
ghost use Rattle.sm_model.specs.Fragments.{IsValid};
ghost use Rattle.sm_log.specs.Adds.{id_in};
ghost use Rattle.sm_log.specs.Logs.{kept_at};
ghost use Rattle.sm_archive.specs.Stands.{Stands};
ghost use Rattle.sm_site.specs.Clauses.{Rose};
ghost use Rattle.sm_fetch.specs.Spelt.{given};
ghost use Rattle.sm_standby.specs.declared.report.FollowEnd.TheVariants as ends;
ghost use Rattle.sm_standby.specs.Asked.{Went, Stopped, IsPut, IsUnput};

use crate::FollowEnd;
use crate::asking::{Found, ask};
use sm_archive::Archive;
use sm_fetch::Dial;
use sm_model::{Address, Fragment, NoMemory, RawFragment, Track};
use sm_pull::{PullPlan, keep};
use sm_site::Disk;
use std::alloc::Global;

// What became of an address that was asked for.
#[derive(Drop)]
pub(crate) enum Step {
    // It was kept.
    Kept,
    // Its place comes later.
    Later(u64, Address),
    // Nothing is there, or its place has passed.
    Passed,
}

// Where an address's track stands in the channel.
fn track_of(channel: &[Track], address: &Address) -> Option<usize>
    ensures { result ≡ position (λ t. is_same t.name address.now.stream && (t.bitrate == address.now.bitrate)) channel.now }
{
    channel.iter().position(|track| track.name == address.stream
        && track.bitrate == address.bitrate)
}

// The track_ID of an address's track: its place in the channel, from 1.
fn id_of(channel: &[Track], address: &Address) -> u64
    ensures { result ≡ id_in channel.now address.now }
{
    match track_of(channel, address) {
        Some(place) => place as u64 + 1,
        None => 0,
    }
}

// What was read at an address, as a fragment.
fn fragment_at(alloc: Global, address: &Address, raw: RawFragment) -> Result<Fragment, NoMemory>
    ensures { IfOk result (λ f. f ≡ given address.now.stream address.now.bitrate raw) }
{
    Ok(Fragment {
        stream: address.stream.copy(alloc)?,
        bitrate: address.bitrate,
        time: raw.time,
        duration: raw.duration,
        signed: raw.signed,
        samples: raw.samples,
    })
}

// Puts what was read at an address in its place: where that is the next one it is kept.
fn put<D: Disk>(
    alloc: Global,
    disk: &mut D,
    archive: &mut Archive,
    channel: &[Track],
    address: Address,
    place: u64,
    raw: RawFragment,
) -> Result<Step, FollowEnd>
    requires valid { IsValid (given [] 0 raw) }
    requires time { raw.time ≡ address.time }
    requires stands { (log : List Entry) × Stands archive.old log None (D.seen.may_leave disk.old) }
    requires absent { (log : List Entry) → Stands archive.old log None (D.seen.may_leave disk.old) → kept_at log address ≡ None }
    ensures ok { IfOk result (λ step. (log : List Entry) → Stands archive.old log None (D.seen.may_leave disk.old) → IsPut D.seen disk.old disk.new
        channel.now address archive.old archive.new log place raw step) }
    ensures err { IfErr result (λ end. (log : List Entry) → Stands archive.old log None (D.seen.may_leave disk.old)
        → IsUnput D.seen disk.old disk.new channel.now address archive.old archive.new log place raw end) }
    ensures fault { IsErrOf result ends.DiskFault → Rose (D.seen.view disk.old).disk_faults (D.seen.view disk.new).disk_faults }
{
    let id = raw.id;
    if u64::from(id) != id_of(channel, &address) {
        return Err(FollowEnd::OtherId { address, id });
    }
    let next = archive.len();
    if place > next {
        return Ok(Step::Later(place, address));
    }
    if place < next {
        return Ok(Step::Passed);
    }
    let fragment = fragment_at(alloc, &address, raw)?;
    keep(alloc, disk, archive, &fragment, address)?;
    Ok(Step::Kept)
}

// Asks for an address at which nothing is kept, and keeps what comes where its place is the next one.
pub(crate) fn place_one<C: Dial, D: Disk>(
    alloc: Global,
    dial: &mut C,
    disk: &mut D,
    archive: &mut Archive,
    plan: &PullPlan,
    channel: &[Track],
    url: &[u8],
    address: Address,
) -> Result<Step, FollowEnd>
    requires stands { (log : List Entry) × Stands archive.old log None (D.seen.may_leave disk.old) }
    requires absent { (log : List Entry) → Stands archive.old log None (D.seen.may_leave disk.old) → kept_at log address ≡ None }
    ensures ok { IfOk result (λ step. (log : List Entry) → Stands archive.old log None (D.seen.may_leave disk.old)
        → Went D.seen C.log C.store C.later C.dial_faults C.chosen
        disk.old disk.new dial.old dial.new plan.now channel.now url.now address archive.old archive.new log step) }
    ensures err { IfErr result (λ end. (log : List Entry) → Stands archive.old log None (D.seen.may_leave disk.old)
        → Stopped D.seen C.log C.store C.later C.dial_faults C.chosen
        disk.old disk.new dial.old dial.new plan.now channel.now url.now address archive.old archive.new log end) }
    ensures fault { IsErrOf result ends.DiskFault → Rose (D.seen.view disk.old).disk_faults (D.seen.view disk.new).disk_faults }
{
    match ask(alloc, dial, &plan.place, plan.tries, url, &address) {
        Found::NoMemory => Err(FollowEnd::NoMemory),
        Found::GaveUp(outcomes) => Err(FollowEnd::GaveUp { address, outcomes }),
        Found::Absent => Ok(Step::Passed),
        Found::At(place, raw) => {
            put(
                alloc,
                disk,
                archive,
                channel,
                address,
                u64::from(place),
                raw,
            )
        }
    }
}
