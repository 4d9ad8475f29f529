//! What a manifest says of an address, and what it leads to.
ghost use Rattle.std.specs.Prelude.{◌≡◌, List, IfOk, OnOk};
ghost use Rattle.std.specs.List.{list_any};
ghost use Rattle.sm_model.specs.Same.{is_same};
ghost use Rattle.sm_client.specs.Stands.{listed, times_of};
ghost use Rattle.sm_log.specs.Adds.{names_of};
ghost use Rattle.sm_standby.specs.Turns.{url_of};
ghost use Rattle.sm_standby.specs.Candidates.{candidates_by, with_stream};

use crate::candidates::StreamCandidates;
use sm_manin::Listing;
use sm_model::{Address, Name, NoMemory, Track};
use sm_pull::stream_of;
use std::alloc::Global;

// The Url of the fragments of an address's stream, in whose fields bitrate and start go; none where no such stream is listed.
pub(crate) fn url_of<'a>(listing: &'a Listing, address: &Address) -> &'a [u8]
    ensures { result.now ≡ url_of listing.now address.now }
{
    match stream_of(listing, &address.stream) {
        Some(stream) => stream.pattern.as_slice(),
        None => &[],
    }
}

// The starts and durations of the stream of that name that are listed.
fn times_of<'a>(listing: &'a Listing, name: &Name) -> &'a [(u64, u64)]
    ensures { result.now ≡ times_of (listed name.now listing.now.streams) }
{
    match stream_of(listing, name) {
        Some(stream) => stream.times.as_slice(),
        None => &[],
    }
}

// Whether the candidates of the stream of that name are there.
fn has(all: &[StreamCandidates], name: &Name) -> bool
    ensures { result ≡ list_any (λ c. is_same c.name name.now) all.now }
{
    all.iter().any(|candidates| candidates.is_of(name))
}

// Puts the candidates of a track's stream behind the others, if they aren't there.
fn put_stream(
    alloc: Global,
    all: &mut Vec<StreamCandidates>,
    track: &Track,
    listing: &Listing,
) -> Result<(), NoMemory>
    ensures { OnOk result (all.new.items ≡ with_stream (λ name. times_of (listed name listing.now.streams)) all.old.items track.now) }
{
    if !has(all, &track.name) {
        let times = times_of(listing, &track.name);
        all.push(StreamCandidates::new(alloc, &track.name, times)?)?;
    }
    Ok(())
}

// The candidates of the streams of a channel, in the order in which their names first stand.
pub(crate) fn candidates_of(
    alloc: Global,
    channel: &[Track],
    listing: &Listing,
) -> Result<Vec<StreamCandidates>, NoMemory>
    ensures { IfOk result (λ v. v.items ≡ candidates_by (λ name. times_of (listed name listing.now.streams)) (names_of channel.now)) }
{
    let mut all: Vec<StreamCandidates> = Vec::new(alloc);
    for track in channel {
        put_stream(alloc, &mut all, track, listing)?;
    }
    Ok(all)
}
