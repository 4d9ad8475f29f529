//! Catalogs.
ghost use Rattle.std.specs.Prelude.{◌≡◌, ◌≤◌, ◌<◌, ◌+◌, ◌-◌, ◌^◌, ◌++◌, ◌∷◌, [], ℕ, false, true, IfOk, IfSome, OnOk, OnErr, is_some, length, min, slice_get, List};
ghost use Rattle.sm_log.specs.declared.verdict.Judged.TheVariants as judged;
ghost use Rattle.sm_model.specs.Channels.{IsChannel};
ghost use Rattle.sm_model.specs.Same.{is_same};
ghost use Rattle.std.specs.Option.{option_map};
ghost use Rattle.sm_log.specs.Times.{entry_at, IsSpan};
ghost use Rattle.sm_log.specs.Adds.{judged_by, verdict, is_declared, place_of, times_of, listed, ahead};
ghost use Rattle.sm_log.specs.Headers.{check};
ghost use Rattle.sm_catalog.specs.Content.{spare_of};
ghost use Rattle.sm_catalog.specs.Whole.{add_in};

use crate::added::Added;
use crate::checked::check_tracks;
use crate::lookup::{stream_place, track_place};
use crate::parts::{copy_places, copy_streams, empty_places, reserve_places, streams_of};
use crate::stream::Stream;
use sm_log::{Checked, Decision, Judged};
use sm_model::{Address, Channel, Name, NoMemory};
use sm_timeline::ByTime;
use std::alloc::Global;
use std::marker::Model;

/// What is kept of a channel: by address the place in the log, by stream the times and those of them that are listed.
/// Contracts see the channel, the list of what was added, and for how many more fragments of each stream there is room.
#[derive(Debug, Drop)]
pub struct Catalog {
    channel: Channel,
    adds: Vec<Added>,
    kept: Vec<ByTime>,
    streams: Vec<Stream>,
    reserved: usize,
}

impl Model for Catalog {
    ghost use Rattle.std.specs.Prelude.{◌+◌, ◌≤◌, vec_len, vec_capacity};
    ghost use Rattle.sm_catalog.specs.Content.{Content};

    ghost Value = { Content };

    ghost use Rattle.sm_catalog.specs.Whole.{adds_in, spares_in, IsWhole};

    ghost view = { λ c. record { channel = c.channel; adds = adds_in c.channel c.adds.items; spares = spares_in c.streams.items } };

    ghost invariant = { λ c. IsWhole c.channel c.adds.items c.kept.items c.streams.items c.reserved (vec_capacity c.adds) };
}

// The verdict on a declared track's fragment, of which `kept` is the place.
fn judged(kept: Option<u64>, decision: Decision) -> Judged
    ensures { result ≡ judged_by kept decision }
{
    match decision {
        Decision::New => Judged::New,
        Decision::There => match kept {
            None => Judged::New,
            Some(place) => Judged::Known { place },
        },
        Decision::Clash { kept } => Judged::Clash { kept },
        Decision::Overlap { end } => Judged::Overlap { end },
    }
}

impl Catalog {
    /// What is said of a fragment of that address and duration, in ticks. Takes no memory.
    pub fn judge(&self, address: &Address, duration: u64) -> Judged
        ensures verdict { result ≡ verdict self.now.channel self.now.adds address.now duration }
        ensures declared { result ≡ judged.New → is_declared self.now.channel address.now ≡ true }
    {
        let channel = self.channel.as_slice();
        let stream = address.stream.as_bytes();
        let Some(track) = track_place(channel, stream, address.bitrate) else {
            return Judged::NotDeclared;
        };
        let Some(lane) = stream_place(&self.streams, stream) else {
            return Judged::NotDeclared;
        };
        let kept = self.kept[track].get(address.time);
        judged(kept, self.streams[lane].decide(address.time, duration))
    }

    /// The place in the log of what is kept at that address.
    pub fn place(&self, address: &Address) -> Option<u64>
        ensures { result ≡ place_of address.now self.now.adds }
    {
        let stream = address.stream.as_bytes();
        let track = track_place(self.channel.as_slice(), stream, address.bitrate)?;
        self.kept[track].get(address.time)
    }

    /// The starts and durations of the listed times of that stream, in order of time and in ticks, lent.
    pub fn listed_times(&self, stream: &Name) -> &[(u64, u64)]
        ensures { result.now ≡ listed self.now.channel self.now.adds stream.now }
    {
        match stream_place(&self.streams, stream.as_bytes()) {
            None => &[],
            Some(lane) => self.streams[lane].listed(),
        }
    }

    /// The starts and durations of all times of that stream, listed or not, in order of time and in ticks, lent.
    pub fn times(&self, stream: &Name) -> &[(u64, u64)]
        ensures { result.now ≡ times_of stream.now self.now.adds }
    {
        match stream_place(&self.streams, stream.as_bytes()) {
            None => &[],
            Some(lane) => self.streams[lane].times(),
        }
    }

    /// How many times that stream has, listed or not.
    pub fn times_len(&self, stream: &Name) -> u64
        ensures { result ≡ length (times_of stream.now self.now.adds) }
    {
        self.times(stream).len() as u64
    }

    /// Whether anything of the address's stream is kept at its start, in any quality.
    pub fn has_time(&self, address: &Address) -> bool
        ensures { result ≡ is_some (entry_at address.now.time (times_of address.now.stream self.now.adds)) }
    {
        match stream_place(&self.streams, address.stream.as_bytes()) {
            None => false,
            Some(lane) => self.streams[lane].duration(address.time).is_some(),
        }
    }

    /// What was added at that index, counted from 0 in the order of adding.
    pub fn added(&self, index: u64) -> Option<Added>
        ensures add { option_map (add_in self.now.channel) result ≡ slice_get self.now.adds index }
        ensures track { IfSome result (λ a. a.track < length self.now.channel) }
    {
        self.adds.get(index as usize).copied()
    }

    /// How many fragments were added, of all streams. At 2^64 - 1 it may be more.
    pub fn len(&self) -> u64
        ensures { result ≡ min (length self.now.adds) (2 ^ 64 - 1) }
    {
        self.adds.len() as u64
    }

    /// How many times of that stream are listed: those at which every track of it is kept.
    pub fn listed_len(&self, stream: &Name) -> u64
        ensures { result ≡ length (listed self.now.channel self.now.adds stream.now) }
    {
        self.listed_times(stream).len() as u64
    }

    /// The start and the duration of the listed time at that index from 0, in order of time and in ticks. An index may name
    /// another time after an `add`.
    pub fn listed(&self, stream: &Name, index: u64) -> Option<(u64, u64)>
        ensures { result ≡ slice_get (listed self.now.channel self.now.adds stream.now) index }
    {
        self.listed_times(stream).get(index as usize).copied()
    }

    /// The first (index 0) and the second (1) of up to two listed times behind what is kept of a stream at that start, each
    /// starting where the one before it ends. None where nothing is kept there.
    pub fn ahead(&self, stream: &Name, time: u64, index: u32) -> Option<(u64, u64)>
        ensures { result ≡ slice_get (ahead self.now.channel self.now.adds stream.now time) index }
    {
        let lane = stream_place(&self.streams, stream.as_bytes())?;
        self.streams[lane].ahead(time, index)
    }

    /// The channel, lent. It is valid.
    pub fn channel(&self) -> &Channel
        ensures same { result.now ≡ self.now.channel }
        ensures valid { IsChannel self.now.channel }
    {
        &self.channel
    }

    /// A catalog of that channel, in which nothing is kept.
    pub fn new(alloc: Global, channel: Channel) -> Result<Catalog, NoMemory>
        requires { IsChannel channel }
        ensures channel { IfOk result (λ c. c.channel ≡ channel) }
        ensures adds { IfOk result (λ c. c.adds ≡ []) }
    {
        let kept = empty_places(alloc, channel.as_slice().len())?;
        let streams = streams_of(alloc, channel.as_slice())?;
        Ok(Catalog {
            channel,
            adds: Vec::new(alloc),
            kept,
            streams,
            reserved: 0,
        })
    }

    /// An equal catalog, but for the room.
    pub fn copy(&self, alloc: Global) -> Result<Catalog, NoMemory>
        ensures channel { IfOk result (λ c. c.channel ≡ self.now.channel) }
        ensures adds { IfOk result (λ c. c.adds ≡ self.now.adds) }
    {
        Ok(Catalog {
            channel: self.channel.copy(alloc)?,
            adds: Vec::from_slice(alloc, &self.adds)?,
            kept: copy_places(alloc, &self.kept)?,
            streams: copy_streams(alloc, &self.streams)?,
            reserved: 0,
        })
    }

    /// Makes room for at least two more fragments of the address's stream. It does nothing where the channel lacks the stream.
    /// Where memory is wanting only room may have been gained.
    pub fn reserve(&mut self, address: &Address) -> Result<(), NoMemory>
        ensures channel { self.new.channel ≡ self.old.channel }
        ensures adds { self.new.adds ≡ self.old.adds }
        ensures ok { OnOk result (is_declared self.old.channel address.now ≡ true → 2 ≤ spare_of address.now.stream self.new.spares) }
        ensures spares { (name : List ℕ) → spare_of name self.old.spares ≤ spare_of name self.new.spares }
    {
        let stream = address.stream.as_bytes();
        let Some(lane) = stream_place(&self.streams, stream) else {
            return Ok(());
        };
        if self.reserved > usize::MAX - 2 {
            return Err(NoMemory);
        }
        self.adds.reserve(self.reserved + 2)?;
        reserve_places(self.channel.as_slice(), &mut self.kept, stream)?;
        let before = self.streams[lane].spare();
        self.streams[lane].reserve()?;
        self.reserved += 2usize.saturating_sub(before);
        Ok(())
    }

    /// Adds a fragment that was judged to be new, under its place in the log. Takes no memory. One that starts before or behind
    /// all others mostly moves nothing, and is added in a number of looks that grows with the logarithm; one between others
    /// moves the fewer of those before it and those behind it.
    pub fn add(&mut self, address: &Address, duration: u64, place: u64)
        requires verdict { verdict self.old.channel self.old.adds address.now duration ≡ judged.New }
        requires spare { 1 ≤ spare_of address.now.stream self.old.spares }
        requires span { IsSpan (address.now.time, duration) }
        ensures channel { self.new.channel ≡ self.old.channel }
        ensures adds { self.new.adds ≡ self.old.adds ++ (record { address = address.now; duration = duration; place = place }) ∷ [] }
        ensures spare { spare_of address.now.stream self.new.spares + 1 ≡ spare_of address.now.stream self.old.spares }
        ensures others { (name : List ℕ) → is_same name address.now.stream ≡ false → spare_of name self.new.spares ≡ spare_of name self.old.spares }
    {
        let stream = address.stream.as_bytes();
        let Some(track) = track_place(self.channel.as_slice(), stream, address.bitrate) else {
            return;
        };
        let Some(lane) = stream_place(&self.streams, stream) else {
            return;
        };
        self.kept[track].put(address.time, place);
        self.streams[lane].add(address.time, duration);
        let _ = self.adds.push(Added {
            track: track as u32,
            time: address.time,
            duration,
            place,
        });
        self.reserved -= 1;
    }

    /// How the tracks of a header stand to those of the channel. Takes no memory.
    pub fn check(&self, header: &Channel) -> Checked
        ensures { result ≡ check self.now.channel header.now }
    {
        check_tracks(self.channel.as_slice(), header.as_slice())
    }
}
