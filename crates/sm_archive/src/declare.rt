//! Declaring a channel.
ghost use Rattle.std.specs.Prelude.{◌≡◌, ◌⊎◌, ◌≢◌, ℕ, ◌+◌, ◌≤◌, ◌<◌, ◌^◌, true, false, List, ◌∷◌, ◌++◌, [], length, slice_get, Option, None, Some, IfOk, IsSome};
ghost use Rattle.sm_model.specs.declared.track.Track.{Track};
ghost use Rattle.sm_model.specs.declared.entry.Entry.{Entry};
ghost use Rattle.sm_model.specs.declared.entry.Entry.TheVariants.{Declare};
ghost use Rattle.sm_model.specs.Channels.{IsChannel};
ghost use Rattle.sm_archive.specs.Steps.{Grows};
ghost use Rattle.sm_record.specs.Bodies.{body_len};
ghost use Rattle.sm_site.specs.Meanings.{DiskAlone};
ghost use Rattle.sm_site.specs.Clauses.{Acted, Recorded, Rose, Throughout};
ghost use Rattle.sm_seglog.specs.Segments.{OnlyReserved};
ghost use Rattle.sm_archive.specs.declared.answers.Declared.TheVariants as answer;
ghost use Rattle.sm_archive.specs.declared.index.Index.{Index};
ghost use Rattle.sm_archive.specs.Seen.{limits_of};
ghost use Rattle.sm_archive.specs.Store.{IsStore};
ghost use Rattle.sm_archive.specs.Stands.{Stands};
ghost use Rattle.sm_archive.specs.Reserving.{IsReserved};
ghost use Rattle.sm_archive.specs.Declaring.{IsHeader, ReadyHeader, IsWithin, MeetsLimit, Compares, DeclaredNew, DeclareStep};
ghost use Rattle.sm_archive.specs.declared.ready.Header.{Header};

use crate::answers::{Declared, DiskFault};
use crate::archive::{Archive, Pending};
use crate::index::Index;
use crate::ready::Header;
use sm_catalog::Checked;
use sm_model::{Cause, Channel, NoMemory, Track};
use sm_record::put_declare;
use sm_seglog::SegLog;
use sm_site::Disk;
use std::alloc::Global;

fn header_in(alloc: Global, log: &mut SegLog, channel: &Channel) -> Result<Header, NoMemory>
    requires { IsChannel channel.now }
    ensures log { OnlyReserved log.old log.new }
    ensures ready { IfOk result (λ header. IsHeader header channel.now log.new × (2 ≤ log.new.last.spare)) }
{
    let index = Index::of_header(alloc, channel)?;
    let body = put_declare(alloc, channel)?;
    log.reserve(body.len() as u32)?;
    Ok(Header { index, body })
}

// The track at that place, taken out.
fn track_at(tracks: Channel, place: u64) -> Track
    requires { place < length tracks }
    ensures { slice_get tracks place ≡ Some result }
{
    let mut tracks = tracks.into_vec();
    tracks.swap_remove(place as usize)
}

impl Archive {
    // Takes all memory that declaring wants, which is none where a channel stands.
    fn header(&mut self, alloc: Global, channel: &Channel) -> Result<Option<Header>, NoMemory>
        requires { IsChannel channel.now }
        ensures reserved { IsReserved self.old self.new }
        ensures unneeded { result ≡ Ok None → (i : Index) × (self.old.index ≡ Some i) }
        ensures ready { (header : Header) → result ≡ Ok (Some header) → IsHeader header channel.now self.new.log × (2 ≤ self.new.log.last.spare) }
    {
        match &self.index {
            Some(_) => Ok(None),
            None => {
                let header = header_in(alloc, &mut self.log, channel)?;
                Ok(Some(header))
            }
        }
    }

    // Whether a header meets a limit.
    fn is_full_for(&self, header: &Header) -> bool
        requires low { self.now.limits.store_bytes ≤ 2 ^ 62 }
        requires short { length header.now.body < 2 ^ 28 }
        ensures full { (channel : List Track) → length header.now.body ≡ body_len (Declare channel) → result ≡ true → MeetsLimit self.now channel }
        ensures within { (channel : List Track) → length header.now.body ≡ body_len (Declare channel) → result ≡ false → IsWithin self.now channel }
    {
        let bytes = 5 + header.body.len();
        if self.used.saturating_add(bytes) > self.limits.store_bytes {
            return true;
        }
        if self.limits.entries < 1 {
            return true;
        }
        !self.log.fits(header.body.len() as u32)
    }

    // Declares a channel in an empty log.
    fn fix<D: Disk>(&mut self, disk: &mut D, header: Header) -> Declared
        requires can { (channel : List Track) × Stands self.old [] None (D.seen.may_leave disk.old) × IsHeader header channel self.old.log × IsChannel channel }
        ensures step { (channel : List Track) → Stands self.old [] None (D.seen.may_leave disk.old) → IsHeader header channel self.old.log → IsChannel channel
            → DeclaredNew (Acted (D.seen.view disk.old) (D.seen.view disk.new)) (D.seen.may_leave disk.new) self.new [] channel result }
        ensures any_moment { (channel : List Track) → Stands self.old [] None (D.seen.may_leave disk.old) → IsHeader header channel self.old.log → IsChannel channel
            → IsSome (D.seen.view disk.old).contents → Throughout D.seen disk.old disk.new (λ t c. (after : List Entry) × IsStore after c × ((after ≡ [])
            ⊎ (after ≡ Declare channel ∷ []))) }
        ensures no_memory { result ≡ answer.NoMemory → ⊥ }
        ensures fault { result ≡ answer.DiskFault → Rose (D.seen.view disk.old).disk_faults (D.seen.view disk.new).disk_faults }
        ensures recorded { Recorded (D.seen.view disk.old) (D.seen.view disk.new) }
        ensures limits { limits_of self.new ≡ limits_of self.old }
        ensures disk_alone { DiskAlone (D.seen.view disk.old) (D.seen.view disk.new) }
    {
        if self.is_full_for(&header) {
            return Declared::Full;
        }
        match self.append(disk, Pending::Declare(header.index), header.body) {
            Some(_) => Declared::Fixed,
            None => Declared::DiskFault,
        }
    }

    // Compares a header with the channel that stands. `tracks` are the header's, to take a name from.
    fn compare(index: &Index, channel: &Channel, tracks: Channel) -> Declared
        requires { tracks ≡ channel.now }
        ensures { Compares index.now.catalog.channel channel.now result }
    {
        match index.catalog.check(channel) {
            Checked::Agreed => Declared::Agreed,
            Checked::NotDeclared { index } => {
                let track = track_at(tracks, index);
                Declared::Refused(Cause::NotDeclared {
                    stream: track.name,
                    bitrate: track.bitrate,
                })
            }
            Checked::Clash { index } => {
                let track = track_at(tracks, index);
                Declared::Refused(Cause::DeclClash {
                    stream: track.name,
                    bitrate: track.bitrate,
                })
            }
        }
    }

    // Declares a channel where no entry is in doubt.
    fn declare_settled<D: Disk>(
        &mut self,
        disk: &mut D,
        header: Option<Header>,
        channel: &Channel,
        tracks: Channel,
    ) -> Declared
        requires tracks { tracks ≡ channel.now }
        requires valid { IsChannel channel.now }
        requires can { (log : List Entry) × Stands self.old log None (D.seen.may_leave disk.old) × ReadyHeader header channel.now self.old.log log }
        ensures step { (log : List Entry) → Stands self.old log None (D.seen.may_leave disk.old) → ReadyHeader header channel.now self.old.log log
            → DeclaredNew (Acted (D.seen.view disk.old) (D.seen.view disk.new)) (D.seen.may_leave disk.new) self.new log channel.now result }
        ensures any_moment { (log : List Entry) → Stands self.old log None (D.seen.may_leave disk.old) → ReadyHeader header channel.now self.old.log log
            → IsSome (D.seen.view disk.old).contents → Throughout D.seen disk.old disk.new (λ t c. (after : List Entry) × IsStore after c × ((after ≡ log)
            ⊎ (after ≡ log ++ Declare channel.now ∷ []))) }
        ensures no_memory { result ≡ answer.NoMemory → ⊥ }
        ensures fault { result ≡ answer.DiskFault → Rose (D.seen.view disk.old).disk_faults (D.seen.view disk.new).disk_faults }
        ensures recorded { Recorded (D.seen.view disk.old) (D.seen.view disk.new) }
        ensures limits { limits_of self.new ≡ limits_of self.old }
        ensures disk_alone { DiskAlone (D.seen.view disk.old) (D.seen.view disk.new) }
    {
        match &self.index {
            Some(index) => Archive::compare(index, channel, tracks),
            None => match header {
                Some(header) => self.fix(disk, header),
                None => unreachable!(),
            },
        }
    }

    // The same with the header's tracks copied.
    fn declare_with<D: Disk>(
        &mut self,
        alloc: Global,
        disk: &mut D,
        channel: &Channel,
        tracks: Channel,
    ) -> Declared
        requires tracks { tracks ≡ channel.now }
        requires valid { IsChannel channel.now }
        requires stands { (log : List Entry) × (doubt : Option Entry) × Stands self.old log doubt (D.seen.may_leave disk.old) }
        ensures step { (log : List Entry) (doubt : Option Entry) → Stands self.old log doubt (D.seen.may_leave disk.old)
            → DeclareStep (Acted (D.seen.view disk.old) (D.seen.view disk.new)) (D.seen.may_leave disk.new) self.new log doubt channel.now result }
        ensures any_moment { (log : List Entry) (doubt : Option Entry) → Stands self.old log doubt (D.seen.may_leave disk.old)
            → IsSome (D.seen.view disk.old).contents → Throughout D.seen disk.old disk.new (λ t c. (after : List Entry) × IsStore after c
            × Grows log doubt (Declare channel.now) after) }
        ensures memory_first { result ≡ answer.NoMemory → disk.new ≡ disk.old }
        ensures fault { result ≡ answer.DiskFault → Rose (D.seen.view disk.old).disk_faults (D.seen.view disk.new).disk_faults }
        ensures recorded { Recorded (D.seen.view disk.old) (D.seen.view disk.new) }
        ensures limits { limits_of self.new ≡ limits_of self.old }
        ensures disk_alone { DiskAlone (D.seen.view disk.old) (D.seen.view disk.new) }
    {
        match self.header(alloc, channel) {
            Err(NoMemory) => Declared::NoMemory,
            Ok(header) => match self.settle(disk) {
                Err(DiskFault) => Declared::DiskFault,
                Ok(()) => self.declare_settled(disk, header, channel, tracks),
            },
        }
    }

    /// Declares a channel in an empty log, or compares it with the one that stands. An entry in doubt is settled first, and
    /// what is said of the log is then said of the log after that. All memory is taken before the disk is called.
    pub fn declare<D: Disk>(&mut self, alloc: Global, disk: &mut D, channel: &Channel) -> Declared
        requires valid { IsChannel channel.now }
        requires stands { (log : List Entry) × (doubt : Option Entry) × Stands self.old log doubt (D.seen.may_leave disk.old) }
        // It stands for some log again, whichever it stood for.
        ensures stands { (log : List Entry) × (doubt : Option Entry) × Stands self.new log doubt (D.seen.may_leave disk.new) }
        ensures step { (log : List Entry) (doubt : Option Entry) → Stands self.old log doubt (D.seen.may_leave disk.old)
            → DeclareStep (Acted (D.seen.view disk.old) (D.seen.view disk.new)) (D.seen.may_leave disk.new) self.new log doubt channel.now result }
        ensures any_moment { (log : List Entry) (doubt : Option Entry) → Stands self.old log doubt (D.seen.may_leave disk.old)
            → IsSome (D.seen.view disk.old).contents → Throughout D.seen disk.old disk.new (λ t c. (after : List Entry) × IsStore after c
            × Grows log doubt (Declare channel.now) after) }
        // All memory is taken before the disk is called.
        ensures memory_first { result ≡ answer.NoMemory → disk.new ≡ disk.old }
        ensures fault { result ≡ answer.DiskFault → Rose (D.seen.view disk.old).disk_faults (D.seen.view disk.new).disk_faults }
        ensures recorded { Recorded (D.seen.view disk.old) (D.seen.view disk.new) }
        ensures limits { limits_of self.new ≡ limits_of self.old }
        ensures disk_alone { DiskAlone (D.seen.view disk.old) (D.seen.view disk.new) }
    {
        match channel.copy(alloc) {
            Err(NoMemory) => Declared::NoMemory,
            Ok(tracks) => self.declare_with(alloc, disk, channel, tracks),
        }
    }
}
