//! A disk of files with numbers, and what a crash may leave of them.
ghost use Rattle.std.specs.Prelude.{◌≡◌, ℕ, ◌+◌, ◌<◌, ◌≤◌, ◌^◌, length, IfSome, IsSome, IfOk, OnOk, OnErr, is_some};
ghost use Rattle.sm_site.specs.Image.{Image, bytes_of, WritesAt, TearsAt};
ghost use Rattle.sm_site.specs.Meanings.{Deed, SameLink, Seen};
ghost use Rattle.sm_site.specs.Meanings.Deed.{Sized, Read, Wrote, Synced};
ghost use Rattle.sm_site.specs.Clauses.{Both, HasCause, Rose, Passes, Follows, NoMore, Durable, Notes, NotesFault, read};

/// A call of the outside failed, and its count rose.
#[derive(Clone, Copy, Debug, PartialEq, Eq)]
pub struct Failed;

/// Files with numbers, each a list of fewer than 2^63 bytes; one that isn't there has none.
///
/// Until a file is synced a crash may leave any bytes in each range that was written to it since and past its old end, and
/// any length between the old and the new one. All other bytes stay. After a sync that answers Ok a crash leaves of that
/// file what a read gives. The range of a write that failed, and those before a sync that failed, are still open to that.
///
/// No call touches the link of the same site: its transcript, its script and its counts.
pub trait Disk {
    /// The clock, the contents, the record of calls, the counts, and what there is of the link.
    /// Beside it, the images that a crash now may leave, and those that one at a moment may have left.
    ghost seen: { Seen Self };

    /// How many bytes a file has, below 2^63.
    fn size(&mut self, file: u32) -> Result<u64, Failed>
        ensures size { IfOk result (λ n. IfSome (seen.view self.old).contents (λ c. n ≡ length (bytes_of c file))) }
        ensures small { IfOk result (λ n. n < 2 ^ 63) }
        ensures contents { (seen.view self.new).contents ≡ (seen.view self.old).contents }
        ensures crash { NoMore (seen.may_leave self.old) (seen.may_leave self.new) }
        ensures time { Passes seen self.old self.new }
        ensures note { OnOk result (Notes (Sized file) (seen.view self.old) (seen.view self.new)) }
        ensures note_fault { OnErr result (NotesFault (Sized file) (seen.view self.old) (seen.view self.new)) }
        ensures reads { (seen.view self.new).reads ≡ (seen.view self.old).reads }
        ensures cause { HasCause (seen.view self.old).disk_faults (seen.view self.new).disk_faults result }
        ensures link { SameLink (seen.view self.old) (seen.view self.new) };

    /// Reads as many bytes as the buffer has, from a place on. Bytes past the file's end are 0, so no place makes a read fail.
    fn read_at(&mut self, file: u32, at: u64, into: &mut [u8]) -> Result<(), Failed>
        ensures bytes { OnOk result (IfSome (seen.view self.old).contents (λ c. into.new ≡ read (bytes_of c file) at (length into.old))) }
        ensures contents { (seen.view self.new).contents ≡ (seen.view self.old).contents }
        ensures crash { NoMore (seen.may_leave self.old) (seen.may_leave self.new) }
        ensures time { Passes seen self.old self.new }
        ensures note { OnOk result (Notes (Read file at (length into.old)) (seen.view self.old) (seen.view self.new)) }
        ensures note_fault { OnErr result (NotesFault (Read file at (length into.old)) (seen.view self.old) (seen.view self.new)) }
        ensures reads { Rose (seen.view self.old).reads (seen.view self.new).reads }
        ensures cause { HasCause (seen.view self.old).disk_faults (seen.view self.new).disk_faults result }
        ensures link { SameLink (seen.view self.old) (seen.view self.new) };

    /// Writes these bytes from a place on, which isn't past the file's end. A write that failed may have reached the contents.
    fn write_at(&mut self, file: u32, at: u64, bytes: &[u8]) -> Result<(), Failed>
        requires fits { at + length bytes.now < 2 ^ 63 }
        requires inside { IfSome (seen.view self.old).contents (λ c. at ≤ length (bytes_of c file)) }
        ensures written { OnOk result (Both (seen.view self.old).contents (seen.view self.new).contents (WritesAt file at bytes.now)) }
        ensures torn { OnErr result (Both (seen.view self.old).contents (seen.view self.new).contents (TearsAt file at (length bytes.now))) }
        ensures crash { Follows (TearsAt file at (length bytes.now)) (seen.may_leave self.old) (seen.may_leave self.new) }
        ensures time { Passes seen self.old self.new }
        ensures note { OnOk result (Notes (Wrote file at bytes.now) (seen.view self.old) (seen.view self.new)) }
        ensures note_fault { OnErr result (NotesFault (Wrote file at bytes.now) (seen.view self.old) (seen.view self.new)) }
        ensures reads { (seen.view self.new).reads ≡ (seen.view self.old).reads }
        ensures cause { HasCause (seen.view self.old).disk_faults (seen.view self.new).disk_faults result }
        ensures link { SameLink (seen.view self.old) (seen.view self.new) };

    /// Brings a file to rest: from then on a crash leaves of it what a read gives. A file that isn't there may be synced too.
    fn sync(&mut self, file: u32) -> Result<(), Failed>
        ensures durable { OnOk result (Durable file (seen.view self.new).contents (seen.may_leave self.new)) }
        ensures contents { (seen.view self.new).contents ≡ (seen.view self.old).contents }
        ensures crash { NoMore (seen.may_leave self.old) (seen.may_leave self.new) }
        ensures time { Passes seen self.old self.new }
        ensures note { OnOk result (Notes (Synced file) (seen.view self.old) (seen.view self.new)) }
        ensures note_fault { OnErr result (NotesFault (Synced file) (seen.view self.old) (seen.view self.new)) }
        ensures reads { (seen.view self.new).reads ≡ (seen.view self.old).reads }
        ensures cause { HasCause (seen.view self.old).disk_faults (seen.view self.new).disk_faults result }
        ensures link { SameLink (seen.view self.old) (seen.view self.new) };

    /// A crash may leave the contents.
    ghost contents_pass: { (d : Self) → IfSome (seen.view d).contents (seen.may_leave d) };

    /// The record of calls is told where the contents are.
    ghost calls_told: { (d : Self) → is_some (seen.view d).calls ≡ is_some (seen.view d).contents };

    /// A disk that doesn't tell its contents tells no images.
    ghost told: { (d : Self) (t : ℕ) (c : Image) → seen.left_at d t c → IsSome (seen.view d).contents };

    /// A crash at this moment leaves what a crash now may leave, and none comes later.
    ghost at_now: { (d : Self) (c : Image) → seen.left_at d (seen.view d).moment c → seen.may_leave d c };

    ghost now_at: { (d : Self) (c : Image) → seen.may_leave d c → seen.left_at d (seen.view d).moment c };

    ghost no_later: { (d : Self) (t : ℕ) (c : Image) → seen.left_at d t c → t ≤ (seen.view d).moment };
}
