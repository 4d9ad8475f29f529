//! What is pending on a disk in memory, and what a crash makes of it.
ghost use Rattle.std.specs.Prelude.{◌≡◌, ◌≢◌, ◌≤◌, ℕ, [], List, length, take, drop, IfOk};
ghost use Rattle.sm_site.specs.Image.{bytes_of};
ghost use Rattle.sm_site.specs.Past.{image_of, undone, without, filled, ranges_from};

use crate::files::{fill_bytes, undo_bytes};
use crate::{FileBytes, Pending};
use std::alloc::{AllocError, Global};

// Of this file nothing is pending any more.
pub(crate) fn forget(pending: &mut Vec<Pending>, file: u32)
    ensures ranges { ranges_from [] pending.new.items ≡ without file (ranges_from [] pending.old.items) }
    ensures own { (bytes : List ℕ) → undone file pending.new.items bytes ≡ bytes }
    ensures others { (other : ℕ) (bytes : List ℕ) → other ≢ file → undone other pending.new.items bytes ≡ undone other pending.old.items bytes }
{
    let mut i = 0;
    while i < pending.len() {
        if pending[i].file == file {
            let _ = pending.remove(i);
        } else {
            i += 1;
        }
    }
}

// Gives every file its bytes before all that is pending. It takes no memory.
fn undo_all(files: &mut Vec<FileBytes>, pending: &mut Vec<Pending>)
    ensures { (file : ℕ) → bytes_of (image_of files.new.items) file ≡ undone file pending.old.items (bytes_of (image_of files.old.items) file) }
{
    while let Some(range) = pending.pop() {
        undo_bytes(files, &range);
    }
}

// Makes every pending byte this one. It takes no memory.
fn fill_all(files: &mut Vec<FileBytes>, pending: &mut Vec<Pending>, byte: u8)
    ensures { (file : ℕ) → bytes_of (image_of files.new.items) file ≡ bytes_of (filled byte (image_of files.old.items) (ranges_from [] pending.old.items)) file }
{
    while let Some(range) = pending.pop() {
        fill_bytes(files, range.file, range.at, range.count, byte);
    }
}

// Makes the files those that a crash leaves by this choice. It takes no memory.
pub(crate) fn crash_files(files: &mut Vec<FileBytes>, pending: &mut Vec<Pending>, choice: u8)
    ensures old { choice ≡ 0 → (file : ℕ) → bytes_of (image_of files.new.items) file
        ≡ undone file pending.old.items (bytes_of (image_of files.old.items) file) }
    ensures new { choice ≡ 1 → (file : ℕ) → bytes_of (image_of files.new.items) file ≡ bytes_of (image_of files.old.items) file }
    ensures filled { 2 ≤ choice → (file : ℕ)
        → bytes_of (image_of files.new.items) file ≡ bytes_of (filled choice (image_of files.old.items) (ranges_from [] pending.old.items)) file }
    ensures none { pending.new.items ≡ [] }
{
    if choice == 0 {
        undo_all(files, pending);
    } else if choice >= 2 {
        fill_all(files, pending, choice);
    }
    pending.clear();
}

// What a write of so many bytes will have put over.
pub(crate) fn pending_at(
    alloc: Global,
    own: &[u8],
    file: u32,
    at: u64,
    count: u64,
) -> Result<Pending, AllocError>
    requires inside { at ≤ length own.now }
    ensures is { IfOk result (λ p. (p.file ≡ file) × (p.at ≡ at) × (p.count ≡ count)
        × (p.length ≡ length own.now) × (p.old.items ≡ take count (drop at own.now))) }
{
    let end = own.len().min((at as usize).saturating_add(count as usize));
    let old = own[at as usize..end].to_vec(alloc)?;
    Ok(Pending {
        file,
        at,
        count,
        old,
        length: own.len() as u64,
    })
}
