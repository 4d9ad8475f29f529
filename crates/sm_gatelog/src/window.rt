//! A part of a file that is read at once.
ghost use Rattle.std.specs.Prelude.{◌≡◌, ◌+◌, ◌-◌, ◌<◌, ◌≤◌, length, take, drop, IfSome, IfOk, OnOk};
ghost use Rattle.sm_site.specs.Image.{bytes_of};
ghost use Rattle.sm_site.specs.Clauses.{read};
ghost use Rattle.sm_gatelog.specs.Moments.{Asks};

use sm_site::{Disk, Failed};
use std::alloc::{AllocError, Global};

// How many bytes are read at once.
const WINDOW_BYTES: usize = 65_536;

// Bytes of a file from a place on. Many small records are read in one disk call.
#[derive(Drop)]
pub(crate) struct Window {
    pub(crate) start: u64,
    pub(crate) bytes: Vec<u8>,
}

// A window of zeros, which stands for no file yet.
pub(crate) fn blank_window(alloc: Global) -> Result<Window, AllocError>
    ensures five { IfOk result (λ window. 5 ≤ length window.bytes.items) }
{
    Ok(Window {
        start: 0,
        bytes: vec![in alloc; 0; WINDOW_BYTES]?,
    })
}

// Reads the bytes from this place on into the window.
pub(crate) fn fill<D: Disk>(
    window: &mut Window,
    disk: &mut D,
    file: u32,
    at: u64,
) -> Result<(), Failed>
    ensures told { OnOk result (IfSome (D.seen.view disk.old).contents
        (λ c. window.new.bytes.items ≡ read (bytes_of c file) window.new.start (length window.new.bytes.items))) }
    ensures start { OnOk result (window.new.start ≡ at) }
    ensures length { length window.new.bytes.items ≡ length window.old.bytes.items }
    ensures asks { Asks D.seen disk.old disk.new result }
{
    disk.read_at(file, at, &mut window.bytes)?;
    window.start = at;
    Ok(())
}

// Five bytes of the window.
fn five_at(bytes: &[u8], from: usize) -> [u8; 5]
    requires { from + 5 ≤ length bytes.now }
    ensures { result ≡ take 5 (drop from bytes.now) }
{
    [
        bytes[from],
        bytes[from + 1],
        bytes[from + 2],
        bytes[from + 3],
        bytes[from + 4],
    ]
}

// Moves the window to this place where it doesn't cover five bytes from there on.
fn reach<D: Disk>(window: &mut Window, disk: &mut D, file: u32, at: u64) -> Result<(), Failed>
    requires five { 5 ≤ length window.old.bytes.items }
    requires told { IfSome (D.seen.view disk.old).contents (λ c. window.old.bytes.items ≡ read (bytes_of c file) window.old.start (length window.old.bytes.items)) }
    ensures told { OnOk result (IfSome (D.seen.view disk.old).contents
        (λ c. window.new.bytes.items ≡ read (bytes_of c file) window.new.start (length window.new.bytes.items))) }
    ensures below { OnOk result (window.new.start ≤ at) }
    ensures covers { OnOk result (at - window.new.start + 5 ≤ length window.new.bytes.items) }
    ensures five { 5 ≤ length window.new.bytes.items }
    ensures asks { Asks D.seen disk.old disk.new result }
{
    let last = window.bytes.len() as u64 - 5;
    if window.start <= at && at - window.start <= last {
        return Ok(());
    }
    fill(window, disk, file, at)
}

// The five bytes of a file from a place on.
pub(crate) fn front_at<D: Disk>(
    window: &mut Window,
    disk: &mut D,
    file: u32,
    at: u64,
) -> Result<[u8; 5], Failed>
    requires five { 5 ≤ length window.old.bytes.items }
    requires told { IfSome (D.seen.view disk.old).contents (λ c. window.old.bytes.items ≡ read (bytes_of c file) window.old.start (length window.old.bytes.items)) }
    ensures front { IfOk result (λ front. IfSome (D.seen.view disk.old).contents (λ c. front ≡ read (bytes_of c file) at 5)) }
    ensures told { IfOk result (λ front. IfSome (D.seen.view disk.old).contents
        (λ c. window.new.bytes.items ≡ read (bytes_of c file) window.new.start (length window.new.bytes.items))) }
    ensures five { 5 ≤ length window.new.bytes.items }
    ensures asks { Asks D.seen disk.old disk.new result }
{
    reach(window, disk, file, at)?;
    Ok(five_at(&window.bytes, (at - window.start) as usize))
}
