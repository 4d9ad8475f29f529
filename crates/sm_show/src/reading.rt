//! Reading back what the shelf lacks.
ghost use Rattle.std.specs.Prelude.{◌≡◌, ◌≤◌, ◌<◌, ◌++◌, ◌∷◌, ◌⊎◌, [], true, false, Some, IfOk, IfSome, slice_get};
ghost use Rattle.sm_model.specs.declared.fragment.Fragment.{Fragment};
ghost use Rattle.sm_model.specs.Fragments.{sample_bytes};
ghost use Rattle.sm_log.specs.Adds.{Add};
ghost use Rattle.sm_show.specs.Recalling.{Lists, Reads, ReadsBack, IsEndOf};

use crate::outcome::{Lack, fragment_in};
use sm_catalog::Catalog;
use sm_model::{Address, Fragment, NoMemory};
use sm_serve::State;
use sm_shelf::law::catalogs_of_logs_fit;
use sm_site::Site;
use std::alloc::Global;

// The address of what was added at that index.
fn address_at(alloc: Global, catalog: &Catalog, index: u64) -> Result<Option<Address>, NoMemory>
    ensures { IfOk result (λ o. IfSome o (λ a. (x : Add) × (slice_get catalog.now.adds index ≡ Some x) × (a ≡ x.address))) }
{
    let Some(added) = catalog.added(index) else {
        return Ok(None);
    };
    let tracks = catalog.channel().as_slice();
    let at = added.track as usize;
    if at >= tracks.len() {
        return Ok(None);
    }
    Ok(Some(Address {
        stream: tracks[at].name.copy(alloc)?,
        bitrate: tracks[at].bitrate,
        time: added.time,
    }))
}

// The fragment of an address that was added at that index, read back.
fn recall<S: Site>(
    site: &mut S,
    state: &State,
    catalog: &Catalog,
    index: u64,
    address: &Address,
) -> Result<Fragment, Lack>
    requires lists { Lists S.Disk.seen state.now.origin catalog.now site.old }
    requires at { (x : Add) × (slice_get catalog.now.adds index ≡ Some x) × (address.now ≡ x.address) }
    ensures back { ReadsBack S.Disk.seen state.now site.old site.new result }
    ensures reads { IfOk result (Reads S.Disk.seen state.now catalog.now.adds index site.old) }
{
    catalogs_of_logs_fit();
    let fetched = state.recall(site, address);
    fragment_in(fetched)
}

/// The fragment that was added at that index, read back.
pub fn fetch<S: Site>(
    site: &mut S,
    state: &State,
    catalog: &Catalog,
    index: u64,
) -> Result<Fragment, Lack>
    requires { Lists S.Disk.seen state.now.origin catalog.now site.old }
    ensures back { ReadsBack S.Disk.seen state.now site.old site.new result }
    ensures reads { IfOk result (Reads S.Disk.seen state.now catalog.now.adds index site.old) }
{
    match address_at(state.alloc, catalog, index) {
        Ok(Some(address)) => recall(site, state, catalog, index, &address),
        Ok(None) | Err(NoMemory) => Err(Lack::NoMemory),
    }
}

// The same, put behind those that were read before. Gives how many bytes its samples have.
fn read_next<S: Site>(
    site: &mut S,
    state: &State,
    catalog: &Catalog,
    index: u64,
    read: &mut Vec<Fragment>,
) -> Result<u64, Lack>
    requires { Lists S.Disk.seen state.now.origin catalog.now site.old }
    ensures back { ReadsBack S.Disk.seen state.now site.old site.new result }
    ensures read { IfOk result (λ n. (f : Fragment) × (read.new.items ≡ read.old.items ++ f ∷ []) × (n ≡ sample_bytes f.samples)
        × Reads S.Disk.seen state.now catalog.now.adds index site.old f) }
{
    match fetch(site, state, catalog, index) {
        Ok(fragment) => {
            let bytes = fragment.bytes();
            match read.push(fragment) {
                Ok(()) => Ok(bytes),
                Err(_) => Err(Lack::NoMemory),
            }
        }
        Err(lack) => Err(lack),
    }
}

// Whether more is to be read: so many are left, and so many bytes were read.
fn is_short(left: u64, bytes: u64) -> bool
    ensures more { result ≡ true → (0 < left) × (bytes ≤ 67108864) }
    ensures enough { result ≡ false → (left ≡ 0) ⊎ (67108864 < bytes) }
{
    left > 0 && bytes <= 67_108_864
}

/// The last fragments of the log, read back from the last one on: all of them, or as many as are the first not to fit a window.
pub fn read_back<S: Site>(
    site: &mut S,
    state: &State,
    catalog: &Catalog,
) -> Result<Vec<Fragment>, Lack>
    requires { Lists S.Disk.seen state.now.origin catalog.now site.old }
    ensures back { ReadsBack S.Disk.seen state.now site.old site.new result }
    ensures last { IfOk result (λ v. IsEndOf S.Disk.seen state.now catalog.now.adds site.old v.items) }
{
    catalogs_of_logs_fit();
    let mut read = Vec::new(state.alloc);
    let mut left = catalog.len();
    let mut bytes = 0;
    while is_short(left, bytes) {
        match read_next(site, state, catalog, left - 1, &mut read) {
            Ok(count) => {
                bytes += count;
                left -= 1;
            }
            Err(lack) => return Err(lack),
        }
    }
    read.reverse();
    Ok(read)
}
