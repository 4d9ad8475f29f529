//! Whether a header is that of a store.
ghost use Rattle.std.specs.Prelude.{◌≡◌, ◌<◌, ℕ, List, None, Some, Err, IfOk, length, slice_get};
ghost use Rattle.sm_model.specs.declared.cause.Cause.{Cause};
ghost use Rattle.sm_export.specs.Exporting.{unfit_in};
ghost use Rattle.sm_export.specs.declared.fit.Unfit.TheVariants as unfit;

use crate::head::Head;
use sm_catalog::Catalog;
use sm_log::Checked;
use sm_model::{Cause, Channel, Name, NoMemory, Track};
use std::alloc::Global;

// Why a header isn't that of a store.
#[derive(Drop)]
pub(crate) enum Unfit {
    Refused(Cause),
    NoMemory,
}

// The track at that place, taken out.
fn track_at(tracks: Channel, place: u64) -> Track
    requires { place < length tracks }
    ensures { slice_get tracks place ≡ Some result }
{
    let mut tracks = tracks.into_vec();
    tracks.swap_remove(place as usize)
}

// The track_ID of the quality in a header that agrees with the catalog's channel.
pub(crate) fn id_in(
    alloc: Global,
    catalog: &Catalog,
    head: Head,
    name: &Name,
    bitrate: u32,
) -> Result<u32, Unfit>
    ensures ok { IfOk result (λ id. (head.id ≡ Some id) × (unfit_in catalog.now.channel head.channel head.id name.now bitrate ≡ None)) }
    ensures refused { (cause : Cause) → result ≡ Err (unfit.Refused cause) → unfit_in catalog.now.channel head.channel head.id name.now bitrate ≡ Some cause }
{
    match catalog.check(&head.channel) {
        Checked::NotDeclared { index } => {
            let track = track_at(head.channel, index);
            Err(Unfit::Refused(Cause::NotDeclared {
                stream: track.name,
                bitrate: track.bitrate,
            }))
        }
        Checked::Clash { index } => {
            let track = track_at(head.channel, index);
            Err(Unfit::Refused(Cause::DeclClash {
                stream: track.name,
                bitrate: track.bitrate,
            }))
        }
        Checked::Agreed => match head.id {
            Some(id) => Ok(id),
            None => match name.copy(alloc) {
                Ok(stream) => Err(Unfit::Refused(Cause::NotDeclared { stream, bitrate })),
                Err(NoMemory) => Err(Unfit::NoMemory),
            },
        },
    }
}
