//! What an archive shows without a disk.
ghost use Rattle.std.specs.Prelude.{◌≡◌, ◌↔◌, ℕ, ◌<◌, List, length, Option, None, Some, IfSome, IsTrue, IsSome, option_map, slice_get};
ghost use Rattle.sm_model.specs.declared.track.Track.{Track};
ghost use Rattle.sm_model.specs.declared.fragment.Fragment.{Fragment};
ghost use Rattle.sm_model.specs.declared.entry.Entry.{Entry};
ghost use Rattle.sm_model.specs.declared.entry.Entry.TheVariants.{Declare, Keep};
ghost use Rattle.sm_log.specs.Logs.{channel_of, adds_of};
ghost use Rattle.sm_record.specs.Metas.{IsMetaOf};
ghost use Rattle.sm_archive.specs.Stands.{Keeps, IndexIs};
ghost use Rattle.sm_archive.specs.Looking.{ShowsMeta, ShowsCatalog};

use crate::archive::Archive;
use sm_catalog::Catalog;
use sm_record::Meta;

impl Archive {
    /// How many entries the log has.
    pub fn len(&self) -> u64
        ensures { (bodies : List (List ℕ)) (body : Option (List ℕ)) (log : List Entry) (doubt : Option Entry) → Keeps self.now bodies body log doubt
            → result ≡ length log }
    {
        self.log.len()
    }

    /// Whether an entry is in doubt.
    pub fn in_doubt(&self) -> bool
        ensures { (bodies : List (List ℕ)) (body : Option (List ℕ)) (log : List Entry) (doubt : Option Entry) → Keeps self.now bodies body log doubt
            → IsTrue result ↔ IsSome doubt }
    {
        self.doubt.is_some()
    }

    /// The track and the span of the fragment at a place, if one stands there.
    pub fn meta(&self, place: u64) -> Option<Meta>
        ensures { (bodies : List (List ℕ)) (body : Option (List ℕ)) (log : List Entry) (doubt : Option Entry) → Keeps self.now bodies body log doubt
            → ShowsMeta result log place }
    {
        match &self.index {
            None => None,
            Some(index) => {
                if place == 0 {
                    None
                } else {
                    let at = place as usize - 1;
                    if at < index.metas.len() {
                        Some(index.metas[at])
                    } else {
                        None
                    }
                }
            }
        }
    }

    /// The catalog of the log, which is there once a channel is declared.
    pub fn catalog(&self) -> Option<&Catalog>
        ensures { (bodies : List (List ℕ)) (body : Option (List ℕ)) (log : List Entry) (doubt : Option Entry) → Keeps self.now bodies body log doubt
            → ShowsCatalog (option_map (λ c. c.now) result) log }
    {
        match &self.index {
            None => None,
            Some(index) => Some(&index.catalog),
        }
    }
}
