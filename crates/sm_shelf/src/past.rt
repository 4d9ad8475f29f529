//! What was published, for clauses alone.
ghost use Rattle.std.specs.Prelude.{◌≡◌, List, [], ◌∷◌, ◌++◌};
ghost use Rattle.sm_shelf.specs.Past.{Publishing, publishing};
ghost use base.Fml.{ftrue};

use crate::rule::Core;
use crate::stock::Stock;
use sm_site::Site;
use std::marker::{Model, PhantomData};
use std::snapshot::Snapshot;

/// How a past is read off a value.
pub trait Recounts<X> {
    ghost past: { X → List Publishing };
}

/// What was published, one after the other. It has no bytes and owns nothing, so only a clause ties `items`.
pub struct Past {
    marker: PhantomData<()>,
    pub ghost items: { List Publishing },
}

impl Model for Past {
    ghost also_owns = { λ _. ftrue };
}

impl Past {
    // The past that is read off a value.
    fn of<X, M: Recounts<X>>(x: &X) -> Past
        ensures { result.items ≡ M.past x.now }
    {
        let _ = x;
        Past {
            marker: PhantomData,
        }
    }
}

impl Drop for Past {
    fn drop(self) {
        let Self { marker: _ } = self;
    }
}

// Of nothing.
struct Nothing;

impl Recounts<()> for Nothing {
    ghost past = { λ _. [] };
}

// A past, what is published behind it, and the site beside which that is done.
struct Grown<S> {
    past: Snapshot<Past>,
    digest: Snapshot<Stock>,
    site: Snapshot<S>,
}

impl<S> Drop for Grown<S> {
    fn drop(self) {
        let Grown {
            past: _,
            digest: _,
            site: _,
        } = self;
    }
}

// One publishing more.
struct Grows;

impl<S: Site> Recounts<Grown<S>> for Grows {
    ghost past = { λ g. g.past.value.items ++ publishing (S.Disk.seen.view g.site.value).transcript g.digest.value ∷ [] };
}

impl Past {
    /// Nothing was published.
    pub fn none() -> Past
        ensures { result.items ≡ [] }
    {
        Past::of::<(), Nothing>(&())
    }

    /// Behind it, what is published now was.
    pub fn with<S: Site>(&self, core: &Core, site: &S) -> Past
        ensures { result.items ≡ self.now.items ++ publishing (S.Disk.seen.view site.now).transcript core.now.desk.shown.value ∷ [] }
    {
        let grown = Grown {
            past: Snapshot::of(self),
            digest: Snapshot::of(core.published()),
            site: Snapshot::of(site),
        };
        Past::of::<Grown<S>, Grows>(&grown)
    }
}

/// The past with what is published now, in place.
pub fn note<S: Site>(past: &mut Past, core: &Core, site: &S)
    ensures { past.new.items ≡ past.old.items ++ publishing (S.Disk.seen.view site.now).transcript core.now.desk.shown.value ∷ [] }
{
    let longer = past.with(core, site);
    *past = longer;
}
