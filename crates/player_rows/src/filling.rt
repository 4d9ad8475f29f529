//! A catalog and its fragments, with which a shelf is filled.
ghost use Rattle.std.specs.Prelude.{◌≡◌, All, IfOk, map};
ghost use Rattle.sm_model.specs.Channels.{IsChannel};
ghost use Rattle.sm_model.specs.Entries.{address_of};
ghost use Rattle.sm_model.specs.Fragments.{IsValid};
ghost use Rattle.sm_shelf.specs.Parts.{IsListing, addresses_in};

use anyhow::{Result, bail};
use sm_catalog::{Catalog, Judged};
use sm_model::{Address, Channel, Fragment};
use sm_shelf::ShelfWriter;
use sm_site::MemorySite;
use std::alloc::Global;
use std::sync::Wait;

/// A catalog, and all fragments that were added to it, in order.
#[derive(Drop)]
pub struct Filling {
    catalog: Catalog,
    fragments: Vec<Fragment>,
    ghost listing: { IsListing catalog.adds },
    ghost same: { addresses_in catalog.adds ≡ map address_of fragments.items },
    ghost valid: { All IsValid fragments.items },
}

impl Filling {
    /// Of a channel of which nothing is kept.
    pub fn new(alloc: Global, channel: Channel) -> Result<Filling>
        requires { IsChannel channel }
    {
        Ok(Filling {
            catalog: Catalog::new(alloc, channel)?,
            fragments: Vec::new(alloc),
        })
    }

    /// Adds a fragment at the place behind the last.
    pub fn add(&mut self, alloc: Global, fragment: Fragment) -> Result<()>
        requires { IsValid fragment }
    {
        let address = Address::of(alloc, &fragment)?;
        let place = self.catalog.len().saturating_add(1);
        if place >= 4_294_967_295 {
            bail!("too many");
        }
        let Judged::New = self.catalog.judge(&address, fragment.duration) else {
            bail!("not new");
        };
        self.catalog.reserve(&address)?;
        let duration = fragment.duration;
        self.fragments.push(fragment)?;
        self.catalog.add(&address, duration, place);
        Ok(())
    }

    /// Fills a shelf, and answers whether it was filled.
    pub fn fill<R: Wait>(&self, rt: &R, site: &MemorySite, writer: &mut ShelfWriter) -> bool {
        writer
            .fill(rt, site, &self.catalog, self.fragments.as_slice())
            .is_ok()
    }
}
