//! What the loop has published before players are asked.
ghost use Rattle.sm_site.specs.Memory.{site_seen};
ghost use Rattle.sm_origin.specs.Machine.{Machine};
ghost use Rattle.sm_serve.specs.Standing.{StandsOn};
ghost use Rattle.sm_serve.specs.Serving.{Known};

use anyhow::{Result, bail};
use sm_archive::Limits;
use sm_serve::{Served, State};
use sm_shelf::ShelfWriter;
use sm_show::serve_shown;
use sm_site::MemorySite;
use std::alloc::Global;
use std::sync::Wait;

// Far more turns than a row has events.
const TURNS: u64 = 100_000_000;

fn serve<R: Wait>(
    rt: &R,
    state: &mut State,
    site: &mut MemorySite,
    writer: &mut ShelfWriter,
) -> Result<()>
    requires stands { (m : Machine) × StandsOn site_seen m state.old.origin site.old }
    requires known { Known site_seen state.old site.old }
{
    match serve_shown(rt, site, state, writer, TURNS) {
        Served::Done {
            turns: _,
            behind: 0,
            short: 0,
        } => Ok(()),
        _ => bail!("the loop did not publish all"),
    }
}

/// Opens the store of the site, and serves what it brings until nothing more comes, beside the shelf.
pub fn publish<R: Wait>(
    rt: &R,
    alloc: Global,
    site: &mut MemorySite,
    writer: &mut ShelfWriter,
) -> Result<()> {
    match State::start(alloc, site, Limits::standard()) {
        Ok(mut state) => serve(rt, &mut state, site, writer),
        Err(_) => bail!("no store"),
    }
}
