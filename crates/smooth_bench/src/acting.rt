//! The same fragments kept by an origin, and one asked for again and again.
ghost use Rattle.std.specs.Prelude.{IfOk, IsSome};
ghost use Rattle.sm_model.specs.Channels.{IsChannel};
ghost use Rattle.sm_model.specs.Fragments.{IsValid};
ghost use Rattle.sm_site.specs.Memory.{site_view, site_may_leave};
ghost use Rattle.sm_origin.specs.Machine.{Machine};
ghost use Rattle.sm_origin.specs.Acting.{StandsFor};

use crate::values::{TRACKS, asked, block, channel, fragment, start_of};
use anyhow::{Result, bail, ensure};
use sm_archive::{Declared, Limits};
use sm_model::{Act, Address, Channel, Fragment, Part};
use sm_origin::{Counted, Origin};
use sm_site::{MemorySite, Numbers, Script};
use std::alloc::Global;

fn declare(alloc: Global, origin: &mut Origin, site: &mut MemorySite, ladder: &Channel) -> bool
    requires valid { IsChannel ladder.now }
    requires stands { (m : Machine) × StandsFor (IsSome (site_view site.old).contents) m origin.old (site_may_leave site.old) }
    ensures { (m : Machine) × StandsFor (IsSome (site_view site.new).contents) m origin.new (site_may_leave site.new) }
{
    match origin.declare(alloc, site, ladder) {
        Declared::Fixed => true,
        _ => false,
    }
}

fn keep(alloc: Global, origin: &mut Origin, site: &mut MemorySite, fragment: Fragment) -> bool
    requires valid { IsValid fragment }
    requires stands { (m : Machine) × StandsFor (IsSome (site_view site.old).contents) m origin.old (site_may_leave site.old) }
    ensures { (m : Machine) × StandsFor (IsSome (site_view site.new).contents) m origin.new (site_may_leave site.new) }
{
    match origin.act(alloc, site, &Act::Frag(fragment)).counted {
        Counted::Kept => true,
        Counted::Known | Counted::Neither => false,
    }
}

// Keeps the fragments of a time.
fn keep_time(
    alloc: Global,
    origin: &mut Origin,
    site: &mut MemorySite,
    time: u64,
    bytes: &Part,
) -> Result<()>
    requires { (m : Machine) × StandsFor (IsSome (site_view site.old).contents) m origin.old (site_may_leave site.old) }
    ensures { (m : Machine) × StandsFor (IsSome (site_view site.new).contents) m origin.new (site_may_leave site.new) }
{
    for at in TRACKS {
        let fragment = fragment(alloc, at, time, bytes, true)?;
        ensure!(keep(alloc, origin, site, fragment), "not kept");
    }
    Ok(())
}

fn keep_all(
    alloc: Global,
    origin: &mut Origin,
    site: &mut MemorySite,
    times: u32,
    size: u32,
) -> Result<()>
    requires { (m : Machine) × StandsFor (IsSome (site_view site.old).contents) m origin.old (site_may_leave site.old) }
    ensures { (m : Machine) × StandsFor (IsSome (site_view site.new).contents) m origin.new (site_may_leave site.new) }
{
    let bytes = block(alloc, size)?;
    let ladder = channel(alloc)?;
    ensure!(declare(alloc, origin, site, &ladder), "not declared");
    for place in 0..times {
        keep_time(alloc, origin, site, start_of(place, 0), &bytes)?;
    }
    Ok(())
}

// Asks for a fragment so many times, and gives how many bytes came.
fn ask_all(
    alloc: Global,
    origin: &mut Origin,
    site: &mut MemorySite,
    wanted: Address,
    repeats: u32,
) -> u64
    requires { (m : Machine) × StandsFor (IsSome (site_view site.old).contents) m origin.old (site_may_leave site.old) }
{
    let act = Act::Fragment(wanted);
    let mut done = 0u64;
    for _ in 0..repeats {
        let reply = origin.act(alloc, site, &act);
        let (head, tail) = reply.bytes.parts();
        done = done.saturating_add((head.len() as u64).saturating_add(tail.len() as u64));
    }
    done
}

/// Keeps the fragments of so many times on a disk in memory, asks for one of the third last so many times, and gives how many bytes came. It
/// is in the cache.
pub fn act(alloc: Global, times: u32, size: u32, repeats: u32) -> Result<u64> {
    let mut site = MemorySite::new(
        alloc,
        Script::from_vec(Vec::new(alloc)),
        Numbers::from_vec(Vec::new(alloc)),
        Numbers::from_vec(Vec::new(alloc)),
    );
    let limits = Limits::standard();
    let Ok(mut origin) = Origin::open_origin(alloc, &mut site, limits) else {
        bail!("no store");
    };
    keep_all(alloc, &mut origin, &mut site, times, size)?;
    let wanted = asked(alloc, times)?;
    Ok(ask_all(alloc, &mut origin, &mut site, wanted, repeats))
}
