//! Channels and fragments that are valid, as rows say them.
ghost use Rattle.std.specs.Prelude.{IfOk};
ghost use Rattle.sm_model.specs.Channels.{IsChannel};
ghost use Rattle.sm_model.specs.Fragments.{IsValid};

use anyhow::{Result, bail};
use sm_model::{Channel, Fragment, Track};
use sm_rows::{Words, stored};
use std::alloc::Global;

/// The channel of these tracks, which are taken out.
pub fn channel(alloc: Global, tracks: &mut Vec<Track>) -> Result<Channel>
    ensures { IfOk result IsChannel }
{
    let channel = stored::channel(alloc, tracks);
    if !channel.is_valid() {
        bail!("no channel");
    }
    Ok(channel)
}

/// A fragment: its stream, bitrate, time and duration, and the bytes of its one sample, which has a duration of 20,000,000.
pub fn fragment(alloc: Global, words: &Words) -> Result<Fragment>
    ensures { IfOk result IsValid }
{
    let fragment = stored::fragment(alloc, words)?;
    if !fragment.is_valid() {
        bail!("no fragment");
    }
    Ok(fragment)
}
