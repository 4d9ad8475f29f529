//! The answers of logs in words.
use anyhow::Result;
use sm_gatelog::{Appended, Settled};
use std::alloc::Global;

/// What became of a body.
pub fn appended(alloc: Global, answer: Appended) -> Result<String> {
    Ok(match answer {
        Appended::Stored { place } => format!(in alloc; "stored {place}")?,
        Appended::Clean => String::from_str(alloc, "clean")?,
        Appended::Doubt => String::from_str(alloc, "doubt")?,
    })
}

/// What became of a body in doubt.
pub fn settled(alloc: Global, answer: Settled) -> Result<String> {
    Ok(match answer {
        Settled::Stored { place } => format!(in alloc; "stored {place}")?,
        Settled::Gone => String::from_str(alloc, "gone")?,
        Settled::DiskFault => String::from_str(alloc, "disk fault")?,
    })
}
