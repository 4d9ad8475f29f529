//! Where exchanges go, and the names of what they are about.
use anyhow::{Result, bail};
use sm_fetch::Place;
use sm_model::{Bytes, Name};
use std::alloc::Global;

/// The channel with this path at this origin.
pub fn place(alloc: Global, host: &[u8], port: u16, path: &[u8]) -> Result<Place> {
    let host = Bytes::from_slice(alloc, host)?;
    let path = Bytes::from_slice(alloc, path)?;
    Ok(Place { host, port, path })
}

/// These bytes as a name, which they have to be.
pub fn name(alloc: Global, bytes: &[u8]) -> Result<Name> {
    match Name::read(alloc, bytes) {
        Ok(name) => Ok(name),
        Err(_) => bail!("no name"),
    }
}
