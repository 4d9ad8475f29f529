//! What a connection is handled with.

use crate::Live;
use sm_origin::Origin;
use sm_site::Site;
use std::alloc::Global;

// A live connection, with the origin that acts on what it sends and the site that its replies go out by.
#[derive(Drop)]
pub(crate) struct Handler<'a, S: Site> {
    pub alloc: Global,
    pub site: &'a mut S,
    pub origin: &'a mut Origin,
    pub live: &'a mut Live,
}
