//! The connections of a player.

use sm_site::Link;

/// The connections of one player. It has no calls of its own: each link is one.
pub trait Wire: Link {}

impl<L: Link> Wire for L {}
