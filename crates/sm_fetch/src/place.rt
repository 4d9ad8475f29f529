//! Where an origin is.
use sm_model::Bytes;

/// Where a channel is asked for: the host and port of its origin, and the path of the channel there.
#[derive(Debug, Drop)]
pub struct Place {
    /// 1 to 255 letters, digits, `.`, `-` and `:`. It goes into `Host` as it is.
    pub host: Bytes,
    pub port: u16,
    /// 1 to 512 bytes without `?` and `.isml/`, not escaped.
    pub path: Bytes,
}
