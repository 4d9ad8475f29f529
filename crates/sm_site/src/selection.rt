//! What a site is selected with.
use std::marker::Model;

/// The folder of a site's disk, and where its link listens. Contracts see the texts as their bytes.
#[derive(Debug, Drop)]
pub struct Selection {
    /// The path of the folder.
    pub store: String,
    /// Whether the folder is made where it isn't there; else that is a fault of the disk. A site in memory passes over it.
    pub make: bool,
    /// The port of the link; 0 asks for no link.
    pub port: u16,
    /// The one address to listen at, a literal of IPv4 or IPv6 without brackets, in place of all addresses of the machine. Another
    /// text is a fault of the link. A site in memory passes over it.
    pub bind: Option<String>,
    /// The path of the file of the journal, if one is to be written. A site in memory passes over it.
    pub journal: Option<String>,
}

impl Model for Selection {
    ghost use Rattle.std.specs.Prelude.{string_bytes};
    ghost use Rattle.sm_site.specs.Meanings.{Chosen};
    ghost use Rattle.sm_site.specs.Texts.{text_of};

    ghost Value = { Chosen };

    ghost view = { λ s. record { store = string_bytes s.store; make = s.make; port = s.port; bind = text_of s.bind; journal = text_of s.journal } };
}
