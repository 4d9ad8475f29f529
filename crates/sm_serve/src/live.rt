//! A live connection.
ghost use Rattle.std.specs.Prelude.{◌≡◌, IfOk};
ghost use Rattle.sm_serve.specs.Run.{counts_by};
ghost use Rattle.sm_serve.specs.Resting.{counts_of, SameBut};

use crate::OpenPush;
use sm_conn::Conn;
use sm_model::NoMemory;
use sm_origin::Counted;
use std::alloc::Global;

/// A live connection: what it has sent, and the push that is open on it with what that counted.
#[derive(Drop)]
pub struct Live {
    pub number: u64,
    pub conn: Conn,
    pub push: Option<OpenPush>,
    /// How many fragments of the push were kept; it stands still at its type's end.
    pub kept: u64,
    /// How many were known before.
    pub known: u64,
}

impl Live {
    ghost use Rattle.sm_serve.specs.Resting.{IsNewborn};

    // A connection that has sent nothing.
    pub(crate) fn new(alloc: Global, number: u64) -> Result<Live, NoMemory>
        ensures { IfOk result (IsNewborn number) }
    {
        let conn = Conn::new(alloc)?;
        Ok(Live {
            number,
            conn,
            push: None,
            kept: 0,
            known: 0,
        })
    }

    // Counts a fragment.
    pub(crate) fn count(&mut self, counted: Counted)
        ensures counts { counts_of self.new ≡ counts_by counted (counts_of self.old) }
        ensures same { SameBut self.old self.new }
    {
        match counted {
            Counted::Kept => self.kept = self.kept.saturating_add(1),
            Counted::Known => self.known = self.known.saturating_add(1),
            Counted::Neither => {}
        }
    }
}
