//! A piece that came on a connection.
ghost use Rattle.std.specs.Prelude.{◌≡◌, true, List, ℕ, Option};
ghost use Rattle.sm_site.specs.Meanings.Deal.{Came};
ghost use Rattle.sm_conn.specs.Stands.{joined};
ghost use Rattle.sm_serve.specs.Connections.{received, is_open};
ghost use Rattle.sm_serve.specs.Run.{idle};
ghost use Rattle.sm_serve.specs.Between.{TakesNone};
ghost use Rattle.sm_serve.specs.Standing.{History, StandsOn, StandsForSome, Pending, stays_open};
ghost use Rattle.sm_serve.specs.Resting.{counts_of, SameConn, Rests};
ghost use Rattle.sm_serve.specs.Giving.{PieceGives};
ghost use Rattle.sm_serve.specs.Steps.{IsLiveOn, MayAct, Leaves, TakesParts};

use crate::Live;
use crate::handler::Handler;
use crate::still::Still;
use crate::tell::tell;
use sm_conn::Part;
use sm_head::NO_MEMORY;
use sm_origin::Origin;
use sm_site::Site;
use sm_wire::law::wire_of_front;
use std::alloc::Global;

impl<S: Site> Handler<'_, S> {
    // Takes parts, one after the other.
    fn take_parts(&mut self, parts: Vec<Part>) -> Still
        requires may { MayAct S.Disk.seen self.old }
        ensures goes_on { (place : Option (List ℕ)) → TakesParts S.Disk.seen place (joined parts.items) self.old self.new result }
        ensures leaves { Leaves S.Disk.seen SameConn self.old self.new result }
    {
        for part in parts {
            match self.take_part(part) {
                Still::Open => {}
                Still::Closed => return Still::Closed,
            }
        }
        Still::Open
    }
}

// Takes a piece that came on a live connection.
pub(crate) fn take_piece<S: Site>(
    alloc: Global,
    site: &mut S,
    origin: &mut Origin,
    live: &mut Live,
    piece: &[u8],
) -> Still
    requires stands { StandsForSome S.Disk.seen origin.old site.old }
    requires live { IsLiveOn S.Disk.seen live.old.number site.old }
    ensures goes_on { (h : History) (m : ℕ) → Pending S.Disk.seen h m (Came live.old.number piece.now) site.old
        → StandsOn S.Disk.seen h.point.machine origin.old site.old → h.point.phase ≡ idle → is_open live.old.number h.items ≡ true
        → h.point.counts live.old.number ≡ counts_of live.old
        → Rests live.old (received live.old.number h.items)
        → PieceGives S.Disk.seen h m piece.now live.old.number (stays_open result) live.new origin.new site.new }
    ensures stands { StandsForSome S.Disk.seen origin.new site.new }
    ensures same { live.new.number ≡ live.old.number }
    ensures link { TakesNone (S.Disk.seen.view site.old) (S.Disk.seen.view site.new) }
{
    wire_of_front();
    match live.conn.feed(piece) {
        Ok(parts) => {
            let mut handler = Handler {
                alloc,
                site,
                origin,
                live,
            };
            handler.take_parts(parts.into_vec())
        }
        Err(_) => tell(site, live.number, NO_MEMORY, true),
    }
}
