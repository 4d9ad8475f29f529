//! A part of what a connection sends.
ghost use Rattle.std.specs.Prelude.{is_some, ◌≡◌, true, List, ℕ, Option, Some, None};
ghost use Rattle.sm_conn.specs.Stands.{items_of};
ghost use Rattle.sm_origin.specs.Acting.{IsValidAct};
ghost use Rattle.sm_serve.specs.Run.{act_of_target};
ghost use Rattle.sm_serve.specs.Resting.{SameConn};
ghost use Rattle.sm_serve.specs.Steps.{MayAct, Leaves, TakesParts};

use crate::OpenPush;
use crate::handler::Handler;
use crate::item::starve;
use crate::still::Still;
use crate::tell::tell;
use sm_conn::Part;
use sm_head::CONTINUE;
use sm_model::{Act, Refusal, Target};
use sm_site::Site;

fn act_for(target: Target) -> Act
    ensures is { result ≡ act_of_target target }
    ensures valid { IsValidAct result }
{
    match target {
        Target::Manifest => Act::Manifest,
        Target::Fragment(address) => Act::Fragment(address),
        Target::Streams(_) | Target::Unknown => Act::Unknown,
    }
}

impl<S: Site> Handler<'_, S> {
    // Takes a part inside a push: bytes of its body, its end, or a refusal.
    fn take_inside(&mut self, part: Part) -> Still
        requires may { MayAct S.Disk.seen self.old }
        requires open { is_some self.old.live.now.push ≡ true }
        ensures goes_on { (b : List ℕ) → TakesParts S.Disk.seen (Some b) (items_of part) self.old self.new result }
        ensures leaves { Leaves S.Disk.seen SameConn self.old self.new result }
    {
        match part {
            Part::Body(bytes) => {
                return self.take_body(bytes.as_slice());
            }
            Part::End { close } => {
                return self.take_end(close);
            }
            Part::Bad(cause) => {
                return self.act_on(&Act::Refuse(Refusal { at: 0, cause }), true);
            }
            _ => {}
        }
        starve(self.site, self.live.number)
    }

    // Takes a part outside a push.
    fn take_outside(&mut self, part: Part) -> Still
        requires may { MayAct S.Disk.seen self.old }
        ensures goes_on { TakesParts S.Disk.seen None (items_of part) self.old self.new result }
        ensures leaves { Leaves S.Disk.seen SameConn self.old self.new result }
    {
        match part {
            Part::Get { target, close } => {
                let act = act_for(target);
                return self.act_on(&act, close);
            }
            Part::Continue => {
                return tell(self.site, self.live.number, CONTINUE, false);
            }
            Part::Post => {
                self.live.push = Some(OpenPush::new(self.alloc));
                return Still::Open;
            }
            Part::Bad(cause) => {
                return self.act_on(&Act::Refuse(Refusal { at: 0, cause }), true);
            }
            _ => {}
        }
        starve(self.site, self.live.number)
    }

    // Takes a part.
    pub(crate) fn take_part(&mut self, part: Part) -> Still
        requires may { MayAct S.Disk.seen self.old }
        ensures goes_on { (place : Option (List ℕ)) → TakesParts S.Disk.seen place (items_of part) self.old self.new result }
        ensures leaves { Leaves S.Disk.seen SameConn self.old self.new result }
    {
        if self.live.push.is_some() {
            return self.take_inside(part);
        }
        self.take_outside(part)
    }
}
