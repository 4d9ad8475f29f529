//! The pushes of a rehearsal.
ghost use Rattle.std.specs.Prelude.{◌≡◌, ◌≤◌, ◌<◌, ◌*◌, ◌^◌, ◌∷◌, [], OnOk, IfOk, if◌then◌else◌};
ghost use Rattle.sm_world.specs.Deeds.{before_a, body_of_a, chance_by, deeds_in, of_b, round_of};
ghost use Rattle.sm_world.specs.Deeds.Deed.{Pushes};
ghost use Rattle.sm_world.specs.Rounds.{behind, crashes, drawn, is_crash, is_refused, kind_by, refusals, state_by, stirred};
ghost use Rattle.sm_world.specs.Stages.{HasPushed};
ghost use Rattle.sm_world.specs.Told.{known_by, refused_by};

use crate::OriginDial;
use crate::draws::Draws;
use crate::encoders::{LENGTH, push_of_a, push_of_b};
use crate::kind::{Kind, draw_kind};
use crate::told::{Told, told_by};
use sm_fetch::{Place, push_body};
use sm_model::{Bytes, Name, NoMemory};
use sm_site::MemorySite;
use std::alloc::Global;

// An origin in memory, the way to it, and what it has said of pushes: how many fragments were known, and how many pushes it refused.
#[derive(Drop)]
pub(crate) struct Stage {
    pub alloc: Global,
    pub dial: OriginDial<MemorySite>,
    pub place: Place,
    pub id: Name,
    pub header: Bytes,
    pub known: u64,
    pub refused: u64,
}

impl Stage {
    // Pushes a body of so many fragments.
    fn push(&mut self, body: &[u8], fragments: u64) -> Result<Told, NoMemory>
        requires few { fragments ≤ 3 }
        requires known { self.old.known < 2 ^ 62 }
        requires refused { self.old.refused < 2 ^ 62 }
        ensures { IfOk result (λ told. HasPushed self.old self.new (Pushes fragments body.now ∷ []) 0 (refused_by told) 3) }
    {
        let pushed = push_body(self.alloc, &mut self.dial, &self.place, &self.id, body);
        let told = told_by(self.alloc, fragments, pushed)?;
        match told {
            Told::Taken { known } => self.known += known,
            Told::Refused => self.refused += 1,
            Told::Failed => {}
        }
        Ok(told)
    }

    // Pushes a body of so many fragments, all of which have to be taken.
    fn push_taken(&mut self, body: &[u8], fragments: u64) -> Result<(), NoMemory>
        requires few { fragments ≤ 3 }
        requires known { self.old.known < 2 ^ 62 }
        requires refused { self.old.refused < 2 ^ 62 }
        ensures { OnOk result (HasPushed self.old self.new (Pushes fragments body.now ∷ []) 0 0 3) }
    {
        match self.push(body, fragments)? {
            Told::Taken { .. } => Ok(()),
            Told::Refused | Told::Failed => Err(NoMemory),
        }
    }

    // Pushes a body of one fragment, which has to be refused.
    fn push_refused(&mut self, body: &[u8]) -> Result<(), NoMemory>
        requires known { self.old.known < 2 ^ 62 }
        requires refused { self.old.refused < 2 ^ 62 }
        ensures { OnOk result (HasPushed self.old self.new (Pushes 1 body.now ∷ []) 0 1 3) }
    {
        match self.push(body, 1)? {
            Told::Refused => Ok(()),
            Told::Taken { .. } | Told::Failed => Err(NoMemory),
        }
    }

    // Pushes a body of three fragments while the disk may stop: it is taken, or fails.
    fn push_stopped(&mut self, body: &[u8]) -> Result<(), NoMemory>
        requires known { self.old.known < 2 ^ 62 }
        requires refused { self.old.refused < 2 ^ 62 }
        ensures { OnOk result (HasPushed self.old self.new (Pushes 3 body.now ∷ []) 0 0 3) }
    {
        match self.push(body, 3)? {
            Told::Taken { .. } => Ok(()),
            Told::Failed => Ok(()),
            Told::Refused => Err(NoMemory),
        }
    }

    // The disk stops in the middle of a push, or behind it, and the site crashes.
    fn crash(&mut self, draws: &mut Draws, body: &[u8]) -> Result<(), NoMemory>
        requires known { self.old.known < 2 ^ 62 }
        requires refused { self.old.refused < 2 ^ 62 }
        ensures pushed { OnOk result (HasPushed self.old self.new (before_a Kind.Crash body.now (drawn (stirred draws.old.state))) 1 0 3) }
        ensures drawn { draws.new.state ≡ stirred draws.old.state }
    {
        let chance = draws.draw();
        self.dial.stop_disk(chance as u64 % 12);
        self.push_stopped(body)?;
        self.dial.crash_by((chance % 4) as u8);
        Ok(())
    }

    // What happens before encoder A pushes for good.
    fn begin(&mut self, kind: Kind, draws: &mut Draws, body: &[u8]) -> Result<(), NoMemory>
        requires known { self.old.known < 2 ^ 62 }
        requires refused { self.old.refused < 2 ^ 62 }
        ensures pushed { OnOk result (HasPushed self.old self.new (before_a kind body.now (drawn (stirred draws.old.state)))
            (if is_crash kind then 1 else 0) 0 3) }
        ensures drawn { draws.new.state ≡ behind kind draws.old.state }
    {
        match kind {
            Kind::Crash => self.crash(draws, body),
            Kind::Known => Ok(()),
            Kind::Clash => Ok(()),
            Kind::Overlap => Ok(()),
            Kind::Same => Ok(()),
            Kind::Alone => Ok(()),
        }
    }

    // What encoder B pushes in round `i`, where encoder A pushed this body.
    fn push_of_b(&mut self, kind: Kind, i: u64, body: &[u8]) -> Result<(), NoMemory>
        requires known { self.old.known < 2 ^ 62 }
        requires refused { self.old.refused < 2 ^ 62 }
        requires early { i < 2 ^ 32 }
        requires of_a { body.now ≡ body_of_a self.old.header i }
        ensures { OnOk result (HasPushed self.old self.new (of_b kind self.old.header i) 0 (if is_refused kind then 1 else 0) 3) }
    {
        let header = self.header.as_slice();
        let time = LENGTH * i;
        match kind {
            Kind::Known => {
                let other = push_of_b(self.alloc, header, time, LENGTH)?;
                self.push_taken(&other, 1)
            }
            Kind::Clash => {
                let other = push_of_b(self.alloc, header, time, 1)?;
                self.push_refused(&other)
            }
            Kind::Overlap => {
                let other = push_of_b(self.alloc, header, time + 1, LENGTH)?;
                self.push_refused(&other)
            }
            Kind::Same => self.push_taken(body, 3),
            Kind::Crash | Kind::Alone => Ok(()),
        }
    }

    // Round `i`, from 0.
    fn round(&mut self, draws: &mut Draws, i: u64) -> Result<(), NoMemory>
        requires known { self.old.known < 2 ^ 61 }
        requires refused { self.old.refused < 2 ^ 61 }
        requires early { i < 2 ^ 32 }
        ensures pushed { OnOk result (HasPushed self.old self.new
            (round_of (kind_by draws.old.state) self.old.header i (chance_by draws.old.state)) (if is_crash (kind_by draws.old.state) then 1 else 0)
            (if is_refused (kind_by draws.old.state) then 1 else 0) 9) }
        ensures drawn { OnOk result (draws.new.state ≡ behind (kind_by draws.old.state) (state_by draws.old.state)) }
    {
        let kind = draw_kind(draws);
        let pushed = push_of_a(self.alloc, self.header.as_slice(), i)?;
        let body = pushed.as_slice();
        self.begin(kind, draws, body)?;
        self.push_taken(body, 3)?;
        self.push_of_b(kind, i, body)
    }

    /// So many rounds, with what is drawn from this number on.
    pub fn rounds(&mut self, number: u32, size: u64) -> Result<(), NoMemory>
        requires none_known { self.old.known ≡ 0 }
        requires none_refused { self.old.refused ≡ 0 }
        requires few { size ≤ 2000 }
        ensures { OnOk result (HasPushed self.old self.new (deeds_in self.old.header size number) (crashes size number) (refusals size number) (9 * size)) }
    {
        let mut draws = Draws { state: number };
        for i in 0..size {
            self.round(&mut draws, i)?;
        }
        Ok(())
    }
}
