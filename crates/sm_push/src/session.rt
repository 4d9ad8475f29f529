//! A push session.
ghost use Rattle.std.specs.Prelude.{◌≡◌, ◌<◌, ◌≤◌, ◌+◌, ◌++◌, ◌↔◌, length, Bool, true, false, List, ℕ, [], IsTrue, IsErrOf, OnOk, OnErr};
ghost use Rattle.sm_push.specs.Body.{body};
ghost use Rattle.sm_push.specs.Body;
ghost use Rattle.sm_push.specs.Header.{id_for};
ghost use Rattle.sm_push.specs.Standing.{Stands, Answers, Ends, held_bytes, missing_bytes, push_header};

use crate::fault::{PushFault, StepFault};
use crate::held::Held;
use crate::kept::Kept;
use crate::state::{HeaderStage, PushState};
use crate::track::id_for;
use sm_model::{Cause, Items, Name, Refusal};
use std::alloc::Global;
use std::marker::Model;

/// One push body, in any pieces. The items and the refusal are those of the joined pieces.
///
/// It keeps of its bytes what later ones need: the begun box, if that is one that is read, the header's boxes until both
/// came, and a `moof` until its `mdat` came. Boxes that are passed over take no memory, whatever their size.
#[derive(Drop)]
pub struct Push {
    alloc: Global,
    kept: Kept,
    count: u64,
    failed: bool,
}

impl Model for Push {
    ghost use Rattle.sm_push.specs.Standing.{Standing, IsReady};

    ghost Value = { Standing };

    ghost view = { λ p. record { kept = p.kept; count = p.count; failed = p.failed } };

    ghost invariant = { λ p. IsReady p.failed p.kept };
}

/// What a push keeps before its first byte.
pub fn start(alloc: Global, headerless: bool) -> Kept
    ensures { result ≡ record { state = Body.push_start headerless; held = []; skip = 0 } }
{
    Kept {
        state: PushState {
            headerless,
            stage: HeaderStage::Gathering {
                manifest: None,
                moov: None,
            },
            moof: None,
            at: 0,
        },
        held: Held::new(alloc),
        skip: 0,
    }
}

impl Push {
    /// A push whose fragments come behind a header.
    pub fn new(alloc: Global) -> Push
        ensures { Stands false result [] }
    {
        let kept = start(alloc, false);
        Push {
            alloc,
            kept,
            count: 0,
            failed: false,
        }
    }

    /// A push that needs no header. Until one comes, track n has the stream name n in decimal and the bitrate n, and zero
    /// defaults.
    pub fn headerless(alloc: Global) -> Push
        ensures { Stands true result [] }
    {
        let kept = start(alloc, true);
        Push {
            alloc,
            kept,
            count: 0,
            failed: false,
        }
    }

    /// Takes the next piece of the body, and answers the items that it completes. After a refusal, and after want of
    /// memory, it answers from then on that it has failed, holds no bytes any more, and keeps the header, where it read
    /// one. It takes time in proportion to the piece and what that completes, however small the pieces are, and copies the
    /// bytes of samples into their item once. How many items a piece may complete is up to the caller: `due` bounds it.
    pub fn feed(&mut self, piece: &[u8]) -> Result<Items, PushFault>
        // Whatever bytes it stands for.
        ensures answers { (headerless : Bool) (b : List ℕ) → Stands headerless self.old b → Answers headerless b piece.now self.new result }
        ensures failed { IsErrOf result PushFault.Failed ↔ IsTrue self.old.failed }
        ensures fails { OnErr result (IsTrue self.new.failed) }
        ensures unchanged { IsErrOf result PushFault.Failed → self.new ≡ self.old }
        // An mdat of 64 MiB and its head, and one box of a header that is not complete, of 1 MiB. Beside these it holds what a
        // moof said, of 65,536 samples at the most.
        ensures holds { held_bytes self.new < 68157456 }
        ensures freed { OnErr result (held_bytes self.new ≡ 0) }
    {
        if self.failed {
            return Err(PushFault::Failed);
        }
        let mut items = Items::new(self.alloc);
        match self.kept.take_piece(self.alloc, &mut items, piece) {
            Ok(()) => {
                self.count = self.count.saturating_add(piece.len() as u64);
                Ok(items)
            }
            Err(StepFault::Refused(refusal)) => {
                self.failed = true;
                self.kept.clear(self.alloc);
                Err(PushFault::Refused {
                    before: items,
                    refusal,
                })
            }
            Err(StepFault::NoMemory) => {
                self.failed = true;
                self.kept.clear(self.alloc);
                Err(PushFault::NoMemory)
            }
        }
    }

    /// A piece of so many bytes, or fewer, gives one item at the most. It is at least 1, and no less than what is missing of
    /// the box that was begun, once its head is there. Of a push that has failed it is the greatest number. It takes no
    /// memory.
    pub fn due(&self) -> u64
        ensures some { 0 < result }
        ensures missing { missing_bytes self.now ≤ result }
        ensures few { (headerless : Bool) (b piece : List ℕ) → Stands headerless self.now b → length piece ≤ result
            → length (body headerless (b ++ piece)).items ≤ length (body headerless b).items + 1 }
    {
        if self.failed {
            return u64::MAX;
        }
        self.kept.due()
    }

    /// Says whether the body may end here: not inside a box, and not between a `moof` and its `mdat`. `Ok` changes nothing,
    /// so that further pieces may follow.
    pub fn end(&mut self) -> Result<(), PushFault>
        ensures ends { (headerless : Bool) (b : List ℕ) → Stands headerless self.old b → Ends headerless b result }
        ensures failed { IsErrOf result PushFault.Failed ↔ IsTrue self.old.failed }
        ensures fails { OnErr result (IsTrue self.new.failed) }
        ensures ok { OnOk result (self.new ≡ self.old) }
        ensures unchanged { IsErrOf result PushFault.Failed → self.new ≡ self.old }
        ensures header { push_header self.new ≡ push_header self.old }
    {
        if self.failed {
            return Err(PushFault::Failed);
        }
        if self.kept.is_inside() {
            self.failed = true;
            self.kept.clear(self.alloc);
            return Err(PushFault::Refused {
                before: Items::new(self.alloc),
                refusal: Refusal {
                    at: self.count,
                    cause: Cause::CutOff,
                },
            });
        }
        Ok(())
    }

    /// The track_ID that the header gives to the track of this name and bitrate. None where no header was read, or it has
    /// no such track. A push that has failed keeps its header. It takes no memory.
    pub fn track_id(&self, stream: &Name, bitrate: u32) -> Option<u32>
        ensures { result ≡ id_for stream.now bitrate (push_header self.now) }
    {
        match &self.kept.state.stage {
            HeaderStage::Complete(tracks) => id_for(stream, bitrate, tracks.as_slice()),
            HeaderStage::Gathering {
                manifest: _,
                moov: _,
            } => None,
        }
    }
}
