//! What the writer tells.
ghost use Rattle.std.specs.Prelude.{◌≡◌, OnOk};
ghost use Rattle.std.specs.Option.{ForSome};
ghost use Rattle.left_right.specs.Sides.{view as known};
ghost use Rattle.sm_log.specs.Digests.{Extends};

use crate::rule::{Looks, Seat};
use crate::stock::Stock;
use core::mem::replace_with;
use sm_model::NoMemory;
use std::marker::Model;
use std::snapshot::Snapshot;

/// What stands for the digest that was published when it was told: a reader's place that has learnt it, if there was memory for one.
/// Contracts see that digest.
#[derive(Drop)]
pub struct Told {
    seat: Option<Seat>,
    digest: Snapshot<Stock>,
}

impl Model for Told {
    ghost use Rattle.std.specs.Prelude.{◌≡◌};
    ghost use Rattle.std.specs.Option.{ForSome};
    ghost use Rattle.left_right.specs.Sides.{view as known};
    ghost use Rattle.sm_log.specs.Digests.{Digest};

    ghost Value = { Digest };

    ghost view = { λ t. t.digest.value };

    ghost invariant = { λ t. ForSome t.seat (λ s. known s.place ≡ t.digest.value) };
}

impl Told {
    pub(crate) fn over(seat: Option<Seat>, digest: Snapshot<Stock>) -> Told
        requires { ForSome seat (λ s. known s.place ≡ digest.value) }
        ensures { result ≡ digest.value }
    {
        Told { seat, digest }
    }

    pub(crate) fn into_seat(self) -> Option<Seat>
        ensures { ForSome result (λ s. known s.place ≡ self) }
    {
        let Told { seat, digest: _ } = self;
        seat
    }
}

// The told place looks after the other, and takes its stead where it sees all that the other saw.
fn merge(seat: Seat, told: Seat) -> (Seat, Result<(), NoMemory>)
    ensures seen { Extends (known result.0.place) (known seat.place) }
    ensures told { OnOk result.1 (Extends (known result.0.place) (known told.place)) }
{
    let reading = match seat.enter_as::<Looks>() {
        Ok(reading) => reading,
        Err(seat) => return (seat, Err(NoMemory)),
    };
    let later = match told.enter_as::<Looks>() {
        Ok(later) => later,
        Err(_told) => return (reading.leave(), Err(NoMemory)),
    };
    let goes_on = later.get().goes_on(reading.get());
    let seat = reading.leave();
    let told = later.leave();
    if goes_on {
        (told, Ok(()))
    } else {
        (seat, Err(NoMemory))
    }
}

// The same, in place.
pub(crate) fn take_over(seat: &mut Seat, told: Seat) -> Result<(), NoMemory>
    ensures seen { Extends (known seat.new.place) (known seat.old.place) }
    ensures told { OnOk result (Extends (known seat.new.place) (known told.place)) }
{
    replace_with(seat, told, |seat, told| merge(seat, told))
}
