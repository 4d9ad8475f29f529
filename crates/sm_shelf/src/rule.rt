//! The rule over `left_right`: what any thread has seen or was told, what is published goes on from it.
ghost use Rattle.sm_shelf.specs.Laying.{nothing};
ghost use Rattle.sm_shelf.specs.Shelf.{Keeps, Sees};

use crate::laid::Laid;
use crate::stock::Stock;
use atomic_table::{Join, Split};
use crossbeam_utils::rule::{Outcome, Protocol};
use left_right::reader::Reader;
use left_right::writer::Writer;

/// A view is a digest that was seen, or told.
pub struct Published;

impl Protocol<Stock, Stock> for Published {
    ghost holds = { Keeps };

    ghost first = { nothing };
}

/// A reader takes what is published, or the writer publishes.
pub struct Looks;

impl Outcome<Stock, Stock> for Looks {
    ghost then = { Sees };
}

/// What is told is what the writer knows, which stays. A new reader takes it in.
pub struct Note;

impl Split<Stock> for Note {
    ghost left = { λ v. v };

    ghost right = { λ v. v };
}

impl Join<Stock> for Note {
    ghost both = { λ v w. w };

    ghost spent = { nothing };
}

pub type Core = Writer<Stock, Laid, Stock, Published>;

pub type Seat = Reader<Stock, Stock, Published>;
