//! The numbers that connections may still have.
ghost use Rattle.std.specs.Prelude.{◌≡◌, ℕ, IsTrue};
ghost use Rattle.sm_site.specs.Event.{deal_of};
ghost use Rattle.sm_site.specs.NextNumber.{IsNumber};
ghost use Rattle.sm_site.specs.Past.{is_ordered, numbers_of, opened_in};
ghost use Rattle.sm_site.specs.Scripts.{deals_of, number_after, numbers_after};

use crate::{Event, Step};

// The first number above all so far, once an event gives one.
fn above(from: Option<u64>, event: &Event) -> Option<u64>
    ensures { (k : ℕ) → IsNumber from k → IsNumber result (number_after k (deal_of event.now)) }
{
    match event {
        Event::Opened(number) => Some(from?.max(number.checked_add(1)?)),
        Event::Piece(_, _) | Event::Closed(_) | Event::Ended => from,
    }
}

// The number that a step gave.
fn opened_in(step: &Step) -> Option<u64>
    ensures { result ≡ opened_in step.now }
{
    match step {
        Step::Took(Event::Opened(number)) => Some(*number),
        _ => None,
    }
}

// The first number above all that were given: the last of them is the greatest.
pub(crate) fn above_past(past: &[Step]) -> Option<u64>
    requires { IsTrue (is_ordered 0 past.now) }
    ensures { IsNumber result (numbers_of past.now) }
{
    let mut at = past.len();
    while at > 0 {
        at -= 1;
        if let Some(number) = opened_in(&past[at]) {
            return number.checked_add(1);
        }
    }
    Some(0)
}

// The first number above those that a script still gives too.
pub(crate) fn above_script(from: Option<u64>, script: &[Event]) -> Option<u64>
    ensures { (k : ℕ) → IsNumber from k → IsNumber result (numbers_after k (deals_of script.now)) }
{
    let mut next = from;
    for event in script {
        next = above(next, event);
    }
    next
}
