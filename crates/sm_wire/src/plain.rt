//! What a connection gave, read from all of its bytes.
ghost use Rattle.std.specs.Prelude.{◌≡◌, ◌++◌, ◌∷◌, [], IfOk, OnOk, Some, None, map, false};
ghost use Rattle.sm_push.specs.Body.{body};
ghost use Rattle.sm_conn.specs.Stands.{joined};
ghost use Rattle.sm_wire.specs.declared.item.WireItem.TheVariants.{Refuse};
ghost use Rattle.sm_wire.specs.Wire.{shown, unplaced, wire, IsWire};
ghost use Rattle.sm_wire.specs.Plain.{refusal_by, IsGiven, unless_closed, Goes};

use crate::WireItem;
use sm_conn::{Conn, Part};
use sm_model::{Bytes, Cause, Item, Items, NoMemory, Refusal};
use sm_push::{Push, PushFault};
use std::alloc::Global;

// What the bytes of a push give: items, and the refusal behind them.
#[derive(Debug, Drop)]
struct Pushed {
    items: Items,
    refusal: Option<Refusal>,
}

// Reads the bytes of a push, which ends there or not.
fn read_push(alloc: Global, bytes: &[u8], ends: bool) -> Result<Pushed, NoMemory>
    ensures items { IfOk result (λ pushed. pushed.items ≡ (body false bytes.now).items) }
    ensures refusal { IfOk result (λ pushed. pushed.refusal ≡ refusal_by ends bytes.now) }
{
    let mut push = Push::new(alloc);
    match push.feed(bytes) {
        Ok(items) => {
            if !ends {
                return Ok(Pushed {
                    items,
                    refusal: None,
                });
            }
            match push.end() {
                Ok(()) => Ok(Pushed {
                    items,
                    refusal: None,
                }),
                Err(PushFault::Refused { before: _, refusal }) => Ok(Pushed {
                    items,
                    refusal: Some(refusal),
                }),
                Err(PushFault::Failed) => Err(NoMemory),
                Err(PushFault::NoMemory) => Err(NoMemory),
            }
        }
        Err(PushFault::Refused { before, refusal }) => Ok(Pushed {
            items: before,
            refusal: Some(refusal),
        }),
        Err(PushFault::Failed) => Err(NoMemory),
        Err(PushFault::NoMemory) => Err(NoMemory),
    }
}

// Adds the items of a push.
fn show(out: &mut Vec<WireItem>, items: Items) -> Result<(), NoMemory>
    ensures { OnOk result (out.new.items ≡ out.old.items ++ map shown items) }
{
    let mut left = items.into_vec();
    while !left.is_empty() {
        match left.remove(0) {
            Item::Header(channel) => out.push(WireItem::Header(channel))?,
            Item::Frag(fragment) => out.push(WireItem::Frag(fragment))?,
        }
    }
    Ok(())
}

// Adds the items of a push and its refusal, and says whether it has none.
fn give_push(
    alloc: Global,
    out: &mut Vec<WireItem>,
    bytes: &[u8],
    ends: bool,
) -> Result<bool, NoMemory>
    ensures { IfOk result (λ clear. IsGiven bytes.now ends clear out.old.items out.new.items) }
{
    let Pushed { items, refusal } = read_push(alloc, bytes, ends)?;
    show(out, items)?;
    match refusal {
        Some(refusal) => {
            out.push(WireItem::Refuse(refusal))?;
            Ok(false)
        }
        None => Ok(true),
    }
}

// Where the reading stands behind a part.
#[derive(Drop)]
enum Behind {
    // Parts may follow. The bytes are those of the push that is open, if one is.
    More(Option<Bytes>),
    // Nothing follows.
    Last,
}

fn unless_closed(close: bool) -> Behind
    ensures { result ≡ unless_closed close }
{
    if close {
        Behind::Last
    } else {
        Behind::More(None)
    }
}

fn refuse(out: &mut Vec<WireItem>, cause: Cause) -> Result<(), NoMemory>
    ensures { OnOk result (out.new.items ≡ out.old.items ++ Refuse (unplaced cause) ∷ []) }
{
    out.push(WireItem::Refuse(Refusal { at: 0, cause }))?;
    Ok(())
}

// Takes a part that comes where no push is open.
fn take_outside(alloc: Global, out: &mut Vec<WireItem>, part: Part) -> Result<Behind, NoMemory>
    ensures { IfOk result (λ behind. Goes out.old.items None part behind out.new.items) }
{
    match part {
        Part::Get { target, close } => {
            out.push(WireItem::Get { target, close })?;
            Ok(unless_closed(close))
        }
        Part::Continue => {
            out.push(WireItem::Continue)?;
            Ok(Behind::More(None))
        }
        Part::Post => Ok(Behind::More(Some(Bytes::from_vec(Vec::new(alloc))))),
        Part::Body(bytes) => if bytes.is_empty() {
            Ok(Behind::More(None))
        } else {
            Ok(Behind::Last)
        },
        Part::End { close: _ } => Ok(Behind::Last),
        Part::Bad(cause) => {
            refuse(out, cause)?;
            Ok(Behind::Last)
        }
    }
}

// Takes a part that comes where a push is open, of which these bytes came.
fn take_inside(
    alloc: Global,
    out: &mut Vec<WireItem>,
    bytes: Bytes,
    part: Part,
) -> Result<Behind, NoMemory>
    ensures { IfOk result (λ behind. Goes out.old.items (Some bytes) part behind out.new.items) }
{
    match part {
        Part::Body(piece) => {
            let mut all = bytes.into_vec(alloc)?;
            all.extend_from_slice(piece.as_slice())?;
            Ok(Behind::More(Some(Bytes::from_vec(all))))
        }
        Part::End { close } => {
            if !give_push(alloc, out, bytes.as_slice(), true)? {
                return Ok(Behind::Last);
            }
            out.push(WireItem::End { close })?;
            Ok(unless_closed(close))
        }
        Part::Bad(cause) => {
            if !give_push(alloc, out, bytes.as_slice(), false)? {
                return Ok(Behind::Last);
            }
            refuse(out, cause)?;
            Ok(Behind::Last)
        }
        Part::Get {
            target: _,
            close: _,
        } => {
            cut_push(alloc, out, bytes.as_slice())?;
            Ok(Behind::Last)
        }
        Part::Continue => {
            cut_push(alloc, out, bytes.as_slice())?;
            Ok(Behind::Last)
        }
        Part::Post => {
            cut_push(alloc, out, bytes.as_slice())?;
            Ok(Behind::Last)
        }
    }
}

// Gives what a push gave that goes on no more.
fn cut_push(alloc: Global, out: &mut Vec<WireItem>, bytes: &[u8]) -> Result<(), NoMemory>
    ensures { OnOk result (out.new.items ≡ out.old.items ++ wire (Some bytes.now) []) }
{
    give_push(alloc, out, bytes, false)?;
    Ok(())
}

fn take(
    alloc: Global,
    out: &mut Vec<WireItem>,
    pending: Option<Bytes>,
    part: Part,
) -> Result<Behind, NoMemory>
    ensures { IfOk result (λ behind. Goes out.old.items pending part behind out.new.items) }
{
    match pending {
        None => take_outside(alloc, out, part),
        Some(bytes) => take_inside(alloc, out, bytes, part),
    }
}

// Gives what the push gave that is still open.
fn finish(alloc: Global, out: &mut Vec<WireItem>, pending: Option<Bytes>) -> Result<(), NoMemory>
    ensures { OnOk result (out.new.items ≡ out.old.items ++ wire pending []) }
{
    match pending {
        None => Ok(()),
        Some(bytes) => cut_push(alloc, out, bytes.as_slice()),
    }
}

fn read_parts(alloc: Global, parts: Vec<Part>) -> Result<Vec<WireItem>, NoMemory>
    ensures { IfOk result (λ items. items.items ≡ wire None (joined parts.items)) }
{
    let mut left = parts;
    let mut out = Vec::new(alloc);
    let mut pending = None;
    while !left.is_empty() {
        match take(alloc, &mut out, pending, left.remove(0))? {
            Behind::More(next) => pending = next,
            Behind::Last => return Ok(out),
        }
    }
    finish(alloc, &mut out, pending)?;
    Ok(out)
}

/// Reads all that a connection sent so far, by its definition: its parts, and each push afresh and whole. It is slow, and
/// there to compare with.
pub fn read_plainly(alloc: Global, bytes: &[u8]) -> Result<Vec<WireItem>, NoMemory>
    ensures { IfOk result (λ items. IsWire bytes.now items.items) }
{
    let mut conn = Conn::new(alloc)?;
    let parts = conn.feed(bytes)?;
    read_parts(alloc, parts.into_vec())
}
