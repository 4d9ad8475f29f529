//! A plain, slow program beside the definition of a `moov`: it lists the bodies of all boxes of one type, and reads each.
ghost use Rattle.std.specs.Prelude.{◌≡◌, ◌++◌, ◌∷◌, [], IfOk, OnOk, nat_eq, map, if◌then◌else◌};
ghost use Rattle.std.specs.Cmp.Lexicographic.{pointwise};
ghost use Rattle.std.specs.List.{list_any};
ghost use Rattle.std.specs.Option.{option_map};
ghost use Rattle.sm_model.specs.Boxes.{boxes};
ghost use Rattle.sm_model.specs.Found.{bodies};
ghost use Rattle.sm_model.specs.Moov.{gather, single, trak, trex, mvex, repeats, defaults_for, with_defaults, moov};
ghost use Rattle.sm_moov.specs.Plain.{AddsBodies};

use crate::trak::read_trak;
use crate::trexes::{Trex, read_trex};
use sm_box::whole_at;
use sm_model::{Bytes, Defaults, Heads, NO_DEFAULTS, NoMemory, TrackHead, is_same};
use std::alloc::Global;

// Adds the body of a box of that type.
fn add_body(
    alloc: Global,
    name: &[u8],
    kind: &[u8],
    body: &[u8],
    found: &mut Vec<Bytes>,
) -> Result<(), NoMemory>
    ensures { OnOk result (found.new.items ≡ found.old.items ++ (if pointwise nat_eq kind.now name.now then body.now ∷ [] else [])) }
{
    if is_same(kind, name) {
        found.push(Bytes::from_slice(alloc, body)?)?;
    }
    Ok(())
}

// Adds the bodies of all boxes of that type. Says whether the bytes are whole boxes.
fn add_bodies(
    alloc: Global,
    name: &[u8],
    bytes: &[u8],
    found: &mut Vec<Bytes>,
) -> Result<bool, NoMemory>
    ensures { IfOk result (λ whole. AddsBodies name.now bytes.now whole found.old.items found.new.items) }
{
    if bytes.is_empty() {
        return Ok(true);
    }
    let Some((head, size)) = whole_at(bytes) else {
        return Ok(false);
    };
    let kind = &bytes[4..8];
    let body = &bytes[head as usize..size as usize];
    add_body(alloc, name, kind, body, found)?;
    add_bodies(alloc, name, &bytes[size as usize..], found)
}

// The bodies of all boxes of that type, where the bytes are whole boxes.
fn bodies(alloc: Global, name: &[u8], bytes: &[u8]) -> Result<Option<Vec<Bytes>>, NoMemory>
    ensures { IfOk result (λ r. option_map (λ v. v.items) r ≡ option_map (bodies name.now) (boxes bytes.now)) }
{
    let mut found = Vec::new(alloc);
    let whole = add_bodies(alloc, name, bytes, &mut found)?;
    if whole { Ok(Some(found)) } else { Ok(None) }
}

// The heads of all these traks.
fn heads_in(alloc: Global, traks: &[Bytes]) -> Result<Option<Vec<TrackHead>>, NoMemory>
    ensures { IfOk result (λ r. option_map (λ v. v.items) r ≡ gather (λ b. single (trak b)) traks.now) }
{
    let mut heads = Vec::new(alloc);
    for body in traks {
        let Some(head) = read_trak(body.as_slice()) else {
            return Ok(None);
        };
        heads.push(head)?;
    }
    Ok(Some(heads))
}

fn trexes_in(alloc: Global, boxes: &[Bytes]) -> Result<Option<Vec<Trex>>, NoMemory>
    ensures { IfOk result (λ r. option_map (λ v. v.items) r ≡ gather (λ b. single (trex b)) boxes.now) }
{
    let mut trexes = Vec::new(alloc);
    for body in boxes {
        let Some(trex) = read_trex(body.as_slice()) else {
            return Ok(None);
        };
        trexes.push(trex)?;
    }
    Ok(Some(trexes))
}

// What an mvex says.
#[tactic(auto, unfolding(sm_model::specs::Moov::mvex))]
fn mvex(alloc: Global, body: &[u8]) -> Result<Option<Vec<Trex>>, NoMemory>
    ensures { IfOk result (λ r. option_map (λ v. v.items) r ≡ mvex body.now) }
{
    match bodies(alloc, b"trex", body)? {
        None => Ok(None),
        Some(boxes) => trexes_in(alloc, &boxes),
    }
}

// What all of them say.
fn trexes_of(alloc: Global, mvexes: &[Bytes]) -> Result<Option<Vec<Trex>>, NoMemory>
    ensures { IfOk result (λ r. option_map (λ v. v.items) r ≡ gather mvex mvexes.now) }
{
    let mut trexes = Vec::new(alloc);
    for body in mvexes {
        let Some(more) = mvex(alloc, body.as_slice())? else {
            return Ok(None);
        };
        trexes.extend_from_slice(&more)?;
    }
    Ok(Some(trexes))
}

fn is_among(id: u32, heads: &[TrackHead]) -> bool
    ensures { result ≡ list_any (nat_eq id) (map (λ h. h.id) heads.now) }
{
    match heads {
        [] => false,
        [first, others @ ..] => id == first.id || is_among(id, others),
    }
}

// Whether two tracks have one track_ID.
#[tactic(auto, unfolding(sm_model::specs::Moov::repeats))]
fn repeats(heads: &[TrackHead]) -> bool
    ensures { result ≡ repeats (map (λ h. h.id) heads.now) }
{
    match heads {
        [] => false,
        [first, others @ ..] => is_among(first.id, others) || repeats(others),
    }
}

// The defaults of the first trex of a track, or zeros.
#[tactic(auto, unfolding(sm_model::specs::Moov::defaults_for))]
fn defaults_for(trexes: &[Trex], id: u32) -> Defaults
    ensures { result ≡ defaults_for trexes.now id }
{
    match trexes {
        [] => NO_DEFAULTS,
        [first, others @ ..] => {
            if first.0 == id {
                first.1
            } else {
                defaults_for(others, id)
            }
        }
    }
}

fn with_defaults(
    alloc: Global,
    trexes: &[Trex],
    heads: &[TrackHead],
) -> Result<Vec<TrackHead>, NoMemory>
    ensures { IfOk result (λ given. given.items ≡ map (with_defaults trexes.now) heads.now) }
{
    let mut given = Vec::new(alloc);
    for head in heads {
        given.push(TrackHead {
            defaults: defaults_for(trexes, head.id),
            ..*head
        })?;
    }
    Ok(given)
}

/// What the body of a `moov` says of its tracks; nothing where it is malformed.
pub fn moov(alloc: Global, body: &[u8]) -> Result<Option<Heads>, NoMemory>
    ensures { IfOk result (λ r. r ≡ moov body.now) }
{
    let Some(mvexes) = bodies(alloc, b"mvex", body)? else {
        return Ok(None);
    };
    let Some(trexes) = trexes_of(alloc, &mvexes)? else {
        return Ok(None);
    };
    let Some(traks) = bodies(alloc, b"trak", body)? else {
        return Ok(None);
    };
    let Some(heads) = heads_in(alloc, &traks)? else {
        return Ok(None);
    };
    if repeats(&heads) {
        return Ok(None);
    }
    Ok(Some(Heads::from_vec(with_defaults(alloc, &trexes, &heads)?)))
}
