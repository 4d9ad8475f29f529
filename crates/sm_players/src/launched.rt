//! What a player in a thread of its own is given, and what it hands back.
ghost use Rattle.std.specs.Prelude.{◌≡◌};
ghost use Rattle.sm_players.specs.Ends.{end_of};
ghost use Rattle.sm_players.specs.Starting.{IsPlayed};

use crate::forward::Forward;
use crate::gate::Gate;
use crate::played::Played;
use crate::playing::player;
use crate::wire::Wire;
use sm_shelf::ShelfReader;
use std::alloc::Global;
use std::marker::Model;
use std::snapshot::Snapshot;
use std::thread::{Promise, PromisedHandle, Threads};

/// The parts of one player.
#[derive(Drop)]
pub struct Parts<W: Drop, F: Drop, G: Drop> {
    pub wire: W,
    pub forward: F,
    pub gate: G,
}

/// How a player ended. Clauses know its wire, its forward and its reader as it left them, which the thread drops, and its reader as it was given. Only a player that played makes
/// one, and none is copied: elsewhere an end is had by joining its thread alone.
#[derive(Drop)]
pub struct PlayerEnd<W: Drop, F: Drop> {
    played: Played,
    wire: Snapshot<W>,
    forward: Snapshot<F>,
    reader: Snapshot<ShelfReader>,
    given: Snapshot<ShelfReader>,
}

impl<W: Drop, F: Drop> PlayerEnd<W, F> {
    /// How it ended.
    pub fn played(&self) -> Played
        ensures { result ≡ self.now.played }
    {
        self.played
    }
}

/// What a player was given, of which clauses alone know more than the number of its turns. It is what the thread of the player promises: that from
/// there the player played.
#[derive(Drop)]
pub struct Launched<W: Wire + Drop, F: Forward + Drop> {
    wire: Snapshot<W>,
    forward: Snapshot<F>,
    reader: Snapshot<ShelfReader>,
    turns: u64,
}

impl<W: Wire + Drop, F: Forward + Drop> Model for Launched<W, F> {
    ghost use Rattle.sm_players.specs.Starting.{Launch};

    ghost Value = { Launch };

    ghost view = { λ l. record {
      table = l.reader.value.table;
      told = (W.seen.view l.wire.value).transcript;
      link_faults = (W.seen.view l.wire.value).link_faults;
      asked = F.asked l.forward.value;
      seen = l.reader.value.seen;
      turns = l.turns;
    } };
}

impl<W: Wire + Drop, F: Forward + Drop> Promise<PlayerEnd<W, F>> for Launched<W, F> {
    ghost kept_by = { λ launched end. IsPlayed launched (end_of W.seen.view F.asked end) };
}

/// The thread of a player.
pub type PlayerHandle<W, F> = PromisedHandle<PlayerEnd<W, F>, Launched<W, F>>;

impl<W: Wire + Drop, F: Forward + Drop> Launched<W, F> {
    /// These, and so many events at most.
    pub fn new(wire: &W, forward: &F, reader: &ShelfReader, turns: u64) -> Launched<W, F>
        ensures told { result.told ≡ (W.seen.view wire.now).transcript }
        ensures link_faults { result.link_faults ≡ (W.seen.view wire.now).link_faults }
        ensures asked { result.asked ≡ F.asked forward.now }
        ensures table { result.table ≡ reader.now.table }
        ensures seen { result.seen ≡ reader.now.seen }
        ensures turns { result.turns ≡ turns }
    {
        Launched {
            wire: Snapshot::of(wire),
            forward: Snapshot::of(forward),
            reader: Snapshot::of(reader),
            turns,
        }
    }
}

/// Lets a player play, and tells how it ended.
pub fn play<W: Wire + Drop, F: Forward + Drop, G: Gate + Drop>(
    alloc: Global,
    parts: Parts<W, F, G>,
    reader: ShelfReader,
    turns: u64,
) -> PlayerEnd<W, F>
    ensures { IsPlayed (record {
      table = reader.table;
      told = (W.seen.view parts.wire).transcript;
      link_faults = (W.seen.view parts.wire).link_faults;
      asked = F.asked parts.forward;
      seen = reader.seen;
      turns = turns;
    }) (end_of W.seen.view F.asked result) }
{
    let mut parts = parts;
    let mut reader = reader;
    let given = Snapshot::of(&reader);
    let played = player(
        alloc,
        &mut parts.wire,
        &mut parts.forward,
        &mut parts.gate,
        &mut reader,
        turns,
    );
    PlayerEnd {
        played,
        wire: Snapshot::of(&parts.wire),
        forward: Snapshot::of(&parts.forward),
        reader: Snapshot::of(&reader),
        given,
    }
}
