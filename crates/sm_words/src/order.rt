//! What the words of a command ask for.
ghost use Rattle.std.specs.Prelude.{◌≡◌, ◌≤◌, ◌<◌, ◌^◌, map, string_bytes, IfOk, IfSome, Some, List, ℕ};
ghost use Rattle.std.specs.Option.{option_map, option_and_then};
ghost use Rattle.sm_words.specs.Words.{Listing, PlayTexts as Played, filled, last_port, number_or, players_by, served_by, start_by};
ghost use Rattle.sm_words.specs.Words.{name_by, numbers_by, pick_by, play_by, push_by, read, rehearse_by, serve_by};
ghost use Rattle.sm_words.specs.Words.{Relay, Standby, edge_by, export_by, streams_by};
ghost use Rattle.sm_words.specs.Matched.{edge_texts_of, export_texts_of, play_texts_of, push_texts_of, serve_texts_of};
ghost use Rattle.sm_words.specs.Orders.{numbers_of, pulling_of, serving_of, wanted_of};

use crate::edge_order::EdgeOrder;
use crate::matched::{EdgeTexts, ExportTexts, PlayTexts, PushTexts, ServeTexts};
use crate::place::{is_host, is_path};
use crate::play_order::PlayOrder;
use crate::topic::Topic;
use crate::words::number;
use sm_client::{Names, Plan};
use sm_fetch::Place;
use sm_model::{Bytes, Name as StreamName, NameFault, NoMemory};
use std::alloc::Global;

/// What the words ask for.
#[derive(Debug, Drop)]
pub enum Order {
    /// The first fragment of an input with that track_ID, and that time in ticks of the track's timescale.
    Pick { track: u32, time: u64 },
    /// To serve a store.
    Serve(ServeOrder),
    /// To serve a store, with so many threads that answer viewers at the next port.
    ServeShown { order: ServeOrder, players: u32 },
    /// To push to an origin.
    Push(PushOrder),
    /// To play streams of an origin.
    Play(PlayOrder),
    /// To pull what an origin lists into a store.
    Relay(EdgeOrder),
    /// To follow a primary in a store.
    Standby(EdgeOrder),
    /// The list of what the store in a folder keeps.
    List { store: String },
    /// To rehearse in the world of that number, with so many rounds of pushes.
    Rehearse { number: u64, size: u64 },
    /// To export a quality from a store.
    Export(ExportOrder),
    /// What is said of a command, or of all.
    Help(Topic),
    /// Which version this is.
    Version,
}

/// What is served, and how.
#[derive(Debug, Drop)]
pub struct ServeOrder {
    /// The folder.
    pub store: String,
    /// The port, from 1 on.
    pub port: u16,
    /// Whether a ladder is read and declared first.
    pub ladder: bool,
    /// The most events that are taken.
    pub turns: u64,
    /// The one address that is listened at; all of the machine where it isn't given.
    pub bind: Option<String>,
    /// The file of the journal.
    pub journal: Option<String>,
}

/// Where the input is pushed, and as what.
#[derive(Debug, Drop)]
pub struct PushOrder {
    /// The host: 1 to 255 letters, digits, `.`, `-` and `:`.
    pub host: String,
    /// The port, from 1 on.
    pub port: u16,
    /// The path of the channel: 1 to 512 bytes without `?`, control bytes and `.isml/`.
    pub path: String,
    /// The name of the stream.
    pub id: StreamName,
}

/// From where a quality is exported, and which.
#[derive(Debug, Drop)]
pub struct ExportOrder {
    /// The folder.
    pub store: String,
    /// The name of the stream.
    pub name: StreamName,
    /// In bits a second, as declared.
    pub bitrate: u32,
}

// The numbers among the words of `play`.
#[derive(Clone, Copy, Debug)]
struct PlayNumbers {
    port: u16,
    from: Option<u64>,
    count: u64,
    tries: u32,
    refresh: u32,
}

// The largest number that a word may write.
const MOST: u64 = 9_223_372_036_854_775_807;

// The most streams of one play.
const STREAMS: usize = 16;

// The greatest number of a world.
const LAST_WORLD: u64 = 2_147_483_647;

// The most threads that answer viewers.
const MOST_PLAYERS: u64 = 16;

// The most rounds of a rehearsal.
const MOST_ROUNDS: u64 = 2_000;

// The number that a text writes, or another where there is no text.
fn number_or(text: &Option<String>, low: u64, high: u64, other: Option<u64>) -> Option<u64>
    requires high { high < 2 ^ 63 }
    requires other { IfSome other (λ n. n ≤ high) }
    ensures value { result ≡ number_or low high other (option_map string_bytes text.now) }
    ensures below { IfSome result (λ n. n ≤ high) }
{
    match text {
        Some(text) => number(text.as_str(), low, high),
        None => other,
    }
}

// A text that isn't empty.
fn filled(text: String) -> Option<String>
    ensures { option_map string_bytes result ≡ filled (string_bytes text) }
{
    if text.is_empty() { None } else { Some(text) }
}

pub(crate) fn pick_order(track: &str, time: &str) -> Option<Order>
    ensures { option_map wanted_of result ≡ pick_by track.now time.now }
{
    let track = number(track, 1, 4_294_967_295)?;
    let time = number(time, 0, MOST)?;
    Some(Order::Pick {
        track: track as u32,
        time,
    })
}

pub(crate) fn rehearse_order(world: &str, size: &str) -> Option<Order>
    ensures { option_map wanted_of result ≡ rehearse_by world.now size.now }
{
    let world = number(world, 0, LAST_WORLD)?;
    let size = number(size, 0, MOST_ROUNDS)?;
    Some(Order::Rehearse {
        number: world,
        size,
    })
}

// How many threads answer viewers, if any do.
fn players_by(text: &Option<String>) -> Option<Option<u32>>
    ensures { result ≡ players_by (option_map string_bytes text.now) }
{
    match text {
        Some(text) => {
            let players = number(text.as_str(), 1, MOST_PLAYERS)?;
            Some(Some(players as u32))
        }
        None => Some(None),
    }
}

// The last port that the loop may have: where threads answer viewers the next one is theirs.
fn last_port(players: Option<u32>) -> u64
    ensures value { result ≡ last_port players }
    ensures below { result ≤ 65535 }
{
    match players {
        Some(_) => 65_534,
        None => 65_535,
    }
}

fn served_by(order: ServeOrder, players: Option<u32>) -> Order
    ensures { wanted_of result ≡ served_by (serving_of order) players }
{
    match players {
        Some(players) => Order::ServeShown { order, players },
        None => Order::Serve(order),
    }
}

pub(crate) fn serve_order(texts: ServeTexts) -> Option<Order>
    ensures { option_map wanted_of result ≡ serve_by (serve_texts_of texts) }
{
    let players = players_by(&filled(texts.players))?;
    let port = number(texts.port.as_str(), 1, last_port(players))?;
    let turns = number_or(&texts.turns, 1, MOST, Some(MOST))?;
    let ladder = texts.ladder;
    let store = filled(texts.store)?;
    let bind = filled(texts.bind);
    let journal = filled(texts.journal);
    let order = ServeOrder {
        store,
        port: port as u16,
        ladder,
        turns,
        bind,
        journal,
    };
    Some(served_by(order, players))
}

pub(crate) fn push_order(alloc: Global, texts: PushTexts) -> Result<Option<Order>, NoMemory>
    ensures { IfOk result (λ order. option_map wanted_of order ≡ push_by (push_texts_of texts)) }
{
    let PushTexts {
        host,
        port,
        path,
        id,
    } = texts;
    let Some(port) = number(port.as_str(), 1, 65_535) else {
        return Ok(None);
    };
    if !is_host(host.as_str()) || !is_path(path.as_str()) {
        return Ok(None);
    }
    match StreamName::read(alloc, id.as_bytes()) {
        Ok(id) => Ok(Some(Order::Push(PushOrder {
            host,
            port: port as u16,
            path,
            id,
        }))),
        Err(NameFault::Form { at: _ }) => Ok(None),
        Err(NameFault::NoMemory) => Err(NoMemory),
    }
}

pub(crate) fn list_order(store: String) -> Option<Order>
    ensures { option_map wanted_of result ≡ option_map Listing (filled (string_bytes store)) }
{
    let store = filled(store)?;
    Some(Order::List { store })
}

// The start that a text writes, if there is a text.
fn start(text: &Option<String>) -> Option<Option<u64>>
    ensures { result ≡ start_by (option_map string_bytes text.now) }
{
    match text {
        Some(text) => Some(Some(number(text.as_str(), 0, MOST)?)),
        None => Some(None),
    }
}

fn play_numbers(texts: &PlayTexts) -> Option<PlayNumbers>
    ensures { (x : Played) → play_texts_of texts.now ≡ Some x → option_map numbers_of result ≡ numbers_by x }
{
    let port = number(texts.port.as_str(), 1, 65_535)?;
    let from = start(&texts.from)?;
    let count = number(texts.count.as_str(), 1, 1_000_000)?;
    let tries = number(texts.tries.as_str(), 1, 16)?;
    let refresh = number(texts.refresh.as_str(), 1, 10_000)?;
    Some(PlayNumbers {
        port: port as u16,
        from,
        count,
        tries: tries as u32,
        refresh: refresh as u32,
    })
}

// The name that a text is, if it is one.
fn name(alloc: Global, text: &str) -> Result<Option<StreamName>, NoMemory>
    ensures { IfOk result (λ name. name ≡ name_by text.now) }
{
    match StreamName::read(alloc, text.as_bytes()) {
        Ok(name) => Ok(Some(name)),
        Err(NameFault::Form { at: _ }) => Ok(None),
        Err(NameFault::NoMemory) => Err(NoMemory),
    }
}

// The names that texts are, if there are at most 16.
fn streams(alloc: Global, texts: &[String]) -> Result<Option<Names>, NoMemory>
    ensures { IfOk result (λ names. names ≡ streams_by (map string_bytes texts.now)) }
{
    if texts.len() > STREAMS {
        return Ok(None);
    }
    let mut names = Vec::new(alloc);
    for text in texts {
        let Some(name) = name(alloc, text.as_str())? else {
            return Ok(None);
        };
        names.push(name)?;
    }
    Ok(Some(Names::from_vec(names)))
}

pub(crate) fn play_order(alloc: Global, texts: PlayTexts) -> Result<Option<Order>, NoMemory>
    ensures { IfOk result (λ order. option_map wanted_of order ≡ option_and_then play_by (play_texts_of texts)) }
{
    if texts.streams.is_empty() {
        return Ok(None);
    }
    let Some(numbers) = play_numbers(&texts) else {
        return Ok(None);
    };
    let (host, path) = (texts.host, texts.path);
    if !is_host(host.as_str()) || !is_path(path.as_str()) {
        return Ok(None);
    }
    let Some(streams) = streams(alloc, &texts.streams)? else {
        return Ok(None);
    };
    let place = Place {
        host: Bytes::from_slice(alloc, host.as_bytes())?,
        port: numbers.port,
        path: Bytes::from_vec(path.into_bytes()),
    };
    Ok(Some(Order::Play(PlayOrder {
        host,
        plan: Plan {
            place,
            streams,
            from: numbers.from,
            count: numbers.count,
            tries: numbers.tries,
            refresh: numbers.refresh,
        },
    })))
}

pub(crate) fn edge_order(alloc: Global, texts: EdgeTexts) -> Result<Option<EdgeOrder>, NoMemory>
    ensures { IfOk result (λ order. option_map pulling_of order ≡ edge_by (edge_texts_of texts)) }
{
    let EdgeTexts {
        host,
        port,
        path,
        store,
        rounds,
        tries,
        journal,
    } = texts;
    let (Some(port), Some(rounds), Some(tries)) = (
        number(port.as_str(), 1, 65_535),
        number(rounds.as_str(), 1, 1_000_000),
        number(tries.as_str(), 1, 16),
    ) else {
        return Ok(None);
    };
    let Some(store) = filled(store) else {
        return Ok(None);
    };
    if !is_host(host.as_str()) || !is_path(path.as_str()) {
        return Ok(None);
    }
    let place = Place {
        host: Bytes::from_slice(alloc, host.as_bytes())?,
        port: port as u16,
        path: Bytes::from_vec(path.into_bytes()),
    };
    Ok(Some(EdgeOrder {
        host,
        place,
        store,
        rounds,
        tries: tries as u32,
        journal: filled(journal),
    }))
}

pub(crate) fn export_order(alloc: Global, texts: ExportTexts) -> Result<Option<Order>, NoMemory>
    ensures { IfOk result (λ order. option_map wanted_of order ≡ export_by (export_texts_of texts)) }
{
    let Some(bitrate) = number(texts.bitrate.as_str(), 0, 4_294_967_295) else {
        return Ok(None);
    };
    let Some(store) = filled(texts.store) else {
        return Ok(None);
    };
    let Some(name) = name(alloc, texts.name.as_str())? else {
        return Ok(None);
    };
    Ok(Some(Order::Export(ExportOrder {
        store,
        name,
        bitrate: bitrate as u32,
    })))
}
