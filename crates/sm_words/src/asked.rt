//! What the words of a command ask for, read word by word.
ghost use Rattle.std.specs.Prelude.{◌≡◌, ◌<◌, map, string_bytes, IfOk, Some, []};
ghost use Rattle.std.specs.Option.{option_map, option_and_then};
ghost use Rattle.sm_words.specs.Options.{edge_options, play_options, serve_options};
ghost use Rattle.sm_words.specs.Words.{alone, asked, help_by, list_of};
ghost use Rattle.sm_words.specs.Words.{pick_of, play_of, push_of, read, rehearse_of};
ghost use Rattle.sm_words.specs.Words.{Relay, Standby, edge_of, export_of, serve_of};
ghost use Rattle.sm_words.specs.Orders.{pulling_of, wanted_of};

use crate::edge_order::EdgeOrder;
use crate::matched::{
    read_edge, read_export, read_list, read_pick, read_play, read_push, read_rehearse, read_serve,
};
use crate::order::{
    Order, edge_order, export_order, list_order, pick_order, play_order, push_order,
    rehearse_order, serve_order,
};
use crate::topic::Topic;
use sm_model::NoMemory;
use std::alloc::Global;

fn pick_asked(alloc: Global, words: &[String]) -> Result<Option<Order>, NoMemory>
    ensures { IfOk result (λ order. option_map wanted_of order ≡ option_and_then pick_of (read [] (map string_bytes words.now))) }
{
    match read_pick(alloc, words)? {
        Some((track, time)) => Ok(pick_order(track.as_str(), time.as_str())),
        None => Ok(None),
    }
}

fn rehearse_asked(alloc: Global, words: &[String]) -> Result<Option<Order>, NoMemory>
    ensures { IfOk result (λ order. option_map wanted_of order ≡ option_and_then rehearse_of (read [] (map string_bytes words.now))) }
{
    match read_rehearse(alloc, words)? {
        Some((number, size)) => Ok(rehearse_order(number.as_str(), size.as_str())),
        None => Ok(None),
    }
}

fn serve_asked(alloc: Global, words: &[String]) -> Result<Option<Order>, NoMemory>
    ensures { IfOk result (λ order. option_map wanted_of order ≡ option_and_then serve_of (read serve_options (map string_bytes words.now))) }
{
    match read_serve(alloc, words)? {
        Some(texts) => Ok(serve_order(texts)),
        None => Ok(None),
    }
}

fn push_asked(alloc: Global, words: &[String]) -> Result<Option<Order>, NoMemory>
    ensures { IfOk result (λ order. option_map wanted_of order ≡ option_and_then push_of (read [] (map string_bytes words.now))) }
{
    match read_push(alloc, words)? {
        Some(texts) => push_order(alloc, texts),
        None => Ok(None),
    }
}

fn play_asked(alloc: Global, words: &[String]) -> Result<Option<Order>, NoMemory>
    ensures { IfOk result (λ order. option_map wanted_of order ≡ option_and_then play_of (read play_options (map string_bytes words.now))) }
{
    match read_play(alloc, words)? {
        Some(texts) => play_order(alloc, texts),
        None => Ok(None),
    }
}

fn list_asked(alloc: Global, words: &[String]) -> Result<Option<Order>, NoMemory>
    ensures { IfOk result (λ order. option_map wanted_of order ≡ option_and_then list_of (read [] (map string_bytes words.now))) }
{
    match read_list(alloc, words)? {
        Some(store) => Ok(list_order(store)),
        None => Ok(None),
    }
}

fn export_asked(alloc: Global, words: &[String]) -> Result<Option<Order>, NoMemory>
    ensures { IfOk result (λ order. option_map wanted_of order ≡ option_and_then export_of (read [] (map string_bytes words.now))) }
{
    match read_export(alloc, words)? {
        Some(texts) => export_order(alloc, texts),
        None => Ok(None),
    }
}

// The words behind `relay` or `standby`.
fn edge_asked(alloc: Global, words: &[String]) -> Result<Option<EdgeOrder>, NoMemory>
    ensures { IfOk result (λ order. option_map pulling_of order ≡ option_and_then edge_of (read edge_options (map string_bytes words.now))) }
{
    match read_edge(alloc, words)? {
        Some(texts) => edge_order(alloc, texts),
        None => Ok(None),
    }
}

fn relay_asked(alloc: Global, words: &[String]) -> Result<Option<Order>, NoMemory>
    ensures { IfOk result (λ order. option_map wanted_of order
        ≡ option_map (λ e. Relay e) (option_and_then edge_of (read edge_options (map string_bytes words.now)))) }
{
    match edge_asked(alloc, words)? {
        Some(order) => Ok(Some(Order::Relay(order))),
        None => Ok(None),
    }
}

fn standby_asked(alloc: Global, words: &[String]) -> Result<Option<Order>, NoMemory>
    ensures { IfOk result (λ order. option_map wanted_of order
        ≡ option_map (λ e. Standby e) (option_and_then edge_of (read edge_options (map string_bytes words.now)))) }
{
    match edge_asked(alloc, words)? {
        Some(order) => Ok(Some(Order::Standby(order))),
        None => Ok(None),
    }
}

fn help_asked(words: &[String]) -> Option<Order>
    ensures { option_map wanted_of result ≡ help_by (map string_bytes words.now) }
{
    match words {
        [] => Some(Order::Help(Topic::All)),
        [name] => Some(Order::Help(Topic::named(name.as_str())?)),
        _ => None,
    }
}

// What is asked by a command without any word.
fn alone(words: &[String], order: Order) -> Option<Order>
    ensures { option_map wanted_of result ≡ alone (map string_bytes words.now) (wanted_of order) }
{
    if words.is_empty() { Some(order) } else { None }
}

/// What the words ask for: `pick TRACK TIME`, `serve STORE --port N [--ladder] [--turns N] [--bind ADDRESS] [--journal FILE] [--players N]`,
/// `push HOST PORT PATH ID`, `list STORE`,
/// `play HOST PORT PATH STREAM... [--from N] [--count N] [--tries N] [--refresh N]`, `rehearse NUMBER SIZE`,
/// `export STORE NAME BITRATE`, `relay HOST PORT PATH STORE [--rounds N] [--tries N] [--journal FILE]`,
/// `standby HOST PORT PATH STORE [--rounds N] [--tries N] [--journal FILE]`, `help`, `help COMMAND`, `--help`, `version` or `--version`. None where they are none of these.
#[tactic(auto, unfolding(crate::specs::Words::asked))]
pub fn order_of(alloc: Global, words: &[String]) -> Result<Option<Order>, NoMemory>
    ensures { IfOk result (λ order. option_map wanted_of order ≡ asked (map string_bytes words.now)) }
{
    let [command, words @ ..] = words else {
        return Ok(None);
    };
    let command = command.as_str();
    if command == "pick" {
        return pick_asked(alloc, words);
    }
    if command == "serve" {
        return serve_asked(alloc, words);
    }
    if command == "push" {
        return push_asked(alloc, words);
    }
    if command == "list" {
        return list_asked(alloc, words);
    }
    if command == "play" {
        return play_asked(alloc, words);
    }
    if command == "rehearse" {
        return rehearse_asked(alloc, words);
    }
    if command == "export" {
        return export_asked(alloc, words);
    }
    if command == "relay" {
        return relay_asked(alloc, words);
    }
    if command == "standby" {
        return standby_asked(alloc, words);
    }
    if command == "help" {
        return Ok(help_asked(words));
    }
    if command == "--help" {
        return Ok(alone(words, Order::Help(Topic::All)));
    }
    if command == "version" {
        return Ok(alone(words, Order::Version));
    }
    if command == "--version" {
        return Ok(alone(words, Order::Version));
    }
    Ok(None)
}
