//! The words behind a command, as `clap` reads them.
ghost use Rattle.std.specs.Prelude.{◌≡◌, [], map, string_bytes, codes, IfOk, MatchOption, Some, Option, false, true, unwrap_or};
ghost use Rattle.std.specs.Option.{option_and_then, option_map};
ghost use Rattle.clap.specs.Words.{app_of, found_of, first_value, is_simple_and_free, matched_of, matches_of, new_app, raw_values, rows_of, rule_of, with_rule};
ghost use Rattle.sm_words.specs.Options.{edge_options, play_options, serve_options};
ghost use Rattle.sm_words.specs.Words.{edge_texts, edge_words_by, export_texts, only_word, play_texts, play_words_by, push_texts, read, serve_texts, two_words, value_or_empty};
ghost use Rattle.sm_words.specs.Clapped.{behind_name, edge_app, is_taken, option_rule, play_app, play_first_app, serve_app, serve_first_app, switch_rule, words_app, words_rule};
ghost use Rattle.sm_words.specs.Matched.{edge_texts_of, export_texts_of, pair_of, play_texts_of, push_texts_of, serve_texts_of};

use crate::plain::are_plain;
use clap::error::ErrorKind;
use clap::{Arg, ArgAction, ArgMatches, Command};
use sm_model::NoMemory;
use std::alloc::Global;

/// The texts that `serve` is given; the empty one stands for an address, a journal and players that aren't.
#[derive(Debug, Drop)]
pub struct ServeTexts {
    pub port: String,
    pub ladder: bool,
    pub turns: Option<String>,
    pub bind: String,
    pub journal: String,
    pub players: String,
    pub store: String,
}

/// The texts that `push` is given.
#[derive(Debug, Drop)]
pub struct PushTexts {
    pub host: String,
    pub port: String,
    pub path: String,
    pub id: String,
}

/// The texts that `export` is given.
#[derive(Debug, Drop)]
pub struct ExportTexts {
    pub store: String,
    pub name: String,
    pub bitrate: String,
}

/// The texts that `relay` and `standby` are given, or those that stand for them; the empty one stands for a journal that isn't.
#[derive(Debug, Drop)]
pub struct EdgeTexts {
    pub host: String,
    pub port: String,
    pub path: String,
    pub store: String,
    pub rounds: String,
    pub tries: String,
    pub journal: String,
}

/// The texts that `play` is given, or those that stand for them.
#[derive(Debug, Drop)]
pub struct PlayTexts {
    pub host: String,
    pub port: String,
    pub path: String,
    pub streams: Vec<String>,
    pub from: Option<String>,
    pub count: String,
    pub tries: String,
    pub refresh: String,
}

// How many fragments of each stream are played, and how often a manifest is read into a store, where that isn't said.
const MANY: &str = "1000000";

// How often each manifest and each fragment is asked for, and how many manifests are read for one start, where that isn't said.
const PATIENCE: &str = "3";

// An option that has a value.
fn option<'w>(alloc: Global, name: &'w str) -> Arg<'w>
    ensures rule { rule_of result ≡ option_rule name.entry.now }
    ensures local { result.global ≡ false }
{
    Arg::new(alloc, name).long(name).action(ArgAction::Set)
}

// An option that has none.
fn switch<'w>(alloc: Global, name: &'w str) -> Arg<'w>
    ensures rule { rule_of result ≡ switch_rule name.entry.now }
    ensures local { result.global ≡ false }
{
    Arg::new(alloc, name).long(name).action(ArgAction::SetTrue)
}

// Any number of words that are no options.
fn words<'w>(alloc: Global, name: &'w str) -> Arg<'w>
    ensures rule { rule_of result ≡ words_rule name.entry.now }
    ensures local { result.global ≡ false }
{
    Arg::new(alloc, name).action(ArgAction::Append)
}

// A command without help, of which the words behind its name are read.
fn command<'w>(alloc: Global, name: &'w str) -> Command<'w>
    ensures { app_of result ≡ behind_name (new_app name.entry.now) }
{
    Command::new(alloc, name)
        .disable_help_flag(true)
        .no_binary_name(true)
}

// The command with one argument more.
fn with<'w>(command: Command<'w>, arg: Arg<'w>) -> Result<Command<'w>, NoMemory>
    requires { arg.global ≡ false }
    ensures { IfOk result (λ more. app_of more ≡ with_rule (app_of command.entry) (rule_of arg.entry)) }
{
    Ok(command.arg(arg)?)
}

// A command that takes words alone.
fn words_command<'w>(alloc: Global) -> Result<Command<'w>, NoMemory>
    ensures { IfOk result (λ command. app_of command ≡ words_app) }
{
    with(command(alloc, "words"), words(alloc, "WORDS"))
}

// The command `serve` with its first options.
fn serve_first<'w>(alloc: Global) -> Result<Command<'w>, NoMemory>
    ensures { IfOk result (λ command. app_of command ≡ serve_first_app) }
{
    let command = with(command(alloc, "serve"), option(alloc, "port"))?;
    let command = with(command, switch(alloc, "ladder"))?;
    with(command, option(alloc, "turns"))
}

fn serve_command<'w>(alloc: Global) -> Result<Command<'w>, NoMemory>
    ensures { IfOk result (λ command. app_of command ≡ serve_app) }
{
    let command = with(serve_first(alloc)?, option(alloc, "bind"))?;
    let command = with(command, option(alloc, "journal"))?;
    let command = with(command, option(alloc, "players"))?;
    with(command, words(alloc, "WORDS"))
}

// The command `play` with its first options.
fn play_first<'w>(alloc: Global) -> Result<Command<'w>, NoMemory>
    ensures { IfOk result (λ command. app_of command ≡ play_first_app) }
{
    let command = with(command(alloc, "play"), option(alloc, "from"))?;
    let command = with(command, option(alloc, "count"))?;
    with(command, option(alloc, "tries"))
}

fn play_command<'w>(alloc: Global) -> Result<Command<'w>, NoMemory>
    ensures { IfOk result (λ command. app_of command ≡ play_app) }
{
    let command = with(play_first(alloc)?, option(alloc, "refresh"))?;
    with(command, words(alloc, "WORDS"))
}

// The command `relay` or `standby`.
fn edge_command<'w>(alloc: Global) -> Result<Command<'w>, NoMemory>
    ensures { IfOk result (λ command. app_of command ≡ edge_app) }
{
    let command = with(command(alloc, "edge"), option(alloc, "rounds"))?;
    let command = with(command, option(alloc, "tries"))?;
    let command = with(command, option(alloc, "journal"))?;
    with(command, words(alloc, "WORDS"))
}

// A text, copied.
fn text(alloc: Global, text: &str) -> Result<String, NoMemory>
    ensures { IfOk result (λ copy. string_bytes copy ≡ text.now) }
{
    Ok(String::from_str(alloc, text)?)
}

// The text that was read under that name.
fn text_of(alloc: Global, matches: &ArgMatches<'_>, id: &str) -> Result<Option<String>, NoMemory>
    ensures { IfOk result (λ text. option_map string_bytes text ≡ first_value (found_of matches.now) id.now) }
{
    match matches.get_str(id) {
        Some(text) => Ok(Some(String::from_str(alloc, text)?)),
        None => Ok(None),
    }
}

// The text that was read under that name, or the one that stands for it.
fn text_or(
    alloc: Global,
    matches: &ArgMatches<'_>,
    id: &str,
    other: &str,
) -> Result<String, NoMemory>
    ensures { IfOk result (λ text. string_bytes text ≡ unwrap_or (first_value (found_of matches.now) id.now) other.now) }
{
    Ok(String::from_str(alloc, matches.get_str(id).unwrap_or(other))?)
}

// The text that was read under that name, if it isn't empty; where there is none the empty one stands for it.
fn filled_or_none(
    alloc: Global,
    matches: &ArgMatches<'_>,
    id: &str,
) -> Result<Option<String>, NoMemory>
    ensures { IfOk result (λ text. option_map string_bytes text ≡ value_or_empty (first_value (found_of matches.now) id.now)) }
{
    match matches.get_str(id) {
        None => Ok(Some(String::new(alloc))),
        Some(text) if text.is_empty() => Ok(None),
        Some(text) => Ok(Some(String::from_str(alloc, text)?)),
    }
}

// These texts, each copied.
fn copied(alloc: Global, texts: &[&str]) -> Result<Vec<String>, NoMemory>
    ensures { IfOk result (λ list. map string_bytes list.items ≡ map (λ text. text.now) texts.now) }
{
    let mut list = Vec::new(alloc);
    for text in texts {
        list.push(String::from_str(alloc, text)?)?;
    }
    Ok(list)
}

// These texts, each copied.
fn texts(alloc: Global, texts: &[String]) -> Result<Vec<String>, NoMemory>
    ensures { IfOk result (λ list. map string_bytes list.items ≡ map string_bytes texts.now) }
{
    let mut list = Vec::new(alloc);
    for text in texts {
        list.push(String::from_str(alloc, text.as_str())?)?;
    }
    Ok(list)
}

// The words that are no options, in their order.
fn others(alloc: Global, matches: &ArgMatches<'_>) -> Result<Vec<String>, NoMemory>
    ensures { IfOk result (λ texts. map string_bytes texts.items ≡ unwrap_or (option_map raw_values (matched_of (found_of matches.now) (codes "WORDS"))) []) }
{
    match matches.get_strs("WORDS") {
        Some(texts) => copied(alloc, texts),
        None => Ok(Vec::new(alloc)),
    }
}

// What a command makes of the words, if it takes them as they are meant.
fn matched<'w>(
    command: Command<'w>,
    words: &'w [String],
) -> Result<Option<ArgMatches<'w>>, NoMemory>
    requires simple { is_simple_and_free (app_of command) ≡ true }
    ensures { IfOk result (λ matches. MatchOption matches (is_taken (app_of command.entry) (map string_bytes words.entry.now) ≡ false) (λ m.
        (is_taken (app_of command.entry) (map string_bytes words.entry.now) ≡ true)
        × (rows_of (found_of m) ≡ matches_of (app_of command.entry) (map string_bytes words.entry.now)))) }
{
    if !are_plain(words) {
        return Ok(None);
    }
    match command.try_get_matches_from(words) {
        Ok(matches) => Ok(Some(matches)),
        Err(error) if error.kind() == ErrorKind::OutOfMemory => Err(NoMemory),
        Err(_) => Ok(None),
    }
}

// The words behind a command that takes words alone.
fn read_words(alloc: Global, words: &[String]) -> Result<Option<Vec<String>>, NoMemory>
    ensures { IfOk result (λ all. option_map (λ v. map string_bytes v.items) all ≡ option_and_then (λ r. Some r.words) (read [] (map string_bytes words.now))) }
{
    let Some(matches) = matched(words_command(alloc)?, words)? else {
        return Ok(None);
    };
    let words = others(alloc, &matches)?;
    Ok(Some(words))
}

/// Reads the words behind `pick`: the track_ID and the time.
pub fn read_pick(alloc: Global, words: &[String]) -> Result<Option<(String, String)>, NoMemory>
    ensures { IfOk result (λ texts. option_map pair_of texts ≡ option_and_then (λ r. two_words r.words) (read [] (map string_bytes words.now))) }
{
    let Some(words) = read_words(alloc, words)? else {
        return Ok(None);
    };
    let [track, time] = words.as_slice() else {
        return Ok(None);
    };
    Ok(Some((text(alloc, track.as_str())?, text(alloc, time.as_str())?)))
}

/// Reads the words behind `rehearse`: the number of the world and its size.
pub fn read_rehearse(alloc: Global, words: &[String]) -> Result<Option<(String, String)>, NoMemory>
    ensures { IfOk result (λ texts. option_map pair_of texts ≡ option_and_then (λ r. two_words r.words) (read [] (map string_bytes words.now))) }
{
    let Some(words) = read_words(alloc, words)? else {
        return Ok(None);
    };
    let [number, size] = words.as_slice() else {
        return Ok(None);
    };
    Ok(Some((text(alloc, number.as_str())?, text(alloc, size.as_str())?)))
}

// The word, copied, if it is the only one.
fn only_word(alloc: Global, words: &[String]) -> Result<Option<String>, NoMemory>
    ensures { IfOk result (λ word. option_map string_bytes word ≡ only_word (map string_bytes words.now)) }
{
    match words {
        [word] => Ok(Some(text(alloc, word.as_str())?)),
        _ => Ok(None),
    }
}

/// Reads the words behind `list`: the folder.
pub fn read_list(alloc: Global, words: &[String]) -> Result<Option<String>, NoMemory>
    ensures { IfOk result (λ text. option_map string_bytes text ≡ option_and_then (λ r. only_word r.words) (read [] (map string_bytes words.now))) }
{
    let Some(words) = read_words(alloc, words)? else {
        return Ok(None);
    };
    only_word(alloc, words.as_slice())
}

/// Reads the words behind `serve`.
pub fn read_serve(alloc: Global, words: &[String]) -> Result<Option<ServeTexts>, NoMemory>
    ensures { IfOk result (λ texts. option_map serve_texts_of texts ≡ option_and_then serve_texts (read serve_options (map string_bytes words.now))) }
{
    let Some(matches) = matched(serve_command(alloc)?, words)? else {
        return Ok(None);
    };
    let Some(port) = text_of(alloc, &matches, "port")? else {
        return Ok(None);
    };
    let ladder = matches.get_flag("ladder");
    let turns = text_of(alloc, &matches, "turns")?;
    let Some(bind) = filled_or_none(alloc, &matches, "bind")? else {
        return Ok(None);
    };
    let Some(journal) = filled_or_none(alloc, &matches, "journal")? else {
        return Ok(None);
    };
    let Some(players) = filled_or_none(alloc, &matches, "players")? else {
        return Ok(None);
    };
    let words = others(alloc, &matches)?;
    let Some(store) = only_word(alloc, words.as_slice())? else {
        return Ok(None);
    };
    Ok(Some(ServeTexts {
        port,
        ladder,
        turns,
        bind,
        journal,
        players,
        store,
    }))
}

/// Reads the words behind `push`.
pub fn read_push(alloc: Global, words: &[String]) -> Result<Option<PushTexts>, NoMemory>
    ensures { IfOk result (λ texts. option_map push_texts_of texts ≡ option_and_then (λ r. push_texts r.words) (read [] (map string_bytes words.now))) }
{
    let Some(words) = read_words(alloc, words)? else {
        return Ok(None);
    };
    let [host, port, path, id] = words.as_slice() else {
        return Ok(None);
    };
    Ok(Some(PushTexts {
        host: text(alloc, host.as_str())?,
        port: text(alloc, port.as_str())?,
        path: text(alloc, path.as_str())?,
        id: text(alloc, id.as_str())?,
    }))
}

/// Reads the words behind `export`.
pub fn read_export(alloc: Global, words: &[String]) -> Result<Option<ExportTexts>, NoMemory>
    ensures { IfOk result (λ texts. option_map export_texts_of texts ≡ option_and_then (λ r. export_texts r.words) (read [] (map string_bytes words.now))) }
{
    let Some(words) = read_words(alloc, words)? else {
        return Ok(None);
    };
    let [store, name, bitrate] = words.as_slice() else {
        return Ok(None);
    };
    Ok(Some(ExportTexts {
        store: text(alloc, store.as_str())?,
        name: text(alloc, name.as_str())?,
        bitrate: text(alloc, bitrate.as_str())?,
    }))
}

// The texts of `relay` and `standby`, by the words and the options.
fn edge_by_words(
    alloc: Global,
    words: &[String],
    rounds: String,
    tries: String,
    journal: String,
) -> Result<Option<EdgeTexts>, NoMemory>
    ensures { IfOk result (λ texts. option_map edge_texts_of texts
        ≡ edge_words_by (map string_bytes words.now) (Some (string_bytes rounds)) (Some (string_bytes tries)) (string_bytes journal)) }
{
    let [host, port, path, store] = words else {
        return Ok(None);
    };
    Ok(Some(EdgeTexts {
        host: text(alloc, host.as_str())?,
        port: text(alloc, port.as_str())?,
        path: text(alloc, path.as_str())?,
        store: text(alloc, store.as_str())?,
        rounds,
        tries,
        journal,
    }))
}

/// Reads the words behind `relay` and `standby`.
pub fn read_edge(alloc: Global, words: &[String]) -> Result<Option<EdgeTexts>, NoMemory>
    ensures { IfOk result (λ texts. option_map edge_texts_of texts ≡ option_and_then edge_texts (read edge_options (map string_bytes words.now))) }
{
    let Some(matches) = matched(edge_command(alloc)?, words)? else {
        return Ok(None);
    };
    let Some(journal) = filled_or_none(alloc, &matches, "journal")? else {
        return Ok(None);
    };
    let words = others(alloc, &matches)?;
    let rounds = text_or(alloc, &matches, "rounds", MANY)?;
    let tries = text_or(alloc, &matches, "tries", PATIENCE)?;
    edge_by_words(alloc, words.as_slice(), rounds, tries, journal)
}

// The texts of `play`, by the words and the options.
fn play_by_words(
    alloc: Global,
    words: &[String],
    from: Option<String>,
    count: String,
    tries: String,
    refresh: String,
) -> Result<Option<PlayTexts>, NoMemory>
    ensures { IfOk result (λ texts. option_and_then play_texts_of texts
        ≡ play_words_by (map string_bytes words.now) (option_map string_bytes from) (Some (string_bytes count)) (Some (string_bytes tries))
        (Some (string_bytes refresh))) }
{
    let [host, port, path, streams @ ..] = words else {
        return Ok(None);
    };
    Ok(Some(PlayTexts {
        host: text(alloc, host.as_str())?,
        port: text(alloc, port.as_str())?,
        path: text(alloc, path.as_str())?,
        streams: texts(alloc, streams)?,
        from,
        count,
        tries,
        refresh,
    }))
}

/// Reads the words behind `play`.
pub fn read_play(alloc: Global, words: &[String]) -> Result<Option<PlayTexts>, NoMemory>
    ensures { IfOk result (λ texts. option_and_then play_texts_of texts ≡ option_and_then play_texts (read play_options (map string_bytes words.now))) }
{
    let Some(matches) = matched(play_command(alloc)?, words)? else {
        return Ok(None);
    };
    let words = others(alloc, &matches)?;
    let from = text_of(alloc, &matches, "from")?;
    let count = text_or(alloc, &matches, "count", MANY)?;
    let tries = text_or(alloc, &matches, "tries", PATIENCE)?;
    let refresh = text_or(alloc, &matches, "refresh", PATIENCE)?;
    play_by_words(alloc, words.as_slice(), from, count, tries, refresh)
}
