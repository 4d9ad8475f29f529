//! Calls of `sm_model`.
use anyhow::{Result, bail};
use sm_model::{Cause, Name, NameFault, NoMemory, ReadFault, Refusal, TextFault, put_cause};
use sm_rows::values::{channel_of, fragment_of, tell_channel, tell_fragment};
use sm_rows::{Case, Words};
use std::alloc::Global;

// The causes of a body that name no values.
fn cause_of_body(word: &str) -> Option<Cause> {
    Some(match word {
        "BadBox" => Cause::BadBox,
        "BoxTooLarge" => Cause::BoxTooLarge,
        "OpenEnded" => Cause::OpenEnded,
        "NoHeader" => Cause::NoHeader,
        "BadMoov" => Cause::BadMoov,
        "UnknownTrack" => Cause::UnknownTrack,
        "Protected" => Cause::Protected,
        "ManyTracks" => Cause::ManyTracks,
        "ManyRuns" => Cause::ManyRuns,
        "BaseOffset" => Cause::BaseOffset,
        "NoTime" => Cause::NoTime,
        "NoDuration" => Cause::NoDuration,
        "NoSamples" => Cause::NoSamples,
        "SamplesOutside" => Cause::SamplesOutside,
        "NoMdat" => Cause::NoMdat,
        "CutOff" => Cause::CutOff,
        "TimeTooLarge" => Cause::TimeTooLarge,
        "TooManySamples" => Cause::TooManySamples,
        "BadRun" => Cause::BadRun,
        _ => return None,
    })
}

// The others that name none.
fn cause_of_server(word: &str) -> Option<Cause> {
    Some(match word {
        "Full" => Cause::Full,
        "DiskFault" => Cause::DiskFault,
        "Damaged" => Cause::Damaged,
        "NoMemory" => Cause::NoMemory,
        "Forward" => Cause::Forward,
        "BadHead" => Cause::BadHead,
        "HeadTooLarge" => Cause::HeadTooLarge,
        "NoTarget" => Cause::NoTarget,
        "Method" => Cause::Method,
        "Encoded" => Cause::Encoded,
        "BadChunk" => Cause::BadChunk,
        "LengthRequired" => Cause::LengthRequired,
        "NotKept" => Cause::NotKept,
        "NoChannel" => Cause::NoChannel,
        "TooManyConnections" => Cause::TooManyConnections,
        _ => return None,
    })
}

fn bad_live_manifest(words: &Words) -> Result<Cause> {
    let inside = words.number(1)?;
    Ok(Cause::BadLiveManifest { inside })
}

fn not_declared(alloc: Global, words: &Words) -> Result<Cause> {
    let bitrate = words.short(2)?;
    let stream = Name::read(alloc, words.raw(1)?)?;
    Ok(Cause::NotDeclared { stream, bitrate })
}

fn decl_clash(alloc: Global, words: &Words) -> Result<Cause> {
    let bitrate = words.short(2)?;
    let stream = Name::read(alloc, words.raw(1)?)?;
    Ok(Cause::DeclClash { stream, bitrate })
}

fn duration_clash(words: &Words) -> Result<Cause> {
    let kept = words.number(1)?;
    let given = words.number(2)?;
    Ok(Cause::DurationClash { kept, given })
}

fn overlap(words: &Words) -> Result<Cause> {
    let end = words.number(1)?;
    Ok(Cause::Overlap { end })
}

// The cause of words that begin with its name, and behind it have its values.
fn cause_of(alloc: Global, words: &Words) -> Result<Cause> {
    let word = words.text(0)?;
    if let Some(cause) = cause_of_body(word) {
        return Ok(cause);
    }
    if let Some(cause) = cause_of_server(word) {
        return Ok(cause);
    }
    match word {
        "BadLiveManifest" => bad_live_manifest(words),
        "NotDeclared" => not_declared(alloc, words),
        "DeclClash" => decl_clash(alloc, words),
        "DurationClash" => duration_clash(words),
        "Overlap" => overlap(words),
        _ => bail!("no such cause"),
    }
}

// The line of a refusal, its status, and the words of its cause.
fn cause(alloc: Global, case: &Case<'_>) -> Result<String> {
    let refusal = Refusal {
        at: case.number(alloc, "at")?,
        cause: cause_of(alloc, &case.words_of(alloc, "cause")?)?,
    };
    let line = put_cause(alloc, &refusal)?;
    let line = str::from_utf8(line.as_slice())?;
    let status = refusal.cause.status();
    let cause = &refusal.cause;
    Ok(format!(in alloc; "{line}{status}\n{cause}\n")?)
}

fn name(alloc: Global, bytes: &[u8]) -> Result<String> {
    let fits = if Name::fits(bytes) {
        "fits"
    } else {
        "does not fit"
    };
    Ok(match Name::read(alloc, bytes) {
        Ok(name) => {
            let name = name.as_str();
            format!(in alloc; "{fits}\n{name}")?
        }
        Err(fault) => format!(in alloc; "{fits}\n{fault}")?,
    })
}

// The words of each fault of the crate.
fn faults(alloc: Global) -> Result<String> {
    let form = NameFault::Form { at: 7 };
    let none = NameFault::NoMemory;
    let memory = NoMemory;
    let names = format!(in alloc; "{form}\n{none}\n{memory}\n")?;
    let refused = ReadFault::Refused(Cause::NoTime);
    let unread = ReadFault::NoMemory;
    let boxes = format!(in alloc; "{refused}\n{unread}\n")?;
    let bad = TextFault::Bad { at: 7 };
    let untold = TextFault::NoMemory;
    Ok(format!(in alloc; "{names}{boxes}{bad}\n{untold}\n")?)
}

fn name_of_track(alloc: Global, case: &Case<'_>) -> Result<String> {
    let words = case.words_of(alloc, "id")?;
    let name = Name::of_track(alloc, words.short(0)?)?;
    Ok(String::from_str(alloc, name.as_str())?)
}

fn channel(alloc: Global, case: &Case<'_>) -> Result<String> {
    let channel = channel_of(alloc, case)?;
    let copy = channel.copy(alloc)?;
    Ok(tell_channel(alloc, &copy)?)
}

fn fragment(alloc: Global, case: &Case<'_>) -> Result<String> {
    let fragment = fragment_of(alloc, case)?;
    let copy = fragment.copy(alloc)?;
    Ok(tell_fragment(alloc, &copy)?)
}

fn name_of(alloc: Global, case: &Case<'_>) -> Result<String> {
    let bytes = case.bytes(alloc, "bytes")?;
    name(alloc, bytes.as_slice())
}

/// What a call of `sm_model` gives.
pub fn answer(alloc: Global, case: &Case<'_>) -> Result<String> {
    match case.call() {
        "sm_model Cause" => cause(alloc, case),
        "sm_model Name::read" => name_of(alloc, case),
        "sm_model Name::of_track" => name_of_track(alloc, case),
        "sm_model Channel::copy" => channel(alloc, case),
        "sm_model Fragment::copy" => fragment(alloc, case),
        "sm_model faults" => faults(alloc),
        _ => bail!("no such call"),
    }
}
