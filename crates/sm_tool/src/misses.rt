//! What is told of tries of which none gave what was asked.
ghost use Rattle.std.specs.Prelude.{◌≡◌, ◌++◌, codes, string_bytes, IfOk, OnOk};
ghost use Rattle.sm_tool.specs.Misses.{gave_up_line, miss_word, miss_words, no_manifest_line};

use sm_client::{Miss, Outcomes};
use sm_model::{Bytes, NoMemory};
use std::alloc::Global;

// What came in place of what was asked, behind a space.
fn miss_word(alloc: Global, miss: Miss) -> Result<String, NoMemory>
    ensures { IfOk result (λ word. string_bytes word ≡ miss_word miss) }
{
    Ok(match miss {
        Miss::Lost => String::from_str(alloc, " Lost")?,
        Miss::Cut => String::from_str(alloc, " Cut")?,
        Miss::Unreadable { at } => format!(in alloc; " Unreadable-{at}")?,
        Miss::Status(status) => format!(in alloc; " Status-{status}")?,
    })
}

// Adds what came of the tries, in their order, and ends the line; the sentence stands behind it.
fn end_with(
    alloc: Global,
    line: &mut Vec<u8>,
    outcomes: &[Miss],
    sentence: &[u8],
) -> Result<(), NoMemory>
    ensures { OnOk result (line.new.items ≡ line.old.items ++ (miss_words outcomes.now ++ sentence.now)) }
{
    for miss in outcomes {
        let word = miss_word(alloc, *miss)?;
        line.extend_from_slice(word.as_bytes())?;
    }
    line.extend_from_slice(sentence)?;
    Ok(())
}

/// The line of a time whose fragment none of the tries gave.
pub fn gave_up_line(alloc: Global, time: u64, outcomes: &Outcomes) -> Result<Bytes, NoMemory>
    ensures { IfOk result (λ line. line ≡ gave_up_line time outcomes.now) }
{
    let mut line = format!(in alloc; "error: GaveUp {time}")?.into_bytes();
    let sentence = b"\nNone of the tries gave the fragment of this time.\n";
    end_with(alloc, &mut line, outcomes.as_slice(), sentence)?;
    Ok(Bytes::from_vec(line))
}

/// The line of a manifest that none of the tries gave.
pub fn no_manifest_line(alloc: Global, outcomes: &Outcomes) -> Result<Bytes, NoMemory>
    ensures { IfOk result (λ line. line ≡ no_manifest_line outcomes.now) }
{
    let mut line = Vec::from_slice(alloc, b"error: NoManifest")?;
    let sentence = b"\nNone of the tries gave the manifest.\n";
    end_with(alloc, &mut line, outcomes.as_slice(), sentence)?;
    Ok(Bytes::from_vec(line))
}
