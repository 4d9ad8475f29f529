//! The texts of faults.
use crate::verdicts;
use anyhow::{Result, bail};
use sm_ends::{Failed, InputFault};
use sm_gatelog::{LogFault, ReadFault};
use sm_rows::{Case, Words};
use std::alloc::Global;

fn of_inputs(alloc: Global, name: &str) -> Result<String> {
    let fault = match name {
        "Failed" => InputFault::Failed,
        "TooLong" => InputFault::TooLong,
        "NoMemory" => InputFault::NoMemory,
        _ => bail!("no fault"),
    };
    Ok(format!(in alloc; "{fault}")?)
}

fn of_logs(alloc: Global, name: &str, words: &Words) -> Result<String> {
    let fault = match name {
        "DiskFault" => LogFault::DiskFault,
        "NotAStore" => LogFault::NotAStore {
            at: words.number(2)?,
        },
        "NoMemory" => LogFault::NoMemory,
        _ => bail!("no fault"),
    };
    Ok(format!(in alloc; "{fault}")?)
}

fn of_reads(alloc: Global, name: &str) -> Result<String> {
    let fault = match name {
        "DiskFault" => ReadFault::DiskFault,
        "NoMemory" => ReadFault::NoMemory,
        _ => bail!("no fault"),
    };
    Ok(format!(in alloc; "{fault}")?)
}

/// The text of the fault that the line `fault` says: its type, its variant, and its place where it has one.
pub fn told(alloc: Global, case: &Case<'_>) -> Result<String> {
    let words = case.words_of(alloc, "fault")?;
    match words.text(0)? {
        "InputFault" => of_inputs(alloc, words.text(1)?),
        "LogFault" => of_logs(alloc, words.text(1)?, &words),
        "ReadFault" => of_reads(alloc, words.text(1)?),
        "Failed" => Ok(format!(in alloc; "{Failed}")?),
        _ => verdicts::fault(alloc, &words),
    }
}
