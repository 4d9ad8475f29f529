//! The texts of faults.
use anyhow::{Result, bail};
use sm_client::VisitFault;
use sm_command::StoreFault;
use sm_fetch::DialError;
use sm_model::Cause;
use sm_rows::tales::Tale;
use sm_rows::{Case, Words};
use std::alloc::Global;

// The fault of a store, with its place where it has one.
fn store_fault(words: &Words) -> Result<StoreFault> {
    Ok(match words.text(1)? {
        "DiskFault" => StoreFault::DiskFault,
        "LinkFault" => StoreFault::LinkFault,
        "NotAStore" => StoreFault::NotAStore {
            at: words.number(2)?,
        },
        "Unread" => StoreFault::Unread,
        "LongLadder" => StoreFault::LongLadder,
        "BadLadder" => StoreFault::BadLadder {
            at: words.number(2)?,
        },
        "Refused" => StoreFault::Refused(Cause::NoChannel),
        "Full" => StoreFault::Full,
        "Damaged" => StoreFault::Damaged,
        "NoMemory" => StoreFault::NoMemory,
        _ => bail!("no fault"),
    })
}

fn visit_fault(name: &str) -> Result<VisitFault> {
    Ok(match name {
        "LinkFault" => VisitFault::LinkFault,
        "Unread" => VisitFault::Unread,
        "TooLong" => VisitFault::TooLong,
        "NoMemory" => VisitFault::NoMemory,
        _ => bail!("no fault"),
    })
}

fn dial_error(name: &str) -> Result<DialError> {
    Ok(match name {
        "Failed" => DialError::Failed,
        "NoMemory" => DialError::NoMemory,
        _ => bail!("no fault"),
    })
}

fn of_stores(alloc: Global, words: &Words) -> Result<String> {
    let fault = store_fault(words)?;
    Ok(format!(in alloc; "{fault}")?)
}

fn of_visits(alloc: Global, name: &str) -> Result<String> {
    let fault = visit_fault(name)?;
    Ok(format!(in alloc; "{fault}")?)
}

fn of_dials(alloc: Global, name: &str) -> Result<String> {
    let fault = dial_error(name)?;
    Ok(format!(in alloc; "{fault}")?)
}

fn text_of(alloc: Global, words: &Words) -> Result<String> {
    match words.text(0)? {
        "StoreFault" => of_stores(alloc, words),
        "VisitFault" => of_visits(alloc, words.text(1)?),
        "DialError" => of_dials(alloc, words.text(1)?),
        _ => bail!("no fault"),
    }
}

/// Tells the text of the fault that the line `fault` says: its type, its variant, and its place where it has one.
pub fn tell(alloc: Global, case: &Case<'_>, tale: &mut Tale) -> Result<()> {
    let words = case.words_of(alloc, "fault")?;
    let text = text_of(alloc, &words)?;
    tale.say(text.as_str())
}
