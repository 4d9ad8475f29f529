//! The answers of stores in words.
use anyhow::{Result, bail};
use sm_archive::{Declared, DiskFault, Fetched, Keeping, OpenFault};
use sm_model::{Cause, Fragment};
use sm_rows::{Words, hex};
use std::alloc::Global;

fn refused(alloc: Global, cause: &Cause) -> Result<String> {
    let (number, name) = (cause.number(), cause.name());
    Ok(format!(in alloc; "refused {number} {name}")?)
}

/// What came of a header.
pub fn declared(alloc: Global, answer: &Declared) -> Result<String> {
    Ok(match answer {
        Declared::Fixed => String::from_str(alloc, "fixed")?,
        Declared::Agreed => String::from_str(alloc, "agreed")?,
        Declared::Refused(cause) => refused(alloc, cause)?,
        Declared::Full => String::from_str(alloc, "full")?,
        Declared::DiskFault => String::from_str(alloc, "disk fault")?,
        Declared::NoMemory => String::from_str(alloc, "out of memory")?,
    })
}

/// What came of a fragment.
pub fn kept(alloc: Global, answer: &Keeping) -> Result<String> {
    Ok(match answer {
        Keeping::Kept { place } => format!(in alloc; "kept {place}")?,
        Keeping::Known { place } => format!(in alloc; "known {place}")?,
        Keeping::Refused(cause) => refused(alloc, cause)?,
        Keeping::Full => String::from_str(alloc, "full")?,
        Keeping::DiskFault => String::from_str(alloc, "disk fault")?,
        Keeping::NoMemory => String::from_str(alloc, "out of memory")?,
    })
}

// The bytes of all samples, in hexadecimal digits.
fn samples(alloc: Global, fragment: &Fragment) -> Result<String> {
    let mut text = String::new(alloc);
    for sample in fragment.samples.as_slice() {
        text.push_str(hex(alloc, sample.bytes.as_slice())?.as_str())?;
    }
    Ok(text)
}

/// What came of asking for a fragment, with the bytes of its samples.
pub fn fetched(alloc: Global, answer: &Fetched) -> Result<String> {
    Ok(match answer {
        Fetched::Found { place, fragment } => {
            let samples = samples(alloc, fragment)?;
            format!(in alloc; "found {place} {samples}")?
        }
        Fetched::Absent => String::from_str(alloc, "absent")?,
        Fetched::DiskFault => String::from_str(alloc, "disk fault")?,
        Fetched::Damaged => String::from_str(alloc, "damaged")?,
        Fetched::NoMemory => String::from_str(alloc, "out of memory")?,
    })
}

fn of_openings(alloc: Global, words: &Words) -> Result<String> {
    let fault = match words.text(1)? {
        "DiskFault" => OpenFault::DiskFault,
        "NotAStore" => OpenFault::NotAStore {
            at: words.number(2)?,
        },
        "NoMemory" => OpenFault::NoMemory,
        _ => bail!("no fault"),
    };
    Ok(format!(in alloc; "{fault}")?)
}

/// The text of a fault of a store.
pub fn fault(alloc: Global, words: &Words) -> Result<String> {
    match words.text(0)? {
        "OpenFault" => of_openings(alloc, words),
        "DiskFault" => Ok(format!(in alloc; "{DiskFault}")?),
        _ => bail!("no fault"),
    }
}
