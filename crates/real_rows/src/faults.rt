//! The texts of faults.

use anyhow::{Result, bail};
use sm_real::OpenFault;
use sm_rows::Case;
use std::alloc::Global;

/// The text of the fault that the line `fault` says.
pub fn told(alloc: Global, case: &Case<'_>) -> Result<String> {
    let words = case.words_of(alloc, "fault")?;
    let fault = match words.text(0)? {
        "Failed" => OpenFault::Failed,
        "NoMemory" => OpenFault::NoMemory,
        _ => bail!("no fault"),
    };
    Ok(format!(in alloc; "{fault}")?)
}
