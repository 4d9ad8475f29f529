//! Running the rows of files.
use crate::{Case, Page};
use anyhow::Result;
use std::alloc::Global;
use std::fs;
use std::rt::Files;

/// A program that makes the calls of rows.
pub trait Caller {
    /// What the call of a row gives, as a text.
    fn answer(alloc: Global, case: &Case<'_>) -> Result<String>;
}

// How a row differs: a line to print, or nothing.
fn difference<C: Caller>(alloc: Global, case: &Case<'_>) -> Result<Option<String>> {
    let gave = match C::answer(alloc, case) {
        Ok(gave) => gave,
        Err(fault) => format!(in alloc; "{fault}")?,
    };
    Ok(case.difference(alloc, gave.as_str())?)
}

// Makes the calls of all rows of a page.
fn run<C: Caller>(rt: &impl Print, alloc: Global, page: &Page) -> Result<()> {
    for at in 0..page.len() {
        let Some(case) = page.case(at) else {
            break;
        };
        if let Some(line) = difference::<C>(alloc, &case)? {
            print!(rt; "{line}")?;
        }
    }
    Ok(())
}

// Reads a page and runs it, and answers how many rows it has.
fn run_file<C: Caller>(
    rt: &(impl Files + Print + AllocGlobal),
    page: &mut Page,
    name: &str,
) -> Result<usize> {
    let text = fs::read_to_string(rt, name)?;
    if let Err(fault) = page.read(rt.alloc(), text.as_str()) {
        println!(rt; "{name}: {fault}")?;
    }
    run::<C>(rt, rt.alloc(), page)?;
    Ok(page.len())
}

/// Makes the calls of all rows of these files, prints how what they give differs from what they have to give, and in a last line how
/// many rows there are. Names and blocks of one file are known in those behind it.
pub fn run_pages<C: Caller>(rt: &(impl Files + Print + AllocGlobal), names: &[&str]) -> Result<()> {
    let mut page = Page::new(rt.alloc())?;
    let mut rows = 0usize;
    for name in names {
        rows = rows.saturating_add(run_file::<C>(rt, &mut page, name)?);
    }
    println!(rt; "{rows} rows")?;
    Ok(())
}
