//! The listed times, in runs.
ghost use Rattle.std.specs.Prelude.{◌≡◌, ◌+◌, ◌++◌, ◌<◌, OnOk};
ghost use Rattle.sm_manout.specs.ManifestText.{follows, runs_from, runs, run_line, run_lines};

use crate::put::put_number;
use sm_model::{NoMemory, put};
use std::alloc::Global;

fn follows(last: (u64, u64), x: (u64, u64)) -> bool
    ensures { result ≡ follows last x }
{
    x.1 == last.1 && x.0 as u128 == last.0 as u128 + last.1 as u128
}

#[tactic(auto, unfolding(crate::specs::ManifestText::run_line))]
fn put_run(
    alloc: Global,
    out: &mut Vec<u8>,
    start: u64,
    duration: u64,
    count: u64,
) -> Result<(), NoMemory>
    ensures { OnOk result (out.new.items ≡ out.old.items ++ run_line (record { start = start; duration = duration; count = count })) }
{
    put(out, b"<c")?;
    put_number(alloc, out, b"t", start)?;
    put_number(alloc, out, b"d", duration)?;
    if count != 1 {
        put_number(alloc, out, b"r", count)?;
    }
    put(out, b"/>\n")
}

// The runs of a first time and of those behind it.
fn put_behind(
    alloc: Global,
    out: &mut Vec<u8>,
    first: (u64, u64),
    rest: &[(u64, u64)],
) -> Result<(), NoMemory>
    ensures { OnOk result (out.new.items ≡ out.old.items ++ run_lines (runs_from first.0 1 first rest.now)) }
{
    let mut start = first.0;
    let mut count: u64 = 1;
    let mut last = first;
    for x in rest {
        if follows(last, *x) {
            count += 1;
        } else {
            put_run(alloc, out, start, last.1, count)?;
            start = x.0;
            count = 1;
        }
        last = *x;
    }
    put_run(alloc, out, start, last.1, count)
}

/// One line for each run of the times.
pub fn put_times(alloc: Global, out: &mut Vec<u8>, times: &[(u64, u64)]) -> Result<(), NoMemory>
    ensures { OnOk result (out.new.items ≡ out.old.items ++ run_lines (runs times.now)) }
{
    match times {
        [] => Ok(()),
        [first, rest @ ..] => put_behind(alloc, out, *first, rest),
    }
}
