//! The program `smooth`: a live origin and client for Smooth Streaming. It picks a fragment out of an input, serves a store, beside player
//! threads if asked for, and lists it, pushes an input to an origin, plays streams of one, and rehearses both together.
#![tactic(auto)]

ghost use Rattle.std.specs.Prelude.{◌≡◌, ◌≤◌, ℕ, List, IfErr, IfOk, IsErr, OnErr, OnOk, length, map, string_bytes};
ghost use Rattle.std.specs.IoError.{error_kind};
ghost use Rattle.std.specs.Option.{option_map};
ghost use Rattle.std.specs.Process.{exit_status};
ghost use Rattle.std.specs.Result.{result_ok};
ghost use Rattle.sm_tool.specs.Ran.{Prints, around};
ghost use Rattle.sm_tool.specs.declared.answer.Answer.TheVariants.{Starved};
ghost use Rattle.sm_run.specs.Runs.{EndsAs};
ghost use Rattle.smooth.specs.Given.{words_in};
ghost use Rattle.smooth.specs.Troubles.{TellsLine, first_trouble};
ghost use Rattle.sm_ends.specs.Ended.{end_of};
ghost use Rattle.sm_client.specs.Pushing.{line_of};
ghost use Rattle.sm_client.specs.Turns.{meant};
ghost use Rattle.sm_tool.specs.Edges.{dialing};
ghost use Rattle.sm_tool.specs.Plays.{tape_of};
ghost use Rattle.sm_run.specs.Staff.{staff_of};

mod std_ends;

use sm_crew::RealCrew;
use sm_ends::{Sink, Source, Tracks, write_all};
use sm_fetch::Dial;
use sm_model::NoMemory;
use sm_players::Spawner;
use sm_policy::{Fixed, Ladder, Policy, Steps};
use sm_promises::promised;
use sm_real::{FileTracks, Pulls, RealSite, TcpDial, Trouble, Viewers};
use sm_site::Site;
use sm_tool::starved;
use std::alloc::Global;
use std::env::{self, Args};
use std::io::{self, ErrorKind};
use std::process::ExitCode;
use std::sync::Wait;
use std_ends::{StdSink, StdSource};

// The words behind the program's name, of those that the system gives. Where one of them is no text they are none of a command, and so
// are no words at all.
fn words_of(alloc: Global, given: io::Result<Args>) -> Result<Vec<String>, NoMemory>
    ensures words { IfOk result (λ words. words.items ≡ words_in given) }
    ensures want { IfErr given (λ fault. error_kind fault ≡ ErrorKind.OutOfMemory → IsErr result) }
{
    let mut words = Vec::new(alloc);
    match given {
        Ok(args) => {
            let mut args = args;
            let _program = args.next();
            for word in args {
                words.push(word)?;
            }
        }
        Err(fault) if fault.kind() == ErrorKind::OutOfMemory => return Err(NoMemory),
        Err(_) => {}
    }
    Ok(words)
}

// Runs the command that the words name, and ends with its status. Without memory for the words that alone is told.
fn run_words<R: Wait, I: Source, O: Sink, S: Site, C: Dial, T: Tracks, P: Spawner>(
    rt: &R,
    alloc: Global,
    words: Result<Vec<String>, NoMemory>,
    input: &mut I,
    output: &mut O,
    site: &mut S,
    dial: &mut C,
    tracks: &mut T,
    crew: &mut P,
    policies: Vec<Box<dyn Policy>>,
) -> ExitCode
    requires policies { length policies.items ≡ 3 }
    ensures ends { EndsAs S.Disk.seen (dialing C.log C.store C.later C.dial_faults C.chosen) (meant pick_after retired_after) policies.items
        (option_map (λ list. map string_bytes list.items) (result_ok words))
        (around (end_of I.left I.faults input.old) (line_of C.log C.dial_faults C.chosen dial.old) (tape_of T.held T.faults tracks.old))
        (around (end_of I.left I.faults input.new) (line_of C.log C.dial_faults C.chosen dial.new) (tape_of T.held T.faults tracks.new))
        (end_of O.held O.faults output.old) (end_of O.held O.faults output.new) site.old site.new dial.old dial.new
        (staff_of P.spawn_faults P.started P.limit P.chosen P.ended crew.old)
        (staff_of P.spawn_faults P.started P.limit P.chosen P.ended crew.new) (exit_status result) }
    ensures goes_on { C.later dial.old dial.new }
{
    match words {
        Ok(words) => {
            let status = promised(
                rt, alloc, &words, input, output, site, dial, tracks, crew, policies,
            );
            ExitCode::from(status)
        }
        Err(NoMemory) => ExitCode::from(starved(output)),
    }
}

// Ends where there is no memory to begin with.
fn end_starved<O: Sink>(output: &mut O) -> ExitCode
    ensures { Prints Starved (end_of O.held O.faults output.old) (end_of O.held O.faults output.new) (exit_status result) }
{
    ExitCode::from(starved(output))
}

// What the system said where it refused what the program needed for this status.
fn trouble_of(status: ExitCode, troubles: &[(u8, Option<Trouble>)]) -> Option<Trouble>
    ensures { result ≡ first_trouble (exit_status status) troubles.now }
{
    for (number, trouble) in troubles {
        if status == ExitCode::from(*number) && trouble.is_some() {
            return *trouble;
        }
    }
    None
}

// What the system said, for people: a line behind those of a failure. Nothing that stands there is lost. Without memory for the line none is
// told.
fn tell<O: Sink>(alloc: Global, output: &mut O, trouble: Trouble) -> Result<(), NoMemory>
    ensures told { OnOk result (TellsLine (O.held output.old) (O.held output.new) (O.faults output.old) (O.faults output.new)) }
    ensures untold { OnErr result (O.held output.new ≡ O.held output.old) }
    ensures later { O.faults output.old ≤ O.faults output.new }
{
    let mut line = format!(in alloc; "{trouble}")?;
    line.push_str("\n")?;
    let _ = write_all(output, line.as_bytes());
    Ok(())
}

fn main(rt: HostRuntime) -> ExitCode {
    let mut input = StdSource::new(rt.stdin());
    let mut output = StdSink::new(rt.stdout());
    let mut site = RealSite::new(&rt, rt.alloc());
    let mut dial = TcpDial::new(&rt, rt.alloc());
    let mut tracks = FileTracks::new(&rt, rt.alloc());
    let Ok(viewers) = Viewers::new(rt.alloc()) else {
        return end_starved(&mut output);
    };
    let Ok(copy) = viewers.copy() else {
        return end_starved(&mut output);
    };
    site.tell_of(copy);
    let Ok(pulls) = Pulls::new(rt.alloc()) else {
        return end_starved(&mut output);
    };
    let Ok(copy) = pulls.copy() else {
        return end_starved(&mut output);
    };
    site.pull_in(copy);
    dial.tell_in(pulls);
    let Ok(crew) = RealCrew::new(rt, rt.alloc(), viewers) else {
        return end_starved(&mut output);
    };
    let mut crew = crew;
    let words = words_of(rt.alloc(), env::args(&rt));
    let Ok(steps) = Box::new(rt.alloc(), Steps::new()) else {
        return end_starved(&mut output);
    };
    let Ok(ladder) = Box::new(rt.alloc(), Ladder::new()) else {
        return end_starved(&mut output);
    };
    let Ok(fixed) = Box::new(rt.alloc(), Fixed::new(0)) else {
        return end_starved(&mut output);
    };
    let steps: Box<dyn Policy> = steps;
    let ladder: Box<dyn Policy> = ladder;
    let fixed: Box<dyn Policy> = fixed;
    let Ok(policies) = vec![in rt.alloc(); steps, ladder, fixed] else {
        return end_starved(&mut output);
    };
    let status = run_words(
        &rt,
        rt.alloc(),
        words,
        &mut input,
        &mut output,
        &mut site,
        &mut dial,
        &mut tracks,
        &mut crew,
        policies,
    );
    site.end();
    let troubles = [
        (4, dial.trouble()),
        (5, site.disk_trouble()),
        (6, input.trouble()),
        (8, site.link_trouble()),
        (8, crew.trouble()),
        (8, dial.trouble()),
    ];
    // Behind a file that was begun in the output nothing is told.
    if output.has_failure()
        && let Some(trouble) = trouble_of(status, &troubles)
    {
        let _ = tell(rt.alloc(), &mut output, trouble);
    }
    status
}
