// A run of the bus clear over a tape of samples.
ghost use Rattle.std.specs.Prelude.{◌≡◌, ◌≤◌, length};
ghost use Rattle.std.proofs.Math.Seq.{paste};
ghost use Rattle.sitankulo.specs.Answers.{told};
ghost use Rattle.sitankulo.specs.ClearLayout.{decoded_of};
ghost use Rattle.sitankulo.specs.ClearRuns.{ending_number, terms_of, report_bytes, run_call, RunLeft};

use crate::{answer, clear_layout};
use bus_clear::run;
use bus_clear::run::{Ending, Tape, Terms};
use refusal::Refusal;

// The bytes of a report, and where its parts stand.
const REPORT: usize = 17;

const CHANGES_AT: usize = 8;

const RESET_AT: usize = 16;

// Kept: the C interface's numbers, by a match: neither type is of this crate, so it has no From.
fn ending_number(ending: Ending) -> u32
    ensures { result ≡ ending_number ending }
{
    match ending {
        Ending::Ready => 0,
        Ending::GivenUp => 249,
        Ending::Spent => 250,
        Ending::TapeOver => 251,
        Ending::ClockRange => 252,
    }
}

// Lays a report into the memory.
fn put_report(polls: usize, changes: usize, reset: bool, memory: &mut [u8])
    requires { 17 ≤ length memory.old }
    ensures { memory.new ≡ paste memory.old 0 (report_bytes polls changes reset) 17 }
{
    wire::put_time(polls as u64, 0, memory);
    wire::put_time(changes as u64, CHANGES_AT, memory);
    memory[RESET_AT] = u8::from(reset);
}

// Runs the clear in the lent memory.
fn run_clear(
    clear: &mut [u8],
    terms: Terms,
    tape: Tape<'_>,
    changes: &mut [u8],
    report: &mut [u8],
) -> Result<u32, Refusal>
    ensures { RunLeft terms
        (run_call (decoded_of clear.old) terms tape.entry.clocks.now tape.entry.levels.now changes.old report.old)
        (told result) clear.old clear.new changes.old changes.new report.old report.new }
{
    let held = clear_layout::decode(clear).ok_or(Refusal::Shape)?;
    if report.len() < REPORT {
        return Err(Refusal::Room);
    }
    let ran = run::run(held, terms, tape, changes);
    let ending = ran.answer.ok_or(Refusal::Room)?;
    clear_layout::put_clear(ran.clear, clear);
    put_report(ran.polls, ran.changes, ran.reset, report);
    Ok(ending_number(ending))
}

// Polls over a tape.
pub fn sitankulo_clear_run(
    clear: &mut [u8],
    pins: u8,
    reset: u8,
    start: u64,
    limit: u64,
    budget: usize,
    clocks: &[u64],
    levels: &[u8],
    changes: &mut [u8],
    report: &mut [u8],
) -> u32
    ensures { RunLeft (terms_of pins reset start limit budget)
        (run_call (decoded_of clear.old) (terms_of pins reset start limit budget) clocks.now levels.now changes.old report.old)
        result clear.old clear.new changes.old changes.new report.old report.new }
{
    let terms = Terms {
        pins: pins != 0,
        reset: reset != 0,
        start,
        limit,
        budget,
    };
    answer::told(run_clear(clear, terms, Tape { clocks, levels }, changes, report))
}
