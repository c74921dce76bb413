// The clear step: ready (0) and pending (255) before its wait come before 13. A run: polls spent before the tape's end, ready before
// giving up, and 13 before giving up.
use crate::print::print_answer;
use bus_clear::run::{Ending, Tape, Terms};
use bus_clear::{Answer, BusClear, State};
use std::io::{self, Write};

// Kept: no `Numbered`, which a program cannot give to another crate's type, and `bus_clear` knows no refusals.
fn number(answer: Answer) -> u8 {
    match answer {
        Answer::Ready => 0,
        Answer::Pending(_) => 255,
        Answer::ClockRange => 13,
    }
}

fn step_row(
    out: &mut impl Write,
    pair: &str,
    state: State,
    wait: u64,
    time: u64,
) -> io::Result<()> {
    let before = BusClear { state, wait };
    let stepped = bus_clear::step(before, true, time, true);
    print_answer(out, "clear step", pair, number(stepped.answer))?;
    if stepped.next == before {
        writeln!(out, ", record kept")
    } else {
        writeln!(out, ", record changed")
    }
}

fn ending_name(ending: Option<Ending>) -> &'static str {
    match ending {
        None => "no room",
        Some(Ending::Ready) => "ready",
        Some(Ending::GivenUp) => "given up",
        Some(Ending::Spent) => "polls spent",
        Some(Ending::TapeOver) => "tape over",
        Some(Ending::ClockRange) => "clock range",
    }
}

// A run over one sample, with SDA high, or over none; it gives up at once.
fn run_row(
    out: &mut impl Write,
    pair: &str,
    state: State,
    budget: usize,
    tape: Tape<'_>,
) -> io::Result<()> {
    let terms = Terms {
        pins: true,
        reset: false,
        start: 0,
        limit: 0,
        budget,
    };
    let report = bus_clear::run::run(BusClear { state, wait: 0 }, terms, tape, &mut [0; 16]);
    let ending = ending_name(report.answer);
    writeln!(out, "clear run: {pair}: {ending}")
}

pub(super) fn rows(out: &mut impl Write) -> io::Result<()> {
    let clocking = State::SendClock(9, false);
    step_row(out, "ready before 13", State::Idle, u64::MAX, u64::MAX)?;
    step_row(
        out,
        "pending (before its wait) before 13",
        clocking,
        u64::MAX,
        u64::MAX - 1,
    )?;
    step_row(out, "13 before the pins move", clocking, 0, u64::MAX - 4)?;
    let empty = Tape {
        clocks: &[],
        levels: &[],
    };
    let early = Tape {
        clocks: &[10],
        levels: &[1],
    };
    let late = Tape {
        clocks: &[u64::MAX],
        levels: &[1],
    };
    run_row(out, "polls spent before tape over", State::Idle, 0, empty)?;
    run_row(out, "ready before given up", State::Idle, 1, early)?;
    run_row(out, "13 before given up", clocking, 1, late)
}
