// A run of the bus clear over a tape of samples.
ghost use Rattle.std.specs.Prelude.{◌+◌, ◌*◌, ◌≤◌, ◌≡◌, ◌&&◌, length};
ghost use Rattle.std.proofs.lemmas.List.Edits.{sets};
ghost use Rattle.bus_clear.specs.Pins.{changes_of, change_bytes};
ghost use Rattle.bus_clear.specs.Runs.{tape_of, exceeded, polled_over, counted_of, made_in, run_report, Laid, laid};

use crate::{Answer, BusClear, Pins};

// How a run over a tape ends.
#[derive(Drop)]
pub enum Ending {
    Ready,
    GivenUp,
    Spent,
    TapeOver,
    ClockRange,
}

// What the caller sets: whether there are pins, whether a reset is asked for, the time at which clearing started, how long it may
// take, and how many polls it may take.
#[derive(Clone, Copy)]
pub struct Terms {
    pub pins: bool,
    pub reset: bool,
    pub start: u64,
    pub limit: u64,
    pub budget: usize,
}

impl Terms {
    // Strictly more than the limit has passed since the start; a clock behind its start has elapsed 0.
    fn is_exceeded(self, time: u64) -> bool
        ensures { result ≡ exceeded self time }
    {
        self.limit < time.saturating_sub(self.start)
    }

    fn asks_reset(self) -> bool
        ensures { result ≡ self.pins && self.reset }
    {
        self.pins && self.reset
    }
}

// The samples of a run, as lent: clock readings, and a byte each for SDA, 0 where it is low.
// Kept: two slices beside each other, as the C interface lends them.
#[derive(Clone, Copy)]
pub struct Tape<'a> {
    pub clocks: &'a [u64],
    pub levels: &'a [u8],
}

// Kept: numbers beside an answer that may be none, as definition `run_roomless` has them.
// What is reported of a run: how it ended, unless there is too little room in the lent memory (7), the polls taken, the record that the
// last poll left, how many pin changes there were, the release at the end included, and whether a reset is to follow them.
#[derive(Drop)]
pub struct Report {
    pub answer: Option<Ending>,
    pub polls: usize,
    pub clear: BusClear,
    pub changes: usize,
    pub reset: bool,
}

// How the polling of a tape went: how it ended, how many polls were taken, what the last left, and how many pin changes there were.
#[derive(Drop)]
struct Polls {
    ending: Ending,
    polls: usize,
    clear: BusClear,
    changes: usize,
}

// Polls until the bus is free, the limit is exceeded, the budget is spent or the tape is over.
fn poll_tape(c: BusClear, t: Terms, tape: Tape<'_>) -> Polls
    ensures { result ≡ counted_of (polled_over t tape.entry.clocks.now tape.entry.levels.now c) }
{
    let mut clear = c;
    let mut polls: usize = 0;
    let mut changes: usize = 0;
    let ending = 'run: {
        for (time, level) in tape.clocks.iter().zip(tape.levels).take(t.budget) {
            let s = crate::step(clear, t.pins, *time, *level != 0);
            match s.answer {
                Answer::ClockRange => break 'run Ending::ClockRange,
                Answer::Ready => {
                    clear = s.next;
                    polls += 1;
                    break 'run Ending::Ready;
                }
                Answer::Pending(made) => {
                    clear = s.next;
                    polls += 1;
                    changes += made.bytes().len();
                    if t.is_exceeded(*time) {
                        break 'run Ending::GivenUp;
                    }
                }
            }
        }
        if polls == t.budget {
            break 'run Ending::Spent;
        }
        Ending::TapeOver
    };
    Polls {
        ending,
        polls,
        clear,
        changes,
    }
}

// Lays the changes of one poll into the memory, and answers where the next ones go.
// Kept: one by one. By `copy_from_slice` a poll that waits takes half as much again, and the library for C needs `memmove`.
fn lay(pins: Pins, memory: &mut [u8], at: usize) -> usize
    requires { at + length (changes_of pins) ≤ length memory.old }
    ensures { (result ≡ at + length (changes_of pins)) × (memory.new ≡ sets memory.old at (change_bytes pins)) }
{
    match *pins.bytes() {
        [] => at,
        [only] => {
            memory[at] = only;
            at + 1
        }
        [first, second, ..] => {
            memory[at] = first;
            memory[at + 1] = second;
            at + 2
        }
    }
}

// Polls once more, as often as the run did, and lays the pin changes into the memory: it is known by now that there is room.
fn lay_all(c: BusClear, pins: bool, tape: Tape<'_>, polls: usize, memory: &mut [u8]) -> usize
    requires polls_in_bounds { (polls ≤ length tape.clocks.now) × (polls ≤ length tape.levels.now) }
    requires c_in_bounds { length (made_in pins polls (tape_of tape.clocks.now tape.levels.now) c) ≤ length memory.old }
    ensures { Laid result memory.old memory.new (made_in pins polls (tape_of tape.entry.clocks.now tape.entry.levels.now) c) }
{
    let mut clear = c;
    let mut at: usize = 0;
    for (time, level) in tape.clocks.iter().zip(tape.levels).take(polls) {
        let s = crate::step(clear, pins, *time, *level != 0);
        clear = s.next;
        if let Answer::Pending(made) = s.answer {
            at = lay(made, memory, at);
        }
    }
    at
}

// Polls over the tape, and reports the whole run. Its pin changes are laid into the memory, a byte each.
pub fn run(c: BusClear, t: Terms, tape: Tape<'_>, memory: &mut [u8]) -> Report
    ensures value { result ≡ run_report t c (polled_over t tape.entry.clocks.now tape.entry.levels.now c) (length memory.old) }
    ensures memory_after { memory.new ≡ laid t (polled_over t tape.entry.clocks.now tape.entry.levels.now c) memory.old }
{
    let p = poll_tape(c, t, tape);
    let release = crate::with_pins(t.pins, Pins::SclHighSdaHigh);
    if memory.len() < p.changes + release.bytes().len() {
        return Report {
            answer: None,
            polls: 0,
            clear: c,
            changes: 0,
            reset: false,
        };
    }
    let at = lay_all(c, t.pins, tape, p.polls, memory);
    let changes = lay(release, memory, at);
    Report {
        answer: Some(p.ending),
        polls: p.polls,
        clear: p.clear,
        changes,
        reset: t.asks_reset(),
    }
}
