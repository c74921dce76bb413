// Questions to the bus clear.
ghost use Rattle.std.specs.Prelude.{◌<◌};

use bus_clear::run::{Ending, Tape, Terms};
use bus_clear::{Answer, BusClear, Pins, State};

fn state_of(kind: u64, n: u8, high: bool) -> State {
    match kind {
        0 => State::Idle,
        1 => State::SendStop,
        _ => State::SendClock(n, high),
    }
}

// The kind of a state times 65536, its clocks times 256, and 1 where SCL is high.
fn state_number(state: State) -> u64
    ensures { result < 262144 }
{
    match state {
        State::Idle => 0,
        State::SendStop => 65536,
        State::SendClock(n, high) => 131072 + u64::from(n) * 256 + u64::from(high),
    }
}

// The changes in order, a hex digit each: 1 SCL low, 2 SCL high, 3 SDA low, 4 SDA high.
fn pins_number(pins: Pins) -> u64
    ensures { result < 256 }
{
    let mut number = 0u8;
    for change in pins.bytes() {
        number = number % 16 * 16 + *change % 15 + 1;
    }
    u64::from(number)
}

// 0 for ready, 256 and the changes for pending, 3328 (13 times 256) for a time sum that exceeds 64 bits.
fn answer_number(answer: Answer) -> u64
    ensures { result < 4096 }
{
    match answer {
        Answer::Ready => 0,
        Answer::Pending(pins) => 256 + pins_number(pins),
        Answer::ClockRange => 13 * 256,
    }
}

// a KIND N HIGH WAIT PINS NOW SDA PART: one step from this record. Part 0: the answer times 262144, and the state; part 1: the wait.
pub(super) fn stepped(fields: &[u64; 16]) -> u64 {
    let [_, kind, n, high, wait, pins, now, sda, part, ..] = *fields;
    let state = state_of(kind, (n % 256) as u8, high == 1);
    let stepped = bus_clear::step(BusClear { state, wait }, pins == 1, now, sda == 1);
    if part == 1 {
        return stepped.next.wait;
    }
    answer_number(stepped.answer) * 262144 + state_number(stepped.next.state)
}

// The next of a row of numbers below 2^31.
fn drawn(seed: u64) -> u64
    ensures { result < 2147483648 }
{
    (seed % 2147483648 * 1103515245 + 12345) % 2147483648
}

// Samples from a seed: clocks 0 to 11 apart from the start on, SDA high one time in `rare`.
fn sample(clocks: &mut [u64; 64], levels: &mut [u8; 64], seed: u64, start: u64, rare: u64) {
    let mut last = seed;
    let mut time = start;
    for (clock, level) in clocks.iter_mut().zip(levels) {
        last = drawn(last);
        time = (time % 0x1_0000_0000 + last / 65536 % 12) % 0x1_0000_0000;
        *clock = time;
        last = drawn(last);
        *level = u8::from(last / 65536 % (rare % 256 + 1) == 0);
    }
}

fn ending_number(ending: Option<Ending>) -> u64
    ensures { result < 6 }
{
    match ending {
        None => 0,
        Some(Ending::Ready) => 1,
        Some(Ending::GivenUp) => 2,
        Some(Ending::Spent) => 3,
        Some(Ending::TapeOver) => 4,
        Some(Ending::ClockRange) => 5,
    }
}

// The changes in one number: at each, the number so far times 5, the change's byte and 1, modulo 2^40.
fn digest(changes: &[u8]) -> u64 {
    let mut sum = 0u64;
    for change in changes {
        sum = (sum % 0x100_0000_0000 * 5 + u64::from(*change) + 1) % 0x100_0000_0000;
    }
    sum
}

// b SEED START RARE LENGTH BUDGET LIMIT PINS RESET WAIT PART: a run over the first samples of a tape, from nine clocks to come (or Idle,
// without pins) and this wait. Part 0: the ending times 2^32, the polls times 2, and 1 where a reset is asked for; part 1: the changes.
pub(super) fn ran(fields: &[u64; 16]) -> u64 {
    let [
        _,
        seed,
        start,
        rare,
        length,
        budget,
        limit,
        pins,
        reset,
        wait,
        part,
        ..
    ] = *fields;
    let pins = pins == 1;
    let length = (length % 65) as usize;
    let terms = Terms {
        pins,
        reset: reset == 1,
        start: start % 0x1_0000_0000,
        limit,
        budget: budget as usize,
    };
    let mut clocks = [0; 64];
    let mut levels = [0; 64];
    sample(&mut clocks, &mut levels, seed, start, rare);
    let tape = Tape {
        clocks: &clocks[..length],
        levels: &levels[..length],
    };
    let mut changes = [0; 160];
    let begun = bus_clear::fresh(pins, wait);
    let report = bus_clear::run::run(begun.clear, terms, tape, &mut changes);
    if part == 1 {
        return digest(&changes[..report.changes]);
    }
    let polls = report.polls as u64;
    ending_number(report.answer) * 0x1_0000_0000 + polls % 0x1000_0000 * 2 + u64::from(report.reset)
}
