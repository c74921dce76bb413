// The bus clear by pins: a sensor that holds SDA low is clocked until it lets go, at most nine times, and then sees a STOP.
#![tactic(auto)]

ghost use Rattle.std.specs.Prelude.{◌≡◌};
ghost use Rattle.bus_clear.specs.Pins.{listed_with, change_bytes};
ghost use Rattle.bus_clear.specs.Clear.{fresh_of, acts, clocks, step_of};

pub mod run;

// The pin changes of a poll, in order; high is released.
#[derive(Clone, Copy)]
pub enum Pins {
    Still,
    SclLow,
    SclHigh,
    SdaHigh,
    SdaLowSclHigh,
    SclHighSdaLow,
    SclLowSdaHigh,
    SclHighSdaHigh,
}

// The bytes of pin changes.
// Kept: numbers by name, as the C interface has them in lent memory.
const SCL_LOW: u8 = 0;

const SCL_HIGH: u8 = 1;

const SDA_LOW: u8 = 2;

const SDA_HIGH: u8 = 3;

impl Pins {
    // A byte for each change, in order.
    pub fn bytes(self) -> &'static [u8]
        ensures { result.now ≡ change_bytes self }
    {
        match self {
            Pins::Still => &[],
            Pins::SclLow => &[SCL_LOW],
            Pins::SclHigh => &[SCL_HIGH],
            Pins::SdaHigh => &[SDA_HIGH],
            Pins::SdaLowSclHigh => &[SDA_LOW, SCL_HIGH],
            Pins::SclHighSdaLow => &[SCL_HIGH, SDA_LOW],
            Pins::SclLowSdaHigh => &[SCL_LOW, SDA_HIGH],
            Pins::SclHighSdaHigh => &[SCL_HIGH, SDA_HIGH],
        }
    }
}

// Pins are changed at the start of a state. SendClock has the number of clocks that are left, and whether SCL is high.
#[derive(Clone, Copy, PartialEq, Eq)]
pub enum State {
    Idle,
    SendStop,
    SendClock(u8, bool),
}

// The state, and the time until which its levels are held.
#[derive(Clone, Copy, PartialEq, Eq)]
pub struct BusClear {
    pub state: State,
    pub wait: u64,
}

// What a poll answers: the bus is free, there is more to do, or a time sum exceeds 64 bits (13).
// Kept: three answers in one, as definition `step_of` has them: this crate knows no refusals, and each caller tells all three apart.
#[derive(Drop)]
pub enum Answer {
    Ready,
    Pending(Pins),
    ClockRange,
}

#[derive(Drop)]
pub struct Stepped {
    pub next: BusClear,
    pub answer: Answer,
}

// A fresh clear, and the pin changes that begin it.
#[derive(Drop)]
pub struct Begun {
    pub clear: BusClear,
    pub pins: Pins,
}

// At most eight data bits are still to come from the sensor, and the NACK.
const CLOCKS: u8 = 9;

// A level is held for half a clock of 100 kHz.
const HOLD: u64 = 5;

pub fn fresh(pins: bool, time: u64) -> Begun
    ensures { result ≡ fresh_of pins time }
{
    let state = if pins {
        State::SendClock(CLOCKS, false)
    } else {
        State::Idle
    };
    Begun {
        clear: BusClear { state, wait: time },
        pins: with_pins(pins, Pins::SclLowSdaHigh),
    }
}

// Without pins there are no changes.
fn with_pins(pins: bool, changes: Pins) -> Pins
    ensures { result ≡ listed_with pins changes }
{
    if pins { changes } else { Pins::Still }
}

impl BusClear {
    // A poll that changes nothing.
    fn stay(self, answer: Answer) -> Stepped
        ensures { result ≡ record { next = self; answer = answer } }
    {
        Stepped { next: self, answer }
    }

    // A poll that changes pins, and holds their levels.
    fn act(self, state: State, time: u64, pins: Pins) -> Stepped
        ensures { result ≡ acts self state time pins }
    {
        match time.checked_add(HOLD) {
            Some(wait) => Stepped {
                next: BusClear { state, wait },
                answer: Answer::Pending(pins),
            },
            None => self.stay(Answer::ClockRange),
        }
    }

    // A half clock whose hold is over.
    fn clock(self, n: u8, high: bool, pins: bool, time: u64, sda: bool) -> Stepped
        ensures { result ≡ clocks self n high pins time sda }
    {
        let (state, changes) = match n {
            _ if high => (State::SendClock(n, false), Pins::SclLow),
            // SDA has to be low for the STOP, whatever it was.
            0 => (State::SendStop, Pins::SdaLowSclHigh),
            // The sensor has let go: on to the STOP.
            _ if pins && sda => (State::SendStop, Pins::SclHighSdaLow),
            _ => (State::SendClock(n - 1, true), Pins::SclHigh),
        };
        self.act(state, time, with_pins(pins, changes))
    }
}

// One poll, by value.
// Kept: pins, time and SDA one by one, as definition `step_of` and the calls for C take them.
#[tactic(auto, unfolding(crate::specs::Clear::step_of))]
pub fn step(c: BusClear, pins: bool, time: u64, sda: bool) -> Stepped
    ensures { result ≡ step_of c pins time sda }
{
    match c.state {
        State::Idle if pins && !sda => c.stay(Answer::Pending(Pins::Still)),
        State::Idle => c.stay(Answer::Ready),
        _ if time < c.wait => c.stay(Answer::Pending(Pins::Still)),
        State::SendStop => Stepped {
            next: BusClear {
                state: State::Idle,
                ..c
            },
            answer: Answer::Pending(with_pins(pins, Pins::SdaHigh)),
        },
        State::SendClock(n, high) => c.clock(n, high, pins, time, sda),
    }
}

// One poll of a record that is lent: it is changed in place.
pub fn poll_completion(c: &mut BusClear, pins: bool, time: u64, sda: bool) -> Answer
    ensures { (result ≡ (step_of c.old pins time sda).answer) × (c.new ≡ (step_of c.old pins time sda).next) }
{
    let s = step(*c, pins, time, sda);
    *c = s.next;
    s.answer
}
