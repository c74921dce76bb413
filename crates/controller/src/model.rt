// The model in code: runs a list against a sensor, and reports what went over the bus.
ghost use Rattle.std.specs.Prelude.{◌≡◌, ◌+◌, ◌*◌, ◌/◌, ◌≤◌, ◌<◌, length, drop};
ghost use Rattle.bus.specs.Events.{Acknowledge};
ghost use Rattle.bus.specs.Traffic.{next_byte};
ghost use Rattle.controller.specs.Places.{state_at};
ghost use Rattle.controller.specs.Model.{put, get, obey};
ghost use Rattle.controller.specs.Traces.{run_of, Reported, got_kind};
ghost use Rattle.controller.specs.Tracing.{kind_number, blank_trace, noted, stored, ending_in, left_in, Within, ComesTo, ended, traced, received_by, events_by, Fits};

use crate::filled::Filled;
use crate::place::{Move, Place};
use crate::{Commands, Phase};
use command::Command;

// Kept: three endings in one, as definition `ending_of` has them; a run under way holds `Result<Phase, Ending>`.
// How a run ends: the controller is stuck, the sensor has refused a byte, or the list has finished in a phase.
#[derive(Drop)]
pub enum Ending {
    Stuck,
    Refused,
    Finished(Phase),
}

// A sensor: the bytes that it sends, and the number of the written byte that it refuses (0: none).
#[derive(Clone, Copy)]
pub struct Sensor<'a> {
    pub sends: &'a [u8],
    pub refuses: usize,
}

// Kept: numbers beside an answer that may be none, as definition `trace_roomless` has them.
// What a run gives: how it ended, unless there is too little room in a lent output (7), how many bytes were received, how many events
// there were, and what is left of the count to the byte that the sensor refuses.
#[derive(Drop)]
pub struct Report {
    pub answer: Option<Ending>,
    pub received: usize,
    pub events: usize,
    pub refuses: usize,
}

// What an event is, as a lent output has it: a START, a STOP, or a byte with its acknowledge bit.
#[derive(Clone, Copy)]
enum Kind {
    Start = 0,
    Stop = 1,
    Sent = 2,
    SentRefused = 3,
    Got = 4,
    GotLast = 5,
}

// What went over the bus, two bytes an event, and the bytes received. Eight words, 32 FIFO bytes and 32 received bytes cause at
// most 72 events.
#[derive(Drop)]
struct Trace {
    events: Filled<144>,
    received: Filled<32>,
}

// A run under way: what went over the bus, and what is left of the sensor.
#[derive(Drop)]
struct Bench<'a> {
    trace: Trace,
    sensor: Sensor<'a>,
}

// Where nobody pulls SDA low, a byte reads so.
const RELEASED: u8 = 255;

impl Sensor<'_> {
    // The next byte that it sends, if it has one.
    #[tactic(auto, unfolding(bus::specs::Traffic::next_byte))]
    fn send(&mut self) -> u8
        ensures byte { result ≡ next_byte self.old.sends.now }
        ensures sends { self.new.sends.now ≡ drop 1 self.old.sends.now }
        ensures refuses { self.new.refuses ≡ self.old.refuses }
    {
        match self.sends {
            [] => RELEASED,
            [byte, rest @ ..] => {
                self.sends = rest;
                *byte
            }
        }
    }
}

impl Trace {
    // Nothing has gone over the bus yet.
    fn new() -> Trace
        ensures { result ≡ blank_trace }
    {
        Trace {
            events: Filled::new(),
            received: Filled::new(),
        }
    }

    // One event more.
    fn note(&mut self, kind: Kind, byte: u8)
        requires { length self.old.events + 2 ≤ 144 }
        ensures { self.new ≡ noted self.old (kind_number kind) byte }
    {
        self.events.push(kind as u8);
        self.events.push(byte);
    }

    // One received byte more.
    fn store(&mut self, byte: u8)
        requires { length self.old.received < 32 }
        ensures { self.new ≡ stored self.old byte }
    {
        self.received.push(byte);
    }
}

impl Bench<'_> {
    // Sends the bytes, up to the one that the sensor refuses.
    fn send(&mut self, bytes: &[u8]) -> Result<(), Ending>
        requires { length self.old.trace.events + 2 * length bytes.now ≤ 144 }
        ensures comes_to { ComesTo self.old (λ k. put bytes.now k.sends k.refuses) result self.new }
        ensures within { Within self.old.trace (length bytes.now) 0 self.new.trace }
    {
        for byte in bytes {
            if self.sensor.refuses == 1 {
                self.trace.note(Kind::SentRefused, *byte);
                return Err(Ending::Refused);
            }
            self.trace.note(Kind::Sent, *byte);
            self.sensor.refuses = self.sensor.refuses.saturating_sub(1);
        }
        Ok(())
    }

    // Receives n bytes as events of this kind.
    fn receive(&mut self, n: u8, kind: Kind)
        requires events { length self.old.trace.events + 2 * n ≤ 144 }
        requires received { length self.old.trace.received + n ≤ 32 }
        ensures comes_to { (a : Acknowledge) → kind_number kind ≡ got_kind a → ComesTo self.old (λ k. get a n k.sends k.refuses) (Ok tt) self.new }
        ensures within { Within self.old.trace n n self.new.trace }
    {
        for _ in 0..n {
            let byte = self.sensor.send();
            self.trace.note(kind, byte);
            self.trace.store(byte);
        }
    }

    // Does on the bus what a command asks for.
    #[tactic(auto, unfolding(crate::specs::Model::obey, crate::specs::Tracing::traced, crate::specs::Tracing::heard_all, crate::specs::Tracing::heard, crate::specs::Model::events_of))]
    fn carry_out(&mut self, command: Command, place: Place<'_>) -> Result<(), Ending>
        requires { Fits (state_at place) command self.old.trace }
        ensures comes_to { ComesTo self.old (obey command (state_at place.entry)) result self.new }
        ensures within { Within self.old.trace (events_by command) (received_by command) self.new.trace }
    {
        match command {
            Command::Start => self.trace.note(Kind::Start, 0),
            Command::Write(n) => self.send(place.next(n as usize))?,
            Command::Read(n) => self.receive(n, Kind::Got),
            Command::ReadNack => self.receive(1, Kind::GotLast),
            Command::Stop => self.trace.note(Kind::Stop, 0),
            Command::End => {}
        }
        Ok(())
    }

    // The words of a list one after another, from the phase of this number on. An error is how the run ended before the list finished.
    // Kept: a walk beside the inspector's. One for both needs a trait with a law for every run, which is longer than the two.
    fn follow(&mut self, list: Commands<'_>, phase: u32) -> Result<Phase, Ending>
        requires { self.old.trace ≡ blank_trace }
        ensures { ended result self.new ≡ traced blank_trace (run_of list.entry.words list.entry.fifo.now phase self.old.sensor.sends.now self.old.sensor.refuses) }
    {
        let from = Phase::numbered(phase).ok_or(Ending::Stuck)?;
        let mut place = Place::first(list.fifo, from).ok_or(Ending::Stuck)?;
        for word in list.words {
            let command = command::decode(word).ok_or(Ending::Stuck)?;
            match place.take_turn(command) {
                Move::Halts => return Err(Ending::Stuck),
                Move::GoesOn(next) => {
                    self.carry_out(command, place)?;
                    place = next;
                }
                Move::Finishes(after) => {
                    self.carry_out(command, place)?;
                    return Ok(after);
                }
            }
        }
        Err(Ending::Stuck)
    }

    // The report of a run that ended so. Stuck or refused, nothing is left for a list that follows.
    fn report(&self, ended: Result<Phase, Ending>) -> Report
        ensures { result ≡ record {
          answer = Some (ending_in ended);
          received = length self.now.trace.received;
          events = length self.now.trace.events / 2;
          refuses = left_in ended self.now;
        } }
    {
        let (ending, refuses) = match ended {
            Ok(after) => (Ending::Finished(after), self.sensor.refuses),
            Err(ending) => (ending, 0),
        };
        Report {
            answer: Some(ending),
            received: self.trace.received.as_slice().len(),
            events: self.trace.events.as_slice().len() / 2,
            refuses,
        }
    }
}

// Runs a list from the phase of this number on, against a sensor. Where either output is too short for what the run gives, nothing is
// written.
pub fn run(
    list: Commands<'_>,
    phase: u32,
    sensor: Sensor<'_>,
    received: &mut [u8],
    events: &mut [u8],
) -> Report
    ensures { Reported (run_of list.entry.words list.entry.fifo.now phase sensor.entry.sends.now sensor.entry.refuses) result received.old received.new events.old events.new }
{
    let mut bench = Bench {
        trace: Trace::new(),
        sensor,
    };
    let ended = bench.follow(list, phase);
    let got = bench.trace.received.as_slice();
    let happened = bench.trace.events.as_slice();
    if received.len() < got.len() || events.len() < happened.len() {
        return Report {
            answer: None,
            received: 0,
            events: 0,
            refuses: 0,
        };
    }
    received[..got.len()].copy_from_slice(got);
    events[..happened.len()].copy_from_slice(happened);
    bench.report(ended)
}
