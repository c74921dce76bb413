// The controller's phases, and its rule for each command. The inspector and the model walk a list by these rules.
#![tactic(auto)]

ghost use Rattle.std.specs.Prelude.{◌≡◌};
ghost use Rattle.controller.specs.Rules.{is_read, may_start, may_write, after_write, may_read, may_stop, may_end};
ghost use Rattle.controller.specs.Model.{phase_number, phase_numbered};
ghost use Rattle.controller.specs.Names.{phase_name};

mod filled;
pub mod inspector;
pub mod model;
mod place;

// The bytes of the FIFO, and the bytes that one list may receive.
const FIFO: usize = 32;

// What the controller is in the middle of.
#[derive(Clone, Copy)]
pub enum Phase {
    Idle,
    Started,
    Writing,
    Reading,
    ReadDone,
}

impl From<Phase> for u8 {
    ghost from_gives = { λ phase number. number ≡ phase_number phase };

    fn from(phase: Phase) -> u8 {
        phase as u8
    }
}

impl Phase {
    // Its name as text.
    pub fn name(self) -> &'static str
        ensures { result.now ≡ phase_name self }
    {
        match self {
            Phase::Idle => "Idle",
            Phase::Started => "Started",
            Phase::Writing => "Writing",
            Phase::Reading => "Reading",
            Phase::ReadDone => "ReadDone",
        }
    }

    // The phase of this number.
    // Kept: by name; as a TryFrom it would need an error type that says no more than None.
    fn numbered(number: u32) -> Option<Phase>
        ensures { result ≡ phase_numbered number }
    {
        match number {
            0 => Some(Phase::Idle),
            1 => Some(Phase::Started),
            2 => Some(Phase::Writing),
            3 => Some(Phase::Reading),
            4 => Some(Phase::ReadDone),
            _ => None,
        }
    }

    fn may_start(self) -> bool
        ensures { result ≡ may_start self }
    {
        matches!(self, Phase::Idle | Phase::Writing | Phase::ReadDone)
    }

    // A read's address byte stands alone.
    fn may_write(self, n: usize, first: u8) -> bool
        ensures { result ≡ may_write n first self }
    {
        match self {
            Phase::Started if is_read(first) => n == 1,
            Phase::Started | Phase::Writing => true,
            _ => false,
        }
    }

    fn after_write(self, first: u8) -> Phase
        ensures { result ≡ after_write first self }
    {
        match self {
            Phase::Started if is_read(first) => Phase::Reading,
            Phase::Started => Phase::Writing,
            _ => self,
        }
    }

    fn may_read(self) -> bool
        ensures { result ≡ may_read self }
    {
        matches!(self, Phase::Reading)
    }

    fn may_stop(self) -> bool
        ensures { result ≡ may_stop self }
    {
        matches!(self, Phase::Writing | Phase::ReadDone)
    }

    fn may_end(self) -> bool
        ensures { result ≡ may_end self }
    {
        matches!(self, Phase::Writing | Phase::Reading | Phase::ReadDone)
    }
}

// The low bit of the address byte: 1 asks the sensor to send.
fn is_read(first: u8) -> bool
    ensures { result ≡ is_read first }
{
    first % 2 == 1
}

// A list, of whatever origin: its command words, and the bytes in its FIFO.
#[derive(Clone, Copy)]
pub struct Commands<'a> {
    pub words: [u32; 8],
    pub fifo: &'a [u8],
}
