// The places of a list, and what each command comes to at one.
ghost use Rattle.std.specs.Prelude.{◌≤◌, length};

use crate::{FIFO, Phase};
use command::Command;

// Where a list stands: the phase, the FIFO bytes that are left, and how many bytes were received in this list.
#[derive(Clone, Copy)]
pub(crate) struct Place<'a> {
    phase: Phase,
    fifo: &'a [u8],
    received: usize,
    ghost within: { (length fifo.now ≤ 32) × (received ≤ 32) },
}

// What a command comes to.
// Kept: three cases in one, as definition `Effect` has them.
#[derive(Drop)]
pub(crate) enum Move<'a> {
    Halts,
    GoesOn(Place<'a>),
    Finishes(Phase),
}

impl<'a> Place<'a> {
    ghost use Rattle.std.specs.Prelude.{◌≡◌, ◌≤◌, take};
    ghost use Rattle.controller.specs.Rules.{read_turn, closes, effect_of};
    ghost use Rattle.controller.specs.Places.{state_at, Begins, Moved};
    ghost use Rattle.command.specs.declared.Command.TheVariants.{Start, Write};

    // The first of a list, unless there are more bytes than the FIFO has room for.
    pub(crate) fn first(fifo: &'a [u8], phase: Phase) -> Option<Place<'a>>
        ensures { Begins 32 fifo.now phase result }
    {
        if fifo.len() > FIFO {
            return None;
        }
        Some(Place {
            phase,
            fifo,
            received: 0,
        })
    }

    // The next bytes of the FIFO.
    pub(crate) fn next(self, n: usize) -> &'a [u8]
        requires { n ≤ length self.fifo.now }
        ensures { result.now ≡ take n (state_at self.entry).fifo }
    {
        &self.fifo[..n]
    }

    // What a command comes to here.
    #[tactic(auto, unfolding(crate::specs::Rules::effect_of))]
    pub(crate) fn take_turn(self, command: Command) -> Move<'a>
        ensures { Moved result (effect_of 32 command (state_at self.entry)) }
    {
        match command {
            Command::Start => self.start(),
            Command::Write(n) => self.write(n),
            Command::Read(n) => self.receive(n, Phase::Reading),
            Command::ReadNack => self.receive(1, Phase::ReadDone),
            Command::Stop => self.close(self.phase.may_stop(), Phase::Idle),
            Command::End => self.close(self.phase.may_end(), self.phase),
        }
    }

    // Kept: fields copied by name. A ghost field bars `..self`, and `self.phase = ..` copies padding, which slowed the inspector fourfold.
    #[tactic(auto, unfolding(crate::specs::Rules::effect_of))]
    fn start(self) -> Move<'a>
        ensures { Moved result (effect_of 32 Start (state_at self.entry)) }
    {
        if !self.phase.may_start() {
            return Move::Halts;
        }
        Move::GoesOn(Place {
            phase: Phase::Started,
            fifo: self.fifo,
            received: self.received,
        })
    }

    #[tactic(auto, unfolding(crate::specs::Rules::effect_of))]
    fn write(self, n: u8) -> Move<'a>
        ensures { Moved result (effect_of 32 (Write n) (state_at self.entry)) }
    {
        let count = n as usize;
        let first = self.fifo.first().copied().unwrap_or(0);
        if self.fifo.len() < count || !self.phase.may_write(count, first) {
            return Move::Halts;
        }
        Move::GoesOn(Place {
            phase: self.phase.after_write(first),
            fifo: &self.fifo[count..],
            received: self.received,
        })
    }

    fn receive(self, n: u8, after: Phase) -> Move<'a>
        ensures { Moved result (read_turn 32 n after (state_at self.entry)) }
    {
        let received = self.received + n as usize;
        if !self.phase.may_read() || received > FIFO {
            return Move::Halts;
        }
        Move::GoesOn(Place {
            phase: after,
            fifo: self.fifo,
            received,
        })
    }

    fn close(self, allowed: bool, after: Phase) -> Move<'a>
        ensures { Moved result (closes allowed after (state_at self.entry)) }
    {
        if allowed && self.fifo.is_empty() {
            Move::Finishes(after)
        } else {
            Move::Halts
        }
    }
}
