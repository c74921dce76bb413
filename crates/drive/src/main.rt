// Drives whole transactions through the calls, a line a question: fifteen numbers in hex, and the script's bytes in two digits each, with
// one space between them.
//
//     MODE ADDRESS DEADLINE DURATION START STEP BUSY ROOM SEED SHORT ABANDON ODD ODD ODD ODD SCRIPT
//
// MODE is 0 for the answer, 1 for all that is told and then the answer, 2 for begin alone on each script of three bytes that starts as
// SCRIPT does. DEADLINE is 0 for none, 1 for fixed, 2 for per byte. ROOM is at most 4,096. `plan` says what the others mean.
//
// An answer is a line of sixteen hex digits: two for the number of the last call's answer, one for its reason, three for how many lists
// were handed out, and ten for a digest of all that was told. The answers in `stdout` are the Rust original's.
#![tactic(auto)]

ghost use Rattle.std.specs.Prelude.{◌<◌};

use arrayvec::ArrayVec;
use plan::{Mode, Numbers, Plan};
use std::io::{self, Read, Write};

mod calls;
mod plan;
mod told;

// The longest script that is answered.
const SCRIPT: usize = 4352;

// What a line has said so far: its numbers, how many of them have ended, and the number at hand; the script, and the first digit of its
// next byte.
// Kept: an array with `ended` beside it: a number that a line does not say is that of the lines before.
#[derive(Drop)]
struct Question {
    numbers: Numbers,
    ended: usize,
    number: u64,
    script: ArrayVec<u8, SCRIPT>,
    high: Option<u8>,
}

// The value of a hex digit, and 0 of anything else.
// Kept: `to_digit` gives uppercase letters values too. `replay` has the same function, since programs share no code but libraries'.
fn digit(b: u8) -> u8
    ensures { result < 16 }
{
    match b {
        b'0'..=b'9' => b - b'0',
        b'a'..=b'f' => b - b'a' + 10,
        _ => 0,
    }
}

impl Question {
    // A digit of the script. Bytes for which there is no room are lost.
    fn take_digit(&mut self, value: u8) {
        match self.high.take() {
            None => self.high = Some(value),
            Some(high) => {
                let _ = self.script.try_push(high % 16 * 16 + value % 16);
            }
        }
    }

    // A byte of a line, but its end.
    fn take(&mut self, b: u8) {
        let Some(number) = self.numbers.get_mut(self.ended) else {
            self.take_digit(digit(b));
            return;
        };
        if b == b' ' {
            *number = self.number;
            self.ended += 1;
            self.number = 0;
        } else {
            self.number = self.number % 0x1000_0000_0000_0000 * 16 + u64::from(digit(b));
        }
    }

    fn answer(&self, out: &mut impl Write) -> io::Result<()> {
        let plan = Plan::from(self.numbers);
        let script = self.script.as_slice();
        match (plan.mode, script.first()) {
            (Mode::Starts, None) => Ok(()),
            (Mode::Starts, Some(first)) => calls::answer_starts(out, &plan, *first),
            (Mode::Answer | Mode::Aloud, _) => calls::answer(out, &plan, script),
        }
    }

    // The line is over.
    fn restart(&mut self) {
        self.ended = 0;
        self.number = 0;
        self.script.clear();
        self.high = None;
    }
}

fn answer_all(out: &mut impl Write, question: &mut Question, text: &[u8]) -> io::Result<()> {
    for b in text {
        if *b == b'\n' {
            question.answer(out)?;
            question.restart();
        } else {
            question.take(*b);
        }
    }
    Ok(())
}

fn main(rt: HostRuntime) -> io::Result<()> {
    let mut input = rt.stdin();
    let mut out = rt.stdout();
    let mut question = Question {
        numbers: [0; 15],
        ended: 0,
        number: 0,
        script: ArrayVec::new(),
        high: None,
    };
    let mut text = [0; 65536];
    for _ in 0..u64::MAX {
        let n = input.read(&mut text)?;
        if n == 0 {
            break;
        }
        answer_all(&mut out, &mut question, &text[..n])?;
    }
    Ok(())
}
