// What a transaction shows to its caller, one number after another, and a digest of them.
ghost use Rattle.std.specs.Prelude.{◌<◌};

use outcome::Answer;
use std::io::{self, Write};

#[derive(Drop)]
pub(super) struct Told<'a, W> {
    out: &'a mut W,
    aloud: bool,
    digest: u64,
}

// The largest prime below 2^40.
const PRIME: u64 = 1099511627689;

const FACTOR: u64 = 4194301;

fn mixed(digest: u64, half: u64) -> u64
    ensures { result < 1099511627689 }
{
    (digest % PRIME * FACTOR + half % 0x1_0000_0000 + 1) % PRIME
}

impl<'a, W: Write> Told<'a, W> {
    pub(super) fn nothing(out: &'a mut W, aloud: bool) -> Told<'a, W> {
        Told {
            out,
            aloud,
            digest: 0,
        }
    }

    // The upper half of the number goes into the digest, then the lower one.
    pub(super) fn tell(&mut self, number: u64) -> io::Result<()> {
        if self.aloud {
            write!(self.out, "{number:x} ")?;
        }
        self.digest = mixed(mixed(self.digest, number / 0x1_0000_0000), number);
        Ok(())
    }

    pub(super) fn tell_all<T: Copy + Into<u64>>(&mut self, numbers: &[T]) -> io::Result<()> {
        for number in numbers {
            self.tell((*number).into())?;
        }
        Ok(())
    }

    // The answer's line: the number and the reason of the last answer, how many lists there were, and the digest.
    pub(super) fn print_answer(&mut self, last: &Answer, lists: u64) -> io::Result<()> {
        let reason = u64::from(last.reason % 16);
        let head = u64::from(last.number) * 0x1_0000 + reason * 0x1000 + lists % 0x1000;
        let line = head * 0x100_0000_0000 + self.digest % 0x100_0000_0000;
        writeln!(self.out, "{line:016x}")
    }
}
