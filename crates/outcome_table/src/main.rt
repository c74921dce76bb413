// Prints what each of the 256 combinations of a snapshot's bits means: a line a combination. The clock reads 1000; the
// deadlines are none, one that lies ahead, one that is reached and one that is past. In a line stand the bits in hex, then a letter
// each for the error check; the poll at the four deadlines; the command check, with all commands done and with one that waits, at
// the four; and the two together, with the poll to come and with the poll behind, in the same order.
#![tactic(auto)]

use arrayvec::ArrayVec;
use outcome::{Due, Error, Outcome, Reason, Snapshot};
use std::io::{self, Write};

// START, WRITE 2, END: executed, and with the WRITE not yet done.
const DONE: [u32; 8] = [0x8000_3000, 0x8000_0902, 0x2000, 0, 0, 0, 0, 0];

const WAITING: [u32; 8] = [0x8000_3000, 0x0902, 0x2000, 0, 0, 0, 0, 0];

const DEADLINES: [Due; 4] = [None, Some(1001), Some(1000), Some(999)];

// The bytes of a line, which goes out by one write.
const LINE: usize = 36;

fn letter(outcome: Outcome) -> u8 {
    match outcome {
        Outcome::Done => b'.',
        Outcome::Pending => b'?',
        Outcome::Failed(Error::ExecutionIncomplete) => b'I',
        Outcome::Failed(Error::AcknowledgeCheckFailed(Reason::Address)) => b'A',
        Outcome::Failed(Error::AcknowledgeCheckFailed(Reason::Data)) => b'D',
        Outcome::Failed(Error::AcknowledgeCheckFailed(Reason::Unknown)) => b'U',
        Outcome::Failed(Error::ArbitrationLost) => b'L',
        Outcome::Failed(Error::Timeout) => b'T',
    }
}

fn classified(s: Snapshot, polled: bool, due: Due) -> u8 {
    letter(outcome::classify(s, polled, due).outcome)
}

// The letters of a line, behind its bits.
fn fill(line: &mut [u8; 34], bits: u8) {
    let done = outcome::unpack(bits, DONE, 1000);
    let waiting = outcome::unpack(bits, WAITING, 1000);
    line[1] = letter(outcome::check_errors(done));
    for (k, due) in DEADLINES.into_iter().enumerate() {
        line[3 + k] = letter(outcome::poll_completion(done, due));
        line[8 + k] = letter(outcome::all_commands_done(done, due));
        line[12 + k] = letter(outcome::all_commands_done(waiting, due));
        line[17 + k] = classified(done, false, due);
        line[21 + k] = classified(waiting, false, due);
        line[25 + k] = classified(done, true, due);
        line[29 + k] = classified(waiting, true, due);
    }
}

fn main(rt: HostRuntime) -> io::Result<()> {
    let mut out = rt.stdout();
    for bits in 0..=u8::MAX {
        let mut letters = [b' '; 34];
        letters[33] = b'\n';
        fill(&mut letters, bits);
        let mut line: ArrayVec<u8, LINE> = ArrayVec::new();
        write!(line, "{bits:02x}")?;
        line.write_all(&letters)?;
        out.write_all(line.as_slice())?;
    }
    Ok(())
}
