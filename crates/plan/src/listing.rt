// A list in words.
use crate::{refusals, words};
use arrayvec::ArrayVec;
use controller::{Commands, inspector};
use outcome::Due;
use refusal::Refusal;
use std::io;
use std::io::Write;

// No phase has this number.
// Kept: a number, since `inspect` and `run` promise any number of a phase, and a list after a refused one comes in none.
const NONE: u32 = 5;

// No line of a FIFO's bytes is longer.
const LONGEST: usize = 128;

// The line goes out by one write.
fn print_fifo(out: &mut impl Write, bytes: &[u8]) -> io::Result<()> {
    let mut line: ArrayVec<u8, LONGEST> = ArrayVec::new();
    write!(line, "  FIFO      ")?;
    if bytes.is_empty() {
        write!(line, " nothing")?;
    }
    for byte in bytes {
        write!(line, " {byte:02X}")?;
    }
    writeln!(line)?;
    out.write_all(line.as_slice())
}

fn print_due(out: &mut impl Write, due: Due) -> io::Result<()> {
    match due {
        None => writeln!(out, "  due        never"),
        Some(time) => writeln!(out, "  due        {time} us"),
    }
}

pub(super) fn print_heading(out: &mut impl Write, number: usize) -> io::Result<()> {
    writeln!(out, "\nlist {number}")
}

// Prints a list that comes in a phase, and answers the phase that it leaves.
pub(super) fn print_list(
    out: &mut impl Write,
    number: usize,
    list: Commands<'_>,
    due: Due,
    phase: u32,
) -> io::Result<u32> {
    print_heading(out, number)?;
    write!(out, "  words      ")?;
    words::print_words(out, list.words)?;
    writeln!(out)?;
    print_fifo(out, list.fifo)?;
    print_due(out, due)?;
    write!(out, "  inspector  ")?;
    match inspector::inspect(list, phase) {
        Some(after) => {
            writeln!(out, "passes, leaves {}", after.name())?;
            Ok(u32::from(u8::from(after)))
        }
        None => {
            refusals::print_name(out, Refusal::ListRefused)?;
            Ok(NONE)
        }
    }
}
