// The start of each line of the table.
use std::io::{self, Write};

// The call, the two that hold, and the number that the call answered.
pub(super) fn print_answer(
    out: &mut impl Write,
    call: &str,
    pair: &str,
    number: u8,
) -> io::Result<()> {
    write!(out, "{call}: {pair}: {number}")
}
