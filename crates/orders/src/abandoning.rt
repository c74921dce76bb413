// Abandoning: 12 only. It asks for a reset with a bus clear (253) where the poll is pending or gives 11.
use crate::completing::{ARBITRATION_LOST, COMPLETED, TIME_OUT};
use crate::print::print_answer;
use crate::records;
use refusal::Numbered;
use std::io::{self, Write};
use transaction::Progress;

fn row(out: &mut impl Write, pair: &str, before: Progress, bits: u8, time: u64) -> io::Result<()> {
    let abandoned = transaction::abandon(before, outcome::unpack(bits, [0; 8], time));
    print_answer(out, "abandoning", pair, abandoned.answer.number())?;
    records::print_record(out, before, abandoned.progress)?;
    writeln!(out)
}

pub(super) fn rows(out: &mut impl Write) -> io::Result<()> {
    let outstanding = records::record(0, true, false);
    let rows = [
        (
            "12 (none outstanding), at a place of no script",
            records::record(9, false, false),
            0,
            1000,
        ),
        (
            "no 5 at a place of no script",
            records::record(9, true, false),
            0,
            1000,
        ),
        (
            "10 (arbitration lost) before 11 (time_out), so no reset",
            outstanding,
            ARBITRATION_LOST + TIME_OUT,
            1000,
        ),
        (
            "10 (arbitration lost) before 11 (past the deadline), so no reset",
            outstanding,
            ARBITRATION_LOST,
            1001,
        ),
        (
            "done before 11 (time_out), so no reset",
            outstanding,
            COMPLETED + TIME_OUT,
            1000,
        ),
        (
            "no 11 (time_out) once polled, so no reset",
            records::polled(outstanding),
            TIME_OUT,
            1000,
        ),
    ];
    for (pair, before, bits, time) in rows {
        row(out, pair, before, bits, time)?;
    }
    Ok(())
}
