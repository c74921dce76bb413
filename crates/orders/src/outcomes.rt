// Outcomes of a read of 2 bytes that is due at 1,000, of which none were received: errors in their order; the poll, in which an error
// comes before the deadline and being done before both timeouts; the command check, in which errors come before commands that are not
// done; and last the bytes received. Once the poll has succeeded only the check and the bytes are left.
use crate::completing::{ARBITRATION_LOST, COMPLETED, NACK, TIME_OUT, TRANS_COMPLETE, ask};
use crate::records;
use std::io::{self, Write};
use transaction::{Progress, Request};

// No command of the list is done yet.
const UNDONE: [u32; 8] = [0x3000, 0x0901, 0x1801, 0x1C01, 0x1000, 0, 0, 0];

// The pair, the bits of the snapshot, and its clock.
const ROWS: [(&str, u8, u64); 8] = [
    (
        "9 (nack) before 10 (arbitration lost)",
        NACK + ARBITRATION_LOST,
        1000,
    ),
    (
        "10 (arbitration lost) before 9 (unanswered)",
        ARBITRATION_LOST + TRANS_COMPLETE,
        1000,
    ),
    (
        "9 (unanswered) before 11 (time_out)",
        TRANS_COMPLETE + TIME_OUT,
        1000,
    ),
    (
        "10 (arbitration lost) before 11 (past the deadline)",
        ARBITRATION_LOST,
        1001,
    ),
    (
        "done before 11 (past the deadline), so 8 (commands not done)",
        COMPLETED,
        1001,
    ),
    (
        "done before 11 (time_out), which the command check gives before 8 (commands not done)",
        COMPLETED + TIME_OUT,
        1001,
    ),
    ("pending (not done) before 8 (too few bytes)", 0, 1000),
    (
        "pending (commands not done) before 8 (too few bytes)",
        COMPLETED,
        1000,
    ),
];

const POLLED_ROWS: [(&str, u8, u64); 2] = [
    (
        "8 (commands not done) and no 11 (past the deadline) once polled",
        0,
        1001,
    ),
    (
        "11 (time_out) before 8 (commands not done) once polled",
        TIME_OUT,
        1001,
    ),
];

fn row(out: &mut impl Write, before: Progress, pair: &str, bits: u8, time: u64) -> io::Result<()> {
    let request = Request {
        address: 41,
        script: b"\x01\x00\x03\x00\x02\x01",
    };
    let snapshot = outcome::unpack(bits, UNDONE, time);
    ask(out, pair, before, request, snapshot, 16)
}

pub(super) fn rows(out: &mut impl Write) -> io::Result<()> {
    let before = records::record(0, true, false);
    for (pair, bits, time) in ROWS {
        row(out, before, pair, bits, time)?;
    }
    for (pair, bits, time) in POLLED_ROWS {
        row(out, records::polled(before), pair, bits, time)?;
    }
    Ok(())
}
