// Completion: the script's order, then the place (5), 12, 7; then outcomes.
use crate::print::print_answer;
use crate::records;
use outcome::Snapshot;
use std::io::{self, Write};
use transaction::{Progress, Request};

// What the read buffer holds before.
const UNTOUCHED: u8 = 0xEE;

// The bits of a snapshot, as `outcome::unpack` has them.
pub(super) const NACK: u8 = 1;

pub(super) const ARBITRATION_LOST: u8 = 2;

pub(super) const TIME_OUT: u8 = 16;

pub(super) const TRANS_COMPLETE: u8 = 64;

// The last byte was acknowledged, the transfer is complete, and the end is detected.
pub(super) const COMPLETED: u8 = 0xE0;

pub(super) fn ask(
    out: &mut impl Write,
    pair: &str,
    before: Progress,
    request: Request<'_>,
    snapshot: Snapshot,
    room: usize,
) -> io::Result<()> {
    let mut buffer = [UNTOUCHED; 16];
    let completed = transaction::complete(
        before,
        request,
        snapshot,
        b"",
        &mut buffer[..room.min(16)],
    );
    let told = transaction::completion_answer(completed.answer);
    print_answer(out, "completion", pair, told.number)?;
    if told.reason != 0 {
        write!(out, " with reason {}", told.reason)?;
    }
    records::print_record(out, before, completed.progress)?;
    if buffer.iter().all(|byte| *byte == UNTOUCHED) {
        writeln!(out, ", buffer kept")
    } else {
        writeln!(out, ", buffer changed")
    }
}

fn completed() -> Snapshot {
    outcome::unpack(COMPLETED, [0; 8], 0)
}

pub(super) fn row(out: &mut impl Write, pair: &str, request: Request<'_>) -> io::Result<()> {
    let before = records::record(0, true, false);
    ask(out, pair, before, request, completed(), 16)
}

// A read of 65,535 bytes, a read of 2, and K2's script.
const READS_TOO_MUCH: &[u8] = b"\x01\x00\x03\xFF\xFF\x01";

const READS_TWO: &[u8] = b"\x01\x00\x03\x00\x02\x01";

const K2: &[u8] = b"\x01\x00\x07\x00\x01\x00\xA0\x00\x02\x01";

pub(super) fn rows(out: &mut impl Write) -> io::Result<()> {
    let address = 41;
    let nack = outcome::unpack(NACK, [0; 8], 0);
    let rows = [
        (
            "6 (read total) before 5 (place)",
            records::record(9, true, false),
            READS_TOO_MUCH,
            completed(),
            16,
        ),
        (
            "5 (place) before 12 (none outstanding)",
            records::record(9, false, false),
            READS_TWO,
            completed(),
            16,
        ),
        (
            "12 (none outstanding) before 7 (room)",
            records::record(0, false, false),
            READS_TWO,
            completed(),
            1,
        ),
        (
            "7 (room) before 9 (nack)",
            records::record(0, true, false),
            READS_TWO,
            nack,
            1,
        ),
        (
            "7 (room) before success",
            records::record(0, true, false),
            K2,
            completed(),
            1,
        ),
    ];
    for (pair, before, script, snapshot, room) in rows {
        ask(
            out,
            pair,
            before,
            Request { address, script },
            snapshot,
            room,
        )?;
    }
    Ok(())
}
