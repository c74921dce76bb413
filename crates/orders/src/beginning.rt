// Begin: the script's order, then 7, then 13 for a fixed deadline.
use crate::print::print_answer;
use crate::records;
use refusal::Numbered;
use std::io::{self, Write};
use transaction::{Deadline, Request, Settings};

fn ask(
    out: &mut impl Write,
    pair: &str,
    request: Request<'_>,
    room: usize,
    deadline: Deadline,
    busy: bool,
) -> io::Result<()> {
    let before = records::record(3, true, false);
    let begun = transaction::begin(before, Settings { deadline }, request, room, busy, 1);
    print_answer(out, "begin", pair, begun.answer.number())?;
    records::print_record(out, before, begun.progress)?;
    writeln!(out)
}

pub(super) fn row(out: &mut impl Write, pair: &str, request: Request<'_>) -> io::Result<()> {
    ask(out, pair, request, 4096, Deadline::None, false)
}

pub(super) fn rows(out: &mut impl Write) -> io::Result<()> {
    let address = 41;
    ask(
        out,
        "6 (read total) before 7 (room)",
        Request {
            address,
            script: b"\x01\x00\x03\xFF\xFF\x01",
        },
        0,
        Deadline::None,
        false,
    )?;
    ask(
        out,
        "7 (room) before 13 (fixed deadline)",
        Request {
            address,
            script: b"\x01\x00\x03\x00\x02\x01",
        },
        1,
        Deadline::Fixed(u64::MAX),
        false,
    )?;
    ask(
        out,
        "13 (fixed deadline) before a bus clear, with no operation",
        Request {
            address,
            script: b"\x01\x00\x00",
        },
        0,
        Deadline::Fixed(u64::MAX),
        true,
    )
}
