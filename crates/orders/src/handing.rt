// Next list: the script's order, then the place (5), 12, 13 for a per-byte deadline where there is a list; then none left (254).
use crate::building::print_list;
use crate::print::print_answer;
use crate::records;
use refusal::Numbered;
use std::io::{self, Write};
use transaction::{Deadline, Progress, Request, Settings};

fn ask(
    out: &mut impl Write,
    pair: &str,
    before: Progress,
    request: Request<'_>,
    deadline: Deadline,
) -> io::Result<()> {
    let handed = transaction::next_list(before, Settings { deadline }, request, 1);
    print_answer(out, "next list", pair, handed.answer.number())?;
    records::print_record(out, before, handed.progress)?;
    print_list(out, &handed.list)
}

pub(super) fn row(out: &mut impl Write, pair: &str, request: Request<'_>) -> io::Result<()> {
    let before = records::record(0, false, false);
    ask(out, pair, before, request, Deadline::None)
}

// On K2's script, which has two lists: the pair, and the record's place, and whether a list is outstanding and the transaction has failed.
const K2_ROWS: [(&str, usize, bool, bool); 8] = [
    ("5 (place) before 12 (one outstanding)", 9, true, false),
    (
        "5 (place after the last list) before 12 (one outstanding)",
        2,
        true,
        false,
    ),
    ("5 (place) before 12 (after a failure)", 9, false, true),
    (
        "12 (one outstanding) before 13 (per-byte deadline)",
        0,
        true,
        false,
    ),
    (
        "12 (after a failure) before 13 (per-byte deadline)",
        0,
        false,
        true,
    ),
    ("12 (after a failure) before none left", 2, false, true),
    ("13 (per-byte deadline) before a list", 1, false, false),
    (
        "none left, and no 13 where there is no list",
        2,
        false,
        false,
    ),
];

pub(super) fn rows(out: &mut impl Write) -> io::Result<()> {
    let address = 41;
    ask(
        out,
        "6 (read total) before 5 (place)",
        records::record(9, false, false),
        Request {
            address,
            script: b"\x01\x00\x03\xFF\xFF\x01",
        },
        Deadline::None,
    )?;
    for (pair, place, outstanding, failed) in K2_ROWS {
        ask(
            out,
            pair,
            records::record(place, outstanding, failed),
            Request {
                address,
                script: b"\x01\x00\x07\x00\x01\x00\xA0\x00\x02\x01",
            },
            Deadline::PerByte(u64::MAX),
        )?;
    }
    Ok(())
}
