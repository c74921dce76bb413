// Refusals by number and name, with the place that they are about and what to do.
use refusal::{Numbered, Refusal};
use script::Record;
use std::io::Write;
use std::{fmt, io};

// What a refusal is about.
#[derive(Clone, Copy)]
enum Place {
    Address,
    Script(usize),
    Buffer,
    Deadline,
    Calls,
}

impl fmt::Display for Place {
    fn fmt<W: fmt::Write>(&self, f: &mut fmt::Formatter<W>) -> fmt::Result {
        match self {
            Place::Address => write!(f, "the address"),
            Place::Script(at) => write!(f, "byte {at} of the script (the first is byte 0)"),
            Place::Buffer => write!(f, "the read buffer"),
            Place::Deadline => write!(f, "the deadline"),
            Place::Calls => write!(f, "the calls"),
        }
    }
}

// No body is longer, and no more bytes are read in all.
const MOST: usize = 4096;

// A body of 4,096 bytes has no more records, and its end.
const RECORDS: usize = 1366;

const HEADER: usize = 3;

// The place of the first record that is bad, or with which more bytes are read than this many.
fn first_record(script: &[u8], most: usize) -> Place {
    let mut at = HEADER;
    let mut left = most;
    for _ in 0..RECORDS {
        let step = script::next_record(script, at);
        match step.found {
            Record::End | Record::Bad => break,
            Record::Write(_) => {}
            Record::Read(n) => match left.checked_sub(usize::from(n)) {
                None => break,
                Some(rest) => left = rest,
            },
        }
        at = step.next;
    }
    Place::Script(at)
}

fn of_shape(script: &[u8]) -> (Place, &'static str) {
    let [_, high, low, body @ ..] = script else {
        return (
            Place::Script(script.len()),
            "Begin with three bytes: the version, 01, and the length of the body in two.",
        );
    };
    if usize::from(u16::from_be_bytes([*high, *low])) != body.len() {
        return (
            Place::Script(1),
            "Put here, in two bytes, how many bytes follow the first three.",
        );
    }
    (
        first_record(script, usize::MAX),
        "Give this record two bytes of length, a kind, 00 to write or 01 to read, and all the bytes that it writes.",
    )
}

fn of_size(script: &[u8]) -> (Place, &'static str) {
    if let [_, high, low, ..] = script
        && usize::from(u16::from_be_bytes([*high, *low])) > MOST
    {
        return (
            Place::Script(1),
            "Split the script: a body has at most 4,096 bytes (10 00).",
        );
    }
    (
        first_record(script, MOST),
        "Split the script before this record: a script reads at most 4,096 bytes in all.",
    )
}

// Where the trouble is, and what to do.
fn advice(refusal: Refusal, script: &[u8]) -> (Place, &'static str) {
    match refusal {
        Refusal::AddressInvalid => (
            Place::Address,
            "Give the seven bits of the address without the direction bit: 00 to 7F.",
        ),
        Refusal::Version => (Place::Script(0), "Begin with the version 01."),
        Refusal::Shape => of_shape(script),
        Refusal::Size => of_size(script),
        Refusal::Room => (
            Place::Buffer,
            "Lend a read buffer for all bytes that the script reads.",
        ),
        Refusal::ClockRange => (
            Place::Deadline,
            "Ask for a shorter time: the sum with the clock has to fit 64 bits.",
        ),
        Refusal::ZeroLengthInvalid
        | Refusal::FifoExceeded
        | Refusal::OutOfTurn
        | Refusal::ListRefused => (
            Place::Calls,
            "Ask for a list, complete it, and only then ask for the next.",
        ),
    }
}

pub(super) fn print_name(out: &mut impl Write, refusal: Refusal) -> io::Result<()> {
    writeln!(out, "refused: {} {}", refusal.number(), refusal.name())
}

pub(super) fn print_refusal(
    out: &mut impl Write,
    refusal: Refusal,
    script: &[u8],
) -> io::Result<()> {
    print_name(out, refusal)?;
    let (place, what) = advice(refusal, script);
    writeln!(out, "  at {place}\n  {what}")
}
