// Reads the text that asks for a plan.
ghost use Rattle.std.specs.Prelude.{◌<◌, ◌≤◌, length, IfOk, OnOk};

use crate::tokens::{Words, number_of};
use arrayvec::ArrayVec;
use std::fmt;
use transaction::Deadline;

// No script is longer.
const MOST: usize = 8192;

pub(super) type Script = ArrayVec<u8, MOST>;

// What is asked for beside the script, which is read into memory that the caller lends: by value it would be copied with each answer.
#[derive(Clone, Copy)]
pub(super) struct Asked {
    pub address: u32,
    pub deadline: Deadline,
}

// Why a text cannot be read.
#[derive(Clone, Copy)]
enum Fault {
    UnknownWord,
    HalfByte,
    BadAddress,
    BadDeadline,
    BadDuration,
    NoAddress,
    TooLong,
}

impl fmt::Display for Fault {
    fn fmt<W: fmt::Write>(&self, f: &mut fmt::Formatter<W>) -> fmt::Result {
        f.write_str(match self {
            Fault::UnknownWord => "neither a setting nor bytes in hex",
            Fault::HalfByte => "a byte has two hex digits",
            Fault::BadAddress => "an address is a hex number of at most 32 bits",
            Fault::BadDeadline => "a deadline is none, fixed or per-byte",
            Fault::BadDuration => "a duration is a decimal number of at most 64 bits",
            Fault::NoAddress => "the address is missing",
            Fault::TooLong => "the script is longer than 8,192 bytes",
        })
    }
}

// The first fault of a text, and its line.
#[derive(Clone, Copy)]
pub(super) struct Unreadable {
    fault: Fault,
    line: usize,
}

impl fmt::Display for Unreadable {
    fn fmt<W: fmt::Write>(&self, f: &mut fmt::Formatter<W>) -> fmt::Result {
        write!(f, "line {}: {}", self.line, self.fault)
    }
}

fn hex_digit(b: u8) -> Result<u8, Fault>
    ensures { IfOk result (λ digit. digit < 16) }
{
    match char::from(b).to_digit(16) {
        Some(digit) => Ok(digit as u8),
        None => Err(Fault::UnknownWord),
    }
}

// Bytes of the script, two hex digits each.
fn add_bytes(script: &mut Script, word: &[u8]) -> Result<(), Fault> {
    for pair in word.chunks(2) {
        let high = hex_digit(pair[0])?;
        let low = pair.get(1).ok_or(Fault::HalfByte)?;
        let byte = high * 16 + hex_digit(*low)?;
        script.try_push(byte).map_err(|_| Fault::TooLong)?;
    }
    Ok(())
}

// The next word as a number.
fn read_number(words: &mut Words<'_>, radix: u32, fault: Fault) -> Result<u64, Fault>
    requires { (2 ≤ radix) × (radix ≤ 36) }
    ensures { OnOk result (length words.new.rest.now ≤ length words.old.rest.now) }
{
    let Some(word) = words.next() else {
        return Err(fault);
    };
    number_of(word, radix).ok_or(fault)
}

fn read_deadline(words: &mut Words<'_>) -> Result<Deadline, Fault>
    ensures { OnOk result (length words.new.rest.now ≤ length words.old.rest.now) }
{
    match words.next() {
        Some(b"none") => Ok(Deadline::None),
        Some(b"fixed") => Ok(Deadline::Fixed(read_number(words, 10, Fault::BadDuration)?)),
        Some(b"per-byte") => Ok(Deadline::PerByte(read_number(words, 10, Fault::BadDuration)?)),
        _ => Err(Fault::BadDeadline),
    }
}

fn read_words(words: &mut Words<'_>, script: &mut Script) -> Result<Asked, Fault> {
    let mut address = None;
    let mut deadline = Deadline::None;
    while let Some(word) = words.next() {
        match word {
            b"address" => {
                let n = read_number(words, 16, Fault::BadAddress)?;
                address = Some(u32::try_from(n).map_err(|_| Fault::BadAddress)?);
            }
            b"deadline" => deadline = read_deadline(words)?,
            _ => add_bytes(script, word)?,
        }
    }
    Ok(Asked {
        address: address.ok_or(Fault::NoAddress)?,
        deadline,
    })
}

// Reads the whole text; the script's bytes come behind those that are there.
pub(super) fn read_text(text: &[u8], script: &mut Script) -> Result<Asked, Unreadable> {
    let mut words = Words::new(text);
    read_words(&mut words, script).map_err(|fault| Unreadable {
        fault,
        line: words.line,
    })
}
