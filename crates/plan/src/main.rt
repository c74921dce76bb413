// Shows what a script comes to: its command lists one after another, and what goes over the bus.
//
// Standard input is a text of words, with blanks or line ends between them. `#` starts a comment up to the end of its line.
//
//     address 29              the sensor's address, in hex
//     deadline none           or `deadline fixed 5000`, or `deadline per-byte 100`, in decimal microseconds; may be left out
//     01 00 07 00 01 00 A0    the script, two hex digits a byte
//
// The clock stands at 0, the read buffer has 4,096 bytes, and the sensor acknowledges every byte and sends 00 01 02 and so on. Of a
// text that cannot be read nothing is shown but the line of its first fault.
#![tactic(auto)]

use arrayvec::ArrayVec;
use course::{Course, Events};
use std::io;
use std::io::{Read, Write};
use text::{Asked, Script};
use transaction::{Deadline, Progress, Request, Settings};

mod course;
mod listing;
mod refusals;
mod text;
mod tokens;
mod traffic;
mod words;

const READ_BUFFER: usize = 4096;

// No text is as long.
const TOO_LONG: usize = 65536;

fn print_heading(out: &mut impl Write, asked: Asked, length: usize) -> io::Result<()> {
    // Two hex digits, or all eight where two do not do.
    let address = asked.address;
    if address > 0xFF {
        write!(out, "address {address:08X}")?;
    } else {
        write!(out, "address {address:02X}")?;
    }
    let unit = if length == 1 { "byte" } else { "bytes" };
    write!(out, ", script of {length} {unit}, ")?;
    match asked.deadline {
        Deadline::None => writeln!(out, "no deadline"),
        Deadline::Fixed(time) => writeln!(out, "deadline {time} us from the start"),
        Deadline::PerByte(time) => {
            writeln!(
                out,
                "deadline {time} us a byte, from when a list is handed out"
            )
        }
    }
}

// The lists of a script that is accepted, and the traffic. Called and not inlined, so that a refused one pays nothing for the memory.
#[inline(never)]
fn show_accepted(
    out: &mut impl Write,
    progress: Progress,
    settings: Settings,
    request: Request<'_>,
) -> io::Result<()> {
    let mut buffer = [0; READ_BUFFER];
    let mut events: Events = ArrayVec::new();
    let mut course = Course::new(progress, settings, request, &mut buffer, &mut events);
    course.run(out)?;
    let lists = course.lists;
    writeln!(out, "\nbus")?;
    let traffic = traffic::print_traffic(out, events.as_slice())?;
    writeln!(
        out,
        "\nlists {lists}, bytes written {}, bytes read {}",
        traffic.written, traffic.read
    )
}

fn show(out: &mut impl Write, asked: Asked, script: &[u8]) -> io::Result<()> {
    print_heading(out, asked, script.len())?;
    let settings = Settings {
        deadline: asked.deadline,
    };
    let request = Request {
        address: asked.address,
        script,
    };
    let begun = transaction::begin(
        Progress::default(),
        settings,
        request,
        READ_BUFFER,
        false,
        0,
    );
    match begun.answer {
        Ok(_) => show_accepted(out, begun.progress, settings, request),
        Err(refusal) => refusals::print_refusal(out, refusal, script),
    }
}

// What a text comes to, or the line of its first fault.
#[inline(never)]
fn answer(out: &mut impl Write, text: &[u8]) -> io::Result<()> {
    let mut script: Script = ArrayVec::new();
    match text::read_text(text, &mut script) {
        Ok(asked) => show(out, asked, script.as_slice()),
        Err(unreadable) => writeln!(out, "{unreadable}"),
    }
}

// Reads the input in front of the text, and answers how many bytes there are.
#[inline(never)]
fn read(input: impl Read + Drop, text: &mut [u8]) -> io::Result<u64> {
    let mut room = text;
    io::copy(&mut input.take(TOO_LONG as u64), &mut room)
}

fn main(rt: HostRuntime) -> io::Result<()> {
    let mut out = rt.stdout();
    // Kept: the text is read into fixed memory, so that no lack of memory can end the program.
    let mut text = [0; TOO_LONG];
    let n = read(rt.stdin(), &mut text)? as usize;
    if n >= TOO_LONG {
        return writeln!(out, "the text is longer than 65,535 bytes");
    }
    answer(&mut out, &text[..n])
}
