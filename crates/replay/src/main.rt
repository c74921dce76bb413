// Answers questions to the proved crates, a line a question: numbers in hex with one space between them, of which the first says what
// is asked. Each answer is a line of sixteen hex digits. The questions in `stdin` and the answers in `stdout` are the Rust original's.
#![tactic(auto)]

ghost use Rattle.std.specs.Prelude.{◌<◌};

use std::io::{self, Read, Write};

mod clears;
mod leaves;
mod lists;

// What a line has said so far: how many numbers have ended, and the number at hand.
// Kept: handed on by value, beside the array of numbers: behind a reference it is loaded and stored for each digit, which takes three
// times as long. A number that a line does not say is that of the lines before.
#[derive(Drop)]
struct Place {
    ended: usize,
    number: u64,
}

fn word(number: u64) -> u32 {
    (number % 0x1_0000_0000) as u32
}

// The value of a hex digit, and 0 of anything else.
// Kept: `to_digit` gives uppercase letters values too, and a match takes half as long again. `drive` has the same function, since
// programs share no code but libraries'.
fn digit(b: u8) -> u64
    ensures { result < 16 }
{
    if b >= b'0' {
        if b <= b'9' {
            return u64::from(b - b'0');
        }
    }
    if b >= b'a' {
        if b <= b'f' {
            return u64::from(b - b'a') + 10;
        }
    }
    0
}

// One byte of a question. A line with more than sixteen numbers loses those beyond.
fn take(fields: &mut [u64; 16], place: Place, b: u8) -> Place {
    let Place { ended, number } = place;
    if b == b' ' || b == b'\n' {
        if let Some(field) = fields.get_mut(ended) {
            *field = number;
            return Place {
                ended: ended + 1,
                number: 0,
            };
        }
        return Place { ended, number: 0 };
    }
    Place {
        ended,
        number: number % 0x1000_0000_0000_0000 * 16 + digit(b),
    }
}

// Kept: a match on the number of a question, since each has a function of its own and a table of functions says no more.
fn answer(fields: &[u64; 16]) -> u64 {
    match fields[0] {
        1..=3 => leaves::piece(fields),
        4 => leaves::encoded(fields),
        5 => leaves::decoded(fields),
        6 => leaves::classified(fields),
        7 => leaves::received(fields),
        8 | 9 => lists::built(fields),
        10 => clears::stepped(fields),
        _ => clears::ran(fields),
    }
}

fn answer_all(
    out: &mut impl Write,
    fields: &mut [u64; 16],
    at_first: Place,
    text: &[u8],
) -> io::Result<Place> {
    let mut place = at_first;
    for b in text {
        place = take(fields, place, *b);
        if *b == b'\n' {
            writeln!(out, "{:016x}", answer(fields))?;
            place = Place {
                ended: 0,
                number: 0,
            };
        }
    }
    Ok(place)
}

fn main(rt: HostRuntime) -> io::Result<()> {
    let mut input = rt.stdin();
    let mut out = rt.stdout();
    let mut fields = [0; 16];
    let mut place = Place {
        ended: 0,
        number: 0,
    };
    let mut text = [0; 65536];
    for _ in 0..u64::MAX {
        let n = input.read(&mut text)?;
        if n == 0 {
            break;
        }
        place = answer_all(&mut out, &mut fields, place, &text[..n])?;
    }
    Ok(())
}
