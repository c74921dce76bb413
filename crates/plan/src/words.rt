// Command words in hex and by name.
use command::Command;
use std::io::Write;
use std::{fmt, io};

// A word, and what it asks for.
#[derive(Clone, Copy)]
struct Word(u32);

impl fmt::Display for Word {
    fn fmt<W: fmt::Write>(&self, f: &mut fmt::Formatter<W>) -> fmt::Result {
        write!(f, "{:04X} ", self.0 % 0x1_0000)?;
        match command::decode(self.0) {
            Some(Command::Start) => write!(f, "START"),
            Some(Command::Write(n)) => write!(f, "WRITE {n}"),
            Some(Command::Read(n)) => write!(f, "READ {n}"),
            Some(Command::ReadNack) => write!(f, "READ 1 NACK"),
            Some(Command::Stop) => write!(f, "STOP"),
            Some(Command::End) => write!(f, "END"),
            None => write!(f, "MALFORMED"),
        }
    }
}

// The words of a list but for the unused ones.
pub(super) fn print_words(out: &mut impl Write, words: [u32; 8]) -> io::Result<()> {
    for (i, word) in words.into_iter().enumerate() {
        if word != 0 {
            let comma = if i > 0 { ", " } else { "" };
            write!(out, "{comma}{}", Word(word))?;
        }
    }
    Ok(())
}
