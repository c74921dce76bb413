// One command list: what the controller is asked to do for one piece of an operation.
#![tactic(auto)]

ghost use Rattle.std.specs.Prelude.{◌≡◌, ℕ, ◌+◌, ◌≤◌, List, ◌++◌, map, length, replicate};
ghost use Rattle.command.specs.declared.Command.{Command};
ghost use Rattle.command.specs.Word.{encode_of};
ghost use Rattle.list.specs.Lists.{write_limit, read_limit, write_commands, read_commands, padded, listed, unlisted, write_of, read_of, write_step_of, read_step_of, kind_number};

mod table;

use command::Command;
use refusal::{Numbered, Refusal};
use table::Table;

// Eight words, the bytes for the FIFO and how many of them count; unused words and bytes are 0.
// Kept: the bytes with their count beside them, as the C interface hands them out; no heap.
#[derive(Drop)]
pub struct CommandList {
    pub words: [u32; 8],
    pub fifo: [u8; 32],
    pub count: usize,
}

// No word and no byte is set.
impl Default for CommandList {
    ghost is_default = { λ list. list ≡ record { words = replicate 8 0; fifo = replicate 32 0; count = 0 } };

    fn default() -> CommandList {
        CommandList {
            words: [0; 8],
            fifo: [0; FIFO],
            count: 0,
        }
    }
}

#[derive(Clone, Copy)]
pub enum Answer {
    Listed,
    NoList,
}

impl Numbered for Answer {
    ghost number_in = { kind_number };

    fn number(self) -> u8 {
        match self {
            Answer::Listed => 0,
            Answer::NoList => 254,
        }
    }
}

// The answer, and the list where there is one; else no word and no byte is set.
// Kept: the list beside the answer, as definition `unlisted` has it: a refusal too comes with a list, which is blank.
#[derive(Drop)]
pub struct Built {
    pub answer: Result<Answer, Refusal>,
    pub list: CommandList,
}

impl Built {
    #[tactic(auto, unfolding(crate::specs::Lists::listed))]
    fn with_list(words: [u32; 8], fifo: [u8; FIFO], count: usize) -> Built
        ensures { (commands : List Command) (bytes : List ℕ)
            → words ≡ padded 8 (map encode_of commands) → fifo ≡ padded 32 bytes → count ≡ length bytes
            → result ≡ listed commands bytes }
    {
        Built {
            answer: Ok(Answer::Listed),
            list: CommandList {
                words: words,
                fifo: fifo,
                count: count,
            },
        }
    }

    #[tactic(auto, unfolding(crate::specs::Lists::unlisted))]
    fn without_list(answer: Result<Answer, Refusal>) -> Built
        ensures { result ≡ unlisted answer }
    {
        Built {
            answer: answer,
            list: CommandList::default(),
        }
    }
}

// How many bytes the FIFO holds.
const FIFO: usize = 32;

// Addresses are of seven bits.
const LAST_ADDRESS: u32 = 127;

// With start the address goes through the FIFO too.
#[tactic(auto, unfolding(crate::specs::Lists::sent_bytes, bus::specs::Traffic::opening))]
fn write_limit(start: bool) -> usize
    ensures { (address : ℕ) → result ≡ write_limit 32 address start }
{
    if start { FIFO - 1 } else { FIFO }
}

// As the driver has it: one byte fewer where the read ends its run.
fn read_limit(continues: bool) -> usize
    ensures { result ≡ read_limit 32 continues }
{
    if continues { FIFO } else { FIFO - 1 }
}

// Kept: start, stop and continues one by one, as definitions `write_of` and `read_of` take them; and `n ≤ 32`, which three functions ask
// of a plain number: a type of its own for it would be unwrapped in each.

// Where a list is made its functions are inlined: not so, a transaction took a tenth more instructions.

// The words of a write of n bytes, whatever the bytes and the address are. With start the address is one byte more to write.
#[inline(always)]
fn write_words(n: usize, start: bool, stop: bool) -> [u32; 8]
    requires { n ≤ 32 }
    ensures { (address : ℕ) (bytes : List ℕ)
        → n ≡ length bytes
        → result ≡ padded 8 (map encode_of (write_commands address bytes start stop)) }
{
    let mut table = Table::new();
    if start {
        table.push(Command::Start);
        table.push(Command::Write((n + 1) as u8));
        table.close(start, stop);
        return table.words();
    }
    if n > 0 {
        table.push(Command::Write(n as u8));
        table.close(start, stop);
        return table.words();
    }
    table.close(start, stop);
    table.words()
}

// The words of a read of n bytes, whatever the address is. With start the address is written first.
#[inline(always)]
fn read_words(n: usize, start: bool, stop: bool, continues: bool) -> [u32; 8]
    requires { (1 ≤ n) × (n ≤ 32) }
    ensures { (address : ℕ) → result ≡ padded 8 (map encode_of (read_commands address n start stop continues)) }
{
    let mut table = Table::new();
    if start {
        table.push(Command::Start);
        table.push(Command::Write(1));
        table.receive(n, start, stop, continues);
        return table.words();
    }
    table.receive(n, start, stop, continues);
    table.words()
}

// What goes through the FIFO: the address byte where it opens a run, and the bytes of a write.
fn fifo_of(opening: &[u8], bytes: &[u8]) -> [u8; FIFO]
    requires { length opening.now + length bytes.now ≤ 32 }
    ensures { result ≡ padded 32 (opening.now ++ bytes.now) }
{
    let at = opening.len();
    let mut fifo = [0; FIFO];
    fifo[..at].copy_from_slice(opening);
    fifo[at..at + bytes.len()].copy_from_slice(bytes);
    fifo
}

// The list that writes the bytes: with START and the address if `start`, and up to STOP if `stop`.
#[inline(always)]
#[tactic(auto, unfolding(crate::specs::Lists::write_of))]
pub fn setup_write(address: u32, bytes: &[u8], start: bool, stop: bool) -> Built
    ensures { result ≡ write_of 32 address bytes.now start stop }
{
    if address > LAST_ADDRESS {
        return Built::without_list(Err(Refusal::AddressInvalid));
    }
    let n = bytes.len();
    if n > write_limit(start) {
        return Built::without_list(Err(Refusal::FifoExceeded));
    }
    let words = write_words(n, start, stop);
    if start {
        return Built::with_list(words, fifo_of(&[(address * 2) as u8], bytes), n + 1);
    }
    Built::with_list(words, fifo_of(&[], bytes), n)
}

// The list that reads n bytes. If the read `continues` its last byte is acknowledged like the others.
#[inline(always)]
#[tactic(auto, unfolding(crate::specs::Lists::read_of))]
pub fn setup_read(address: u32, n: usize, start: bool, stop: bool, continues: bool) -> Built
    ensures { result ≡ read_of 32 address n start stop continues }
{
    if address > LAST_ADDRESS {
        return Built::without_list(Err(Refusal::AddressInvalid));
    }
    if n == 0 {
        return Built::without_list(Err(Refusal::ZeroLengthInvalid));
    }
    if n > read_limit(continues) {
        return Built::without_list(Err(Refusal::FifoExceeded));
    }
    let words = read_words(n, start, stop, continues);
    if start {
        return Built::with_list(words, fifo_of(&[(address * 2 + 1) as u8], &[]), 1);
    }
    Built::with_list(words, fifo_of(&[], &[]), 0)
}

// One step of a write: its list, or none where there is nothing to do.
#[inline(always)]
#[tactic(auto, unfolding(crate::specs::Lists::write_step_of))]
pub fn write_operation(address: u32, bytes: &[u8], start: bool, stop: bool) -> Built
    ensures { result ≡ write_step_of 32 address bytes.now start stop }
{
    if address <= LAST_ADDRESS && bytes.is_empty() && !start && !stop {
        return Built::without_list(Ok(Answer::NoList));
    }
    setup_write(address, bytes, start, stop)
}

// One step of a read: its list, or none where there is nothing to read.
#[inline(always)]
#[tactic(auto, unfolding(crate::specs::Lists::read_step_of))]
pub fn read_operation(address: u32, n: usize, start: bool, stop: bool, continues: bool) -> Built
    ensures { result ≡ read_step_of 32 address n start stop continues }
{
    if address <= LAST_ADDRESS && n == 0 {
        return Built::without_list(Ok(Answer::NoList));
    }
    setup_read(address, n, start, stop, continues)
}
