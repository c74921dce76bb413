// One command list, laid into lent memory.
ghost use Rattle.std.specs.Prelude.{◌≤◌};
ghost use Rattle.sitankulo.specs.Answers.{told};
ghost use Rattle.sitankulo.specs.Lists.{write_asked, read_asked, LaidOut, ListLeft};

use crate::answer;
use crate::answer::bit;
use list::{Answer, Built, CommandList};
use refusal::Refusal;

// The weights of the flags.
const START: u8 = 1;

const STOP: u8 = 2;

const CONTINUES: u8 = 4;

// Lays a list into the lent memory, where there is room for it.
pub(crate) fn lay(list: CommandList, words: &mut [u8], fifo: &mut [u8]) -> Result<u32, Refusal>
    requires { list.count ≤ 32 }
    ensures { LaidOut list result words.old words.new fifo.old fifo.new }
{
    if words.len() < answer::WORDS || fifo.len() < list.count {
        return Err(Refusal::Room);
    }
    wire::put_words(list.words, words);
    wire::put_bytes(&list.fifo, list.count, fifo);
    Ok(answer::pack(0, list.count as u8))
}

fn hand_out(built: Built, words: &mut [u8], fifo: &mut [u8]) -> Result<u32, Refusal>
    requires { built.list.count ≤ 32 }
    ensures { ListLeft built (told result) words.old words.new fifo.old fifo.new }
{
    match built.answer? {
        Answer::Listed => lay(built.list, words, fifo),
        Answer::NoList => Ok(answer::NONE),
    }
}

// The list that writes these bytes.
pub fn sitankulo_build_write(
    address: u32,
    bytes: &[u8],
    flags: u8,
    words: &mut [u8],
    fifo: &mut [u8],
) -> u32
    ensures { ListLeft (write_asked address bytes.now flags)
        result words.old words.new fifo.old fifo.new }
{
    let built = list::setup_write(address, bytes, bit(flags, START), bit(flags, STOP));
    answer::told(hand_out(built, words, fifo))
}

// The list that reads n bytes.
pub fn sitankulo_build_read(
    address: u32,
    n: usize,
    flags: u8,
    words: &mut [u8],
    fifo: &mut [u8],
) -> u32
    ensures { ListLeft (read_asked address n flags)
        result words.old words.new fifo.old fifo.new }
{
    let built = list::setup_read(
        address,
        n,
        bit(flags, START),
        bit(flags, STOP),
        bit(flags, CONTINUES),
    );
    answer::told(hand_out(built, words, fifo))
}
