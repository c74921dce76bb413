// Questions to the leaf crates: pieces, command words, outcomes.
use super::word;
use command::Command;
use outcome::Answer;

// 1 CHUNK REMAINING: the length of the next piece. 2 CHUNK N: how many pieces. 3 CHUNK N J: where the j-th starts.
pub(super) fn piece(fields: &[u64; 16]) -> u64 {
    let [asked, chunk, n, j, ..] = *fields;
    let (chunk, n) = (chunk as usize, n as usize);
    let answer = match asked {
        1 => chunks::calculate_chunk_size(chunk, n),
        2 => chunks::count_pieces(chunk, n),
        _ => chunks::piece_start(chunk, n, j as usize),
    };
    answer as u64
}

// Kept: plain functions between numbers and other crates' types, here and in `clears`, since a program cannot give those types a `From`.
fn command_of(kind: u64, count: u8) -> Command {
    match kind {
        0 => Command::Start,
        1 => Command::Write(count),
        2 => Command::Read(count),
        3 => Command::ReadNack,
        4 => Command::Stop,
        _ => Command::End,
    }
}

// The kind of a command times 256 and its count, as the question for its word has them.
fn kind_and_count(command: Command) -> u64 {
    match command {
        Command::Start => 0,
        Command::Write(n) => 0x100 + u64::from(n),
        Command::Read(n) => 0x200 + u64::from(n),
        Command::ReadNack => 0x301,
        Command::Stop => 0x400,
        Command::End => 0x500,
    }
}

// 4 KIND COUNT: the word of a command.
pub(super) fn encoded(fields: &[u64; 16]) -> u64 {
    let [_, kind, count, ..] = *fields;
    let command = command_of(kind, (count % 256) as u8);
    u64::from(command::encode(command))
}

// 5 WORD: its kind times 256 and its count; FFFF where it is malformed.
pub(super) fn decoded(fields: &[u64; 16]) -> u64 {
    match command::decode(word(fields[1])) {
        Some(command) => kind_and_count(command),
        None => 0xFFFF,
    }
}

// 6 BITS POLLED KIND NOW TIME and eight words: a snapshot, whether its list's poll has succeeded, and the deadline, of kind 0 (never) or
// 1 (at a time). The answer is the number of the outcome times 65536, its reason times 256, and 1 where the poll has succeeded by now.
pub(super) fn classified(fields: &[u64; 16]) -> u64 {
    let [_, bits, polled, kind, now, time, ..] = *fields;
    let mut commands = [0; 8];
    for (command, field) in commands.iter_mut().zip(&fields[6..]) {
        *command = word(*field);
    }
    let due = if kind == 0 { None } else { Some(time) };
    let snapshot = outcome::unpack((bits % 256) as u8, commands, now);
    let c = outcome::classify(snapshot, polled == 1, due);
    let answer = Answer::from(c.outcome);
    u64::from(answer.number) * 65536 + u64::from(answer.reason) * 256 + u64::from(c.polled)
}

// 7 WANTED RECEIVED: the number of the outcome of a read.
pub(super) fn received(fields: &[u64; 16]) -> u64 {
    let [_, wanted, received, ..] = *fields;
    let outcome = outcome::read_all_from_fifo(wanted as usize, received as usize);
    u64::from(Answer::from(outcome).number)
}
