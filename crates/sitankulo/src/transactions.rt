// A transaction by numbers and byte slices. Its record is lent as `state`.
ghost use Rattle.std.specs.Prelude.{◌≡◌, cond, length};
ghost use Rattle.std.proofs.Math.Seq.{paste};
ghost use Rattle.refusal.specs.Numbers.{number_of};
ghost use Rattle.script.specs.Scripts.{script_of};
ghost use Rattle.wire.specs.Numbers.{word_bytes};
ghost use Rattle.transaction.specs.Numbers.{begin_number, completion_answer};
ghost use Rattle.sitankulo.specs.Answers.{told};
ghost use Rattle.sitankulo.specs.Transactions.{number_in, succeeds, goes_ahead, renewed, roomless, asked_settings, held_of, begun_for, begin_answer, handed_for, next_answer, completed_for, landed_for, tells, complete_answer, abandoned_for, abandon_answer, BeginLeft, NextLeft, CompleteLeft, AbandonLeft};

use crate::snapshots::snapshot_of;
use crate::{answer, lists, records};
use outcome::Outcome;
use refusal::{Numbered, Refusal};
use transaction::{Beginning, Deadline, Handing, Progress, Request, Settings};

// A deadline's kind is a number.
#[tactic(auto, unfolding(crate::specs::Transactions::settings_of))]
fn settings_of(kind: u8, duration: u64) -> Result<Settings, Refusal>
    ensures { result ≡ asked_settings kind duration }
{
    let deadline = match kind {
        0 => Deadline::None,
        1 => Deadline::Fixed(duration),
        2 => Deadline::PerByte(duration),
        _ => return Err(Refusal::Shape),
    };
    Ok(Settings { deadline })
}

// The record. Where no call left it, the script's refusals come first.
fn held(state: &[u8], request: Request<'_>) -> Result<Progress, Refusal>
    ensures { result ≡ held_of state.now (script_of request.entry.address request.entry.script.now) }
{
    let read = records::read(state);
    if read.is_err() {
        script::read_script(request.address, request.script)?;
    }
    read
}

// Too little room for a record comes before a clock out of range.
fn roomless(answer: Result<Beginning, Refusal>) -> Refusal
    ensures { number_of result ≡ roomless (begin_number answer) }
{
    match answer {
        Ok(_) | Err(Refusal::ClockRange) => Refusal::Room,
        Err(refusal) => refusal,
    }
}

// Every answer but a refusal tells of the list.
fn does_tell(answer: Result<Outcome, Refusal>) -> bool
    ensures { result ≡ tells (completion_answer answer).number }
{
    answer.is_ok()
}

// Accepts a script.
#[tactic(auto, using(crate::proofs::LawsBegin::starts), unfolding(crate::specs::Transactions::begin_answer, crate::specs::Transactions::begun_for))]
fn begin(
    state: &mut [u8],
    deadline: u8,
    duration: u64,
    request: Request<'_>,
    room: usize,
    busy: u8,
    time: u64,
) -> Result<u32, Refusal>
    ensures { BeginLeft deadline
        (begun_for deadline duration request.entry.address request.entry.script.now room busy time)
        (told result) state.old state.new }
{
    let settings = settings_of(deadline, duration)?;
    let begun = transaction::begin(
        Progress::default(),
        settings,
        request,
        room,
        busy != 0,
        time,
    );
    if state.len() < records::SIZE {
        return Err(roomless(begun.answer));
    }
    let beginning = begun.answer?;
    records::encode(begun.progress, state);
    Ok(u32::from(beginning.number()))
}

// The next list.
#[tactic(auto, using(crate::proofs::LawsForeign::unsuccessful, crate::proofs::LawsForeign::foreign_told, crate::proofs::LawsRecords::record_long), unfolding(crate::specs::Transactions::next_answer, crate::specs::Transactions::list_answer, crate::specs::Transactions::handed_for))]
fn next(
    state: &mut [u8],
    deadline: u8,
    duration: u64,
    request: Request<'_>,
    time: u64,
    words: &mut [u8],
    fifo: &mut [u8],
) -> Result<u32, Refusal>
    ensures { NextLeft deadline (script_of request.entry.address request.entry.script.now)
        (handed_for state.old deadline duration request.entry.address request.entry.script.now time)
        (told result) state.old state.new words.old words.new fifo.old fifo.new }
{
    let settings = settings_of(deadline, duration)?;
    let before = held(state, request)?;
    let handed = transaction::next_list(before, settings, request, time);
    match handed.answer? {
        Handing::NoneLeft => Ok(answer::NONE),
        Handing::Listed => {
            let detail = lists::lay(handed.list, words, fifo)?;
            records::encode(handed.progress, state);
            Ok(detail)
        }
    }
}

// What became of the outstanding list.
#[tactic(auto, using(crate::proofs::LawsForeign::silent, crate::proofs::LawsForeign::foreign_told, crate::proofs::LawsRecords::record_long), unfolding(crate::specs::Transactions::complete_answer, crate::specs::Transactions::completed_for, crate::specs::Transactions::landed_for))]
fn complete(
    state: &mut [u8],
    request: Request<'_>,
    bits: u8,
    commands: &[u8],
    time: u64,
    received: &[u8],
    buffer: &mut [u8],
) -> Result<u32, Refusal>
    ensures { CompleteLeft commands.now (script_of request.entry.address request.entry.script.now)
        (completed_for state.old request.entry.address request.entry.script.now bits commands.now time received.now buffer.old)
        (landed_for state.old request.entry.address request.entry.script.now bits commands.now time received.now buffer.old)
        (told result) state.old state.new buffer.old buffer.new }
{
    let snapshot = snapshot_of(bits, commands, time)?;
    let before = held(state, request)?;
    let completed = transaction::complete(before, request, snapshot, received, buffer);
    if does_tell(completed.answer) {
        records::encode(completed.progress, state);
    }
    let told = transaction::completion_answer(completed.answer);
    Ok(answer::pack(told.number, told.reason))
}

// Gives the transaction up.
#[tactic(auto, using(crate::proofs::LawsForeign::halts, crate::proofs::LawsBegin::gives_up, crate::proofs::LawsRecords::record_long), unfolding(crate::specs::Transactions::abandon_answer, crate::specs::Transactions::abandoned_for))]
fn abandon(state: &mut [u8], bits: u8, commands: &[u8], time: u64) -> Result<u32, Refusal>
    ensures { AbandonLeft commands.now (abandoned_for state.old bits commands.now time)
        (told result) state.old state.new }
{
    let snapshot = snapshot_of(bits, commands, time)?;
    let before = records::read(state)?;
    let abandoned = transaction::abandon(before, snapshot);
    let abandonment = abandoned.answer?;
    records::encode(abandoned.progress, state);
    Ok(u32::from(abandonment.number()))
}

// Accepts a script.
pub fn sitankulo_begin(
    state: &mut [u8],
    deadline: u8,
    duration: u64,
    address: u32,
    script: &[u8],
    room: usize,
    busy: u8,
    time: u64,
) -> u32
    ensures { (result ≡ begin_answer deadline (length state.old)
        (begun_for deadline duration address script.now room busy time))
        × (state.new ≡ cond (goes_ahead result) (renewed state.old
        (begun_for deadline duration address script.now room busy time).progress) state.old) }
{
    let request = Request { address, script };
    answer::told(begin(state, deadline, duration, request, room, busy, time))
}

// The next list.
pub fn sitankulo_next(
    state: &mut [u8],
    deadline: u8,
    duration: u64,
    address: u32,
    script: &[u8],
    time: u64,
    words: &mut [u8],
    fifo: &mut [u8],
) -> u32
    ensures { (result ≡ next_answer deadline state.old (script_of address script.now)
        (handed_for state.old deadline duration address script.now time)
        (length words.old) (length fifo.old))
        × (state.new ≡ cond (succeeds result) (renewed state.old
        (handed_for state.old deadline duration address script.now time).progress) state.old)
        × (words.new ≡ cond (succeeds result) (paste words.old 0
        (word_bytes (handed_for state.old deadline duration address script.now time).list.words) 32)
        words.old)
        × (fifo.new ≡ cond (succeeds result) (paste fifo.old 0
        (handed_for state.old deadline duration address script.now time).list.fifo
        (handed_for state.old deadline duration address script.now time).list.count)
        fifo.old) }
{
    let request = Request { address, script };
    answer::told(next(state, deadline, duration, request, time, words, fifo))
}

// What became of the outstanding list.
pub fn sitankulo_complete(
    state: &mut [u8],
    address: u32,
    script: &[u8],
    bits: u8,
    commands: &[u8],
    time: u64,
    received: &[u8],
    buffer: &mut [u8],
) -> u32
    ensures { (result ≡ complete_answer state.old commands.now (script_of address script.now)
        (completed_for state.old address script.now bits commands.now time received.now
        buffer.old))
        × (state.new ≡ cond (tells (number_in result)) (renewed state.old
        (completed_for state.old address script.now bits commands.now time received.now
        buffer.old).progress) state.old)
        × (buffer.new ≡ cond (succeeds result)
        (landed_for state.old address script.now bits commands.now time received.now
        buffer.old) buffer.old) }
{
    let request = Request { address, script };
    answer::told(complete(state, request, bits, commands, time, received, buffer))
}

// Gives the transaction up.
pub fn sitankulo_abandon(state: &mut [u8], bits: u8, commands: &[u8], time: u64) -> u32
    ensures { (result ≡ abandon_answer state.old commands.now
        (abandoned_for state.old bits commands.now time))
        × (state.new ≡ cond (goes_ahead result) (renewed state.old
        (abandoned_for state.old bits commands.now time).progress) state.old) }
{
    answer::told(abandon(state, bits, commands, time))
}
