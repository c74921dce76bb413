// A transaction: the command lists of a script, each handed out, waited for and completed in its turn.
#![tactic(auto)]

ghost use Rattle.std.specs.Prelude.{◌≡◌};
ghost use Rattle.transaction.specs.Calls.{begin_of, next_of, complete_of, buffer_of, resets, abandon_of};
ghost use Rattle.transaction.specs.Numbers.{beginning_number, handing_number, completion_answer, abandonment_number};

use list::CommandList;
use outcome::{Answer, Due, Error, Outcome, Snapshot};
use refusal::{Numbered, Refusal};

mod completing;
mod deadlines;
mod next;
mod walk;

// How long lists may take, in microseconds: as long as they need; all of them so long from the transaction's acceptance on; each so
// long for a byte.
#[derive(Clone, Copy)]
pub enum Deadline {
    None,
    Fixed(u64),
    PerByte(u64),
}

// What a call is told besides the script, the address and the record.
#[derive(Clone, Copy)]
pub struct Settings {
    pub deadline: Deadline,
}

// What is asked of a sensor: its address, and the script that says which operations.
#[derive(Clone, Copy)]
pub struct Request<'a> {
    pub address: u32,
    pub script: &'a [u8],
}

// The record: how many lists are completed; whether one more is outstanding, when it is due and whether its poll has succeeded;
// whether the transaction has failed; and its fixed deadline.
// Kept: flags and times of any combination, since `next_of` and `complete_of` answer every record, and `refusals_keep_state` speaks of all.
#[derive(Clone, Copy, Default, PartialEq, Eq)]
pub struct Progress {
    pub place: usize,
    pub outstanding: bool,
    pub due: Due,
    pub polled: bool,
    pub failed: bool,
    pub fixed: Due,
}

// A transaction is accepted, or accepted and the bus has to be cleared first, without a reset.
#[derive(Clone, Copy)]
pub enum Beginning {
    Ready,
    ClearFirst,
}

// Kept: here and below an answer and the record stand side by side, since theorem `refusals_keep_state` speaks of the record, and of the
// list, that a refusal hands back. As one generic type for three calls, each use would have to name its answer beside it.
#[derive(Drop)]
pub struct Begun {
    pub answer: Result<Beginning, Refusal>,
    pub progress: Progress,
}

#[derive(Clone, Copy)]
pub enum Handing {
    Listed,
    NoneLeft,
}

// The list where there is one; else no word and no byte is set.
#[derive(Drop)]
pub struct Handed {
    pub answer: Result<Handing, Refusal>,
    pub list: CommandList,
    pub progress: Progress,
}

#[derive(Drop)]
pub struct Completed {
    pub answer: Result<Outcome, Refusal>,
    pub progress: Progress,
}

// A transaction is given up; the controller may have to be reset, and the bus cleared.
#[derive(Clone, Copy)]
pub enum Abandonment {
    Quiet,
    ResetAndClear,
}

#[derive(Drop)]
pub struct Abandoned {
    pub answer: Result<Abandonment, Refusal>,
    pub progress: Progress,
}

// What the bus needs first, if the script is accepted for so much room; a refusal keeps the record.
fn accept(
    progress: &mut Progress,
    settings: Settings,
    request: Request<'_>,
    room: usize,
    busy: bool,
    time: u64,
) -> Result<Beginning, Refusal>
    ensures { record { answer = result; progress = progress.new }
        ≡ begin_of progress.old settings request.entry.address request.entry.script.now room busy time }
{
    let total = script::read_script(request.address, request.script)?;
    if room < total {
        return Err(Refusal::Room);
    }
    let fixed = deadlines::fixed_due(settings.deadline, time)?;
    *progress = Progress {
        fixed,
        ..Progress::default()
    };
    Ok(if busy {
        Beginning::ClearFirst
    } else {
        Beginning::Ready
    })
}

// Accepts a script for a read buffer with so much room; a refusal hands the record back as it was.
pub fn begin(
    before: Progress,
    settings: Settings,
    request: Request<'_>,
    room: usize,
    busy: bool,
    time: u64,
) -> Begun
    ensures { result ≡ begin_of before settings request.entry.address request.entry.script.now room busy time }
{
    let mut progress = before;
    let answer = accept(&mut progress, settings, request, room, busy, time);
    Begun { answer, progress }
}

// The next list and the record that waits for it; or none is left.
#[tactic(auto, unfolding(list::specs::Lists::unlisted))]
pub fn next_list(p: Progress, settings: Settings, request: Request<'_>, time: u64) -> Handed
    ensures { result ≡ next_of p settings request.entry.address request.entry.script.now time }
{
    let mut progress = p;
    match next::hand_out(&mut progress, settings, request, time) {
        Ok(Some(list)) => Handed {
            answer: Ok(Handing::Listed),
            list,
            progress,
        },
        Ok(None) => Handed {
            answer: Ok(Handing::NoneLeft),
            list: CommandList::default(),
            progress,
        },
        Err(refusal) => Handed {
            answer: Err(refusal),
            list: CommandList::default(),
            progress,
        },
    }
}

// Tells what became of the outstanding list. With success the bytes that it received land in the read buffer.
pub fn complete(
    p: Progress,
    request: Request<'_>,
    snapshot: Snapshot,
    received: &[u8],
    buffer: &mut [u8],
) -> Completed
    ensures { (result ≡ complete_of p request.entry.address request.entry.script.now snapshot received.now buffer.old)
        × (buffer.new
        ≡ buffer_of p request.entry.address request.entry.script.now snapshot received.now buffer.old) }
{
    let mut progress = p;
    let answer = completing::complete(&mut progress, request, snapshot, received, buffer);
    Completed { answer, progress }
}

// A list that may still be under way: the controller has to be reset, and the bus cleared.
fn may_run(poll: Outcome) -> bool
    ensures { result ≡ resets poll }
{
    matches!(poll, Outcome::Pending | Outcome::Failed(Error::Timeout))
}

// Gives the transaction up while a list is outstanding.
#[tactic(auto, unfolding(crate::specs::Calls::abandon_of))]
pub fn abandon(p: Progress, snapshot: Snapshot) -> Abandoned
    ensures { result ≡ abandon_of p snapshot }
{
    let mut progress = p;
    if !p.outstanding {
        return Abandoned {
            answer: Err(Refusal::OutOfTurn),
            progress,
        };
    }
    progress.fail();
    let answer = if !p.polled && may_run(outcome::poll_completion(snapshot, p.due)) {
        Abandonment::ResetAndClear
    } else {
        Abandonment::Quiet
    };
    Abandoned {
        answer: Ok(answer),
        progress,
    }
}

impl Numbered for Beginning {
    ghost number_in = { beginning_number };

    fn number(self) -> u8 {
        match self {
            Beginning::Ready => 0,
            Beginning::ClearFirst => 253,
        }
    }
}

impl Numbered for Handing {
    ghost number_in = { handing_number };

    fn number(self) -> u8 {
        match self {
            Handing::Listed => 0,
            Handing::NoneLeft => 254,
        }
    }
}

// By number, with the reason of an error.
// Kept: a function, since neither `Result` nor `Answer` is of this crate, so it has no From.
pub fn completion_answer(answer: Result<Outcome, Refusal>) -> Answer
    ensures { result ≡ completion_answer answer }
{
    match answer {
        Ok(outcome) => Answer::from(outcome),
        Err(refusal) => Answer {
            number: refusal.number(),
            reason: 0,
        },
    }
}

impl Numbered for Abandonment {
    ghost number_in = { abandonment_number };

    fn number(self) -> u8 {
        match self {
            Abandonment::Quiet => 0,
            Abandonment::ResetAndClear => 253,
        }
    }
}
