// What a snapshot of the controller means for the list that it executes.
#![tactic(auto)]

ghost use Rattle.std.specs.Prelude.{◌≡◌};
ghost use Rattle.outcome.specs.declared.Outcome.{Outcome};
ghost use Rattle.outcome.specs.Packed.{unpacked};
ghost use Rattle.outcome.specs.Answers.{answer_of};
ghost use Rattle.outcome.specs.Outcomes.{unanswered_of, timed_out_of, errors_of, past_of, finished_of, forgive_timeout, and_then, poll_of, slots_of, commands_of, classify_of, received_of};

// Why a byte was not acknowledged.
#[derive(Clone, Copy)]
pub enum Reason {
    Address = 1,
    Data,
    Unknown,
}

// Refusals 8 to 11, which end a transaction.
#[derive(Clone, Copy)]
pub enum Error {
    ExecutionIncomplete,
    AcknowledgeCheckFailed(Reason),
    ArbitrationLost,
    Timeout,
}

// What a check or a poll finds. `Done` is success: no error, and nothing to wait for.
// Kept: three findings in one, as definitions `errors_of`, `poll_of` and `classify_of` have them.
#[derive(Clone, Copy)]
pub enum Outcome {
    Pending,
    Done,
    Failed(Error),
}

// What is read off the controller and the clock at one moment.
#[derive(Clone, Copy)]
pub struct Snapshot {
    pub nack: bool,
    pub arbitration_lost: bool,
    pub scl_st_to: bool,
    pub scl_main_st_to: bool,
    pub time_out: bool,
    pub resp_rec: bool,
    pub trans_complete: bool,
    pub end_detect: bool,
    pub commands: [u32; 8],
    pub now: u64,
}

// When a list is due, in microseconds, if ever.
pub type Due = Option<u64>;

// What a snapshot means for a list, and whether the list's poll has succeeded by now.
// Kept: `classify_of` promises both at once; after a poll that has succeeded the outcome may be any of the three.
#[derive(Drop)]
pub struct Classified {
    pub outcome: Outcome,
    pub polled: bool,
}

// An outcome by document 01's numbers.
// Kept: the C interface hands out these two numbers.
#[derive(Drop)]
pub struct Answer {
    pub number: u8,
    pub reason: u8,
}

// Kept: opcodes as `command::opcode` reads them, whatever the other bits are; a word need not be a command.
const STOP: u32 = 2;

const END: u32 = 4;

// A snapshot whose bits come packed into a byte, for callers that know no structs: nack is bit 0, end_detect is bit 7.
pub fn unpack(bits: u8, commands: [u32; 8], now: u64) -> Snapshot
    ensures { result ≡ unpacked bits commands now }
{
    let bit = |value: u8| bits / value % 2 == 1;
    Snapshot {
        nack: bit(1),
        arbitration_lost: bit(2),
        scl_st_to: bit(4),
        scl_main_st_to: bit(8),
        time_out: bit(16),
        resp_rec: bit(32),
        trans_complete: bit(64),
        end_detect: bit(128),
        commands,
        now,
    }
}

// The transfer has completed, and the last byte's acknowledge bit was not received as ACK.
fn is_unanswered(s: Snapshot) -> bool
    ensures { result ≡ unanswered_of s }
{
    s.trans_complete && !s.resp_rec
}

// One of the two state machines, or the bus, has timed out.
fn is_timed_out(s: Snapshot) -> bool
    ensures { result ≡ timed_out_of s }
{
    s.scl_st_to || s.scl_main_st_to || s.time_out
}

// The first error that holds.
#[tactic(auto, unfolding(crate::specs::Outcomes::errors_of))]
pub fn check_errors(s: Snapshot) -> Outcome
    ensures { result ≡ errors_of s }
{
    if s.nack {
        return Outcome::Failed(Error::AcknowledgeCheckFailed(Reason::Unknown));
    }
    if s.arbitration_lost {
        return Outcome::Failed(Error::ArbitrationLost);
    }
    if is_unanswered(s) {
        return Outcome::Failed(Error::AcknowledgeCheckFailed(Reason::Data));
    }
    if is_timed_out(s) {
        return Outcome::Failed(Error::Timeout);
    }
    Outcome::Done
}

// The clock is strictly past the deadline.
pub fn is_past(due: Due, now: u64) -> bool
    ensures { result ≡ past_of due now }
{
    due.is_some_and(|time| time < now)
}

// The controller has finished the list, or has halted at its END.
pub fn is_done(s: Snapshot) -> bool
    ensures { result ≡ finished_of s }
{
    s.trans_complete || s.end_detect
}

impl Outcome {
    // Done and timed out: the list has completed, and was looked at too late.
    fn forgive_timeout(self) -> Outcome
        ensures { result ≡ forgive_timeout self }
    {
        match self {
            Outcome::Failed(Error::Timeout) => Outcome::Done,
            other => other,
        }
    }

    // What follows a success; anything else stands.
    fn and_then<F: FnOnce() -> Outcome>(self, rest: F) -> Outcome
        requires { F.IsAlwaysCallable rest }
        ensures { (next : Outcome) → ((r : Outcome) → F.post rest r → r ≡ next) → result ≡ and_then self next }
    {
        match self {
            Outcome::Done => rest(),
            other => other,
        }
    }
}

// The wait for a list.
#[tactic(auto, unfolding(crate::specs::Outcomes::poll_of))]
pub fn poll_completion(s: Snapshot, due: Due) -> Outcome
    ensures { result ≡ poll_of s due }
{
    let error = check_errors(s);
    if is_done(s) {
        return error.forgive_timeout();
    }
    error.and_then(|| {
        if is_past(due, s.now) {
            Outcome::Failed(Error::Timeout)
        } else {
            Outcome::Pending
        }
    })
}

// The command slots in order, up to END or STOP; zeros are skipped. END itself need not be done: the controller does not mark it.
#[tactic(auto, unfolding(crate::specs::Outcomes::slots_of), using(crate::proofs::Laws::slots))]
fn walk_slots(commands: [u32; 8], past: bool) -> Outcome
    ensures { result ≡ slots_of past commands }
{
    for word in commands {
        if word == 0 {
            continue;
        }
        let opcode = command::opcode(word);
        if opcode == END {
            return Outcome::Done;
        }
        if !command::is_done(word) {
            if past {
                return Outcome::Failed(Error::ExecutionIncomplete);
            }
            return Outcome::Pending;
        }
        if opcode == STOP {
            return Outcome::Done;
        }
    }
    Outcome::Done
}

// The command check: errors again, and here a timeout counts; then every command up to the list's end has to be done.
#[tactic(auto, unfolding(crate::specs::Outcomes::commands_of))]
pub fn all_commands_done(s: Snapshot, due: Due) -> Outcome
    ensures { result ≡ commands_of s due }
{
    check_errors(s).and_then(|| walk_slots(s.commands, is_past(due, s.now)))
}

// What a snapshot means for a list whose poll has, or has not yet, succeeded.
#[tactic(auto, unfolding(crate::specs::Outcomes::classify_of))]
pub fn classify(s: Snapshot, polled: bool, due: Due) -> Classified
    ensures { result ≡ classify_of s polled due }
{
    let poll = if polled {
        Outcome::Done
    } else {
        poll_completion(s, due)
    };
    Classified {
        outcome: poll.and_then(|| all_commands_done(s, due)),
        polled: matches!(poll, Outcome::Done),
    }
}

// A read of `wanted` bytes for which `received` were handed in. Of more, the first are taken.
pub fn read_all_from_fifo(wanted: usize, received: usize) -> Outcome
    ensures { result ≡ received_of wanted received }
{
    if received < wanted {
        return Outcome::Failed(Error::ExecutionIncomplete);
    }
    Outcome::Done
}

// For callers that know no enums.
impl From<Outcome> for Answer {
    ghost from_gives = { λ outcome answer. answer ≡ answer_of outcome };

    fn from(outcome: Outcome) -> Answer {
        let (number, reason) = match outcome {
            Outcome::Done => (0, 0),
            Outcome::Failed(Error::ExecutionIncomplete) => (8, 0),
            Outcome::Failed(Error::AcknowledgeCheckFailed(reason)) => (9, reason as u8),
            Outcome::Failed(Error::ArbitrationLost) => (10, 0),
            Outcome::Failed(Error::Timeout) => (11, 0),
            Outcome::Pending => (255, 0),
        };
        Answer { number, reason }
    }
}
