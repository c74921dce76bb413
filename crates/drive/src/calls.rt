// A whole transaction: begin, then a list and its completion in turn.
use crate::plan::{self, Mode, Plan};
use crate::told::Told;
use list::CommandList;
use outcome::{Answer, Due, Outcome, Snapshot};
use refusal::Numbered;
use std::io::{self, Write};
use transaction::{Begun, Handing, Progress};

// What the next call is for.
// Kept: a match on it in one place, since a call's answer and not its caller says which is next.
#[derive(Clone, Copy)]
enum Next {
    List,
    Completion,
    Nothing,
}

// Where the transaction stands: the record as the calls left it, how many lists were handed out, the words of the last one, how many
// snapshots of it were seen, the last answer, and what has been told.
#[derive(Drop)]
struct Run<'a, W> {
    plan: &'a Plan,
    script: &'a [u8],
    progress: Progress,
    next: Next,
    lists: u64,
    words: [u32; 8],
    snapshots: u64,
    last: Answer,
    told: Told<'a, W>,
}

// More calls than any script needs.
const MOST_CALLS: usize = 16384;

// What the read buffer holds before the transaction.
const OLD: u8 = 0xEE;

// An answer that has no reason.
fn numbered(number: u8) -> Answer {
    Answer { number, reason: 0 }
}

fn begin(plan: &Plan, script: &[u8]) -> Begun {
    transaction::begin(
        Progress::default(),
        plan.settings,
        plan.request(script),
        plan.room,
        plan.busy,
        plan.clock(0),
    )
}

impl<'a, W: Write> Run<'a, W> {
    fn begin(plan: &'a Plan, script: &'a [u8], told: Told<'a, W>) -> io::Result<Run<'a, W>> {
        let begun = begin(plan, script);
        let mut run = Run {
            plan,
            script,
            progress: begun.progress,
            next: match begun.answer {
                Ok(_) => Next::List,
                Err(_) => Next::Nothing,
            },
            lists: 0,
            words: [0; 8],
            snapshots: 0,
            last: numbered(0),
            told,
        };
        run.answer(begun.answer.number())?;
        Ok(run)
    }

    // An answer without a reason is told, and is the last one so far.
    fn answer(&mut self, number: u8) -> io::Result<()> {
        self.last = numbered(number);
        self.told.tell(u64::from(number))
    }

    fn tell_list(&mut self, list: &CommandList, due: Due) -> io::Result<()> {
        self.told.tell_all(&list.words)?;
        self.told.tell(list.count as u64)?;
        self.told.tell_all(&list.fifo)?;
        self.told.tell(u64::from(due.is_some()))?;
        self.told.tell(due.unwrap_or(0))
    }

    fn hand_out(&mut self) -> io::Result<()> {
        let list = self.lists % 0x1_0000 + 1;
        let handed = transaction::next_list(
            self.progress,
            self.plan.settings,
            self.plan.request(self.script),
            self.plan.clock(plan::place(list, 0)),
        );
        self.progress = handed.progress;
        self.answer(handed.answer.number())?;
        let Ok(Handing::Listed) = handed.answer else {
            self.next = Next::Nothing;
            return Ok(());
        };
        self.next = Next::Completion;
        self.lists = list;
        self.words = handed.list.words;
        self.snapshots = 0;
        self.tell_list(&handed.list, handed.progress.due)
    }

    // The list that is out is given up, or looked at.
    fn follow(&mut self, buffer: &mut [u8]) -> io::Result<()> {
        let place = plan::place(self.lists, self.snapshots % 8 + 1);
        let snapshot = self.plan.snapshot(place, self.words);
        if self.plan.is_given_up(place) {
            self.abandon(snapshot)
        } else {
            self.complete(snapshot, buffer)
        }
    }

    fn abandon(&mut self, snapshot: Snapshot) -> io::Result<()> {
        let abandoned = transaction::abandon(self.progress, snapshot);
        self.progress = abandoned.progress;
        self.next = Next::Nothing;
        self.answer(abandoned.answer.number())
    }

    fn complete(&mut self, snapshot: Snapshot, buffer: &mut [u8]) -> io::Result<()> {
        let bytes = self.plan.received(self.lists);
        let count = self.plan.handed_in(self.lists, &self.words);
        let completed = transaction::complete(
            self.progress,
            self.plan.request(self.script),
            snapshot,
            &bytes[..count],
            buffer,
        );
        self.progress = completed.progress;
        self.snapshots = self.snapshots % 8 + 1;
        self.next = match completed.answer {
            Ok(Outcome::Done) => Next::List,
            Ok(Outcome::Pending) => Next::Completion,
            _ => Next::Nothing,
        };
        self.last = transaction::completion_answer(completed.answer);
        self.told.tell(u64::from(self.last.number))?;
        self.told.tell(u64::from(self.last.reason))
    }
}

// The whole read buffer is told at the end.
pub(super) fn answer<'a>(
    out: &'a mut impl Write,
    plan: &'a Plan,
    script: &'a [u8],
) -> io::Result<()> {
    let mut memory = [OLD; 4096];
    let buffer = &mut memory[..plan.room];
    let told = Told::nothing(out, matches!(plan.mode, Mode::Aloud));
    let mut run = Run::begin(plan, script, told)?;
    for _ in 0..MOST_CALLS {
        match run.next {
            Next::List => run.hand_out()?,
            Next::Completion => run.follow(buffer)?,
            Next::Nothing => break,
        }
    }
    let Run {
        mut told,
        last,
        lists,
        ..
    } = run;
    told.tell_all(buffer)?;
    told.print_answer(&last, lists)
}

// Begin alone, on every script of three bytes that starts with a given one.
pub(super) fn answer_starts(out: &mut impl Write, plan: &Plan, first: u8) -> io::Result<()> {
    let mut told = Told::nothing(out, false);
    for second in 0..=u8::MAX {
        for third in 0..=u8::MAX {
            let begun = begin(plan, &[first, second, third]);
            told.tell(u64::from(begun.answer.number()))?;
        }
    }
    told.print_answer(&numbered(0), 0)
}
