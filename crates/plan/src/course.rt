// The lists of a script one after another, each run on the controller model and completed, so that the next one comes.
use crate::listing::{print_heading, print_list};
use crate::refusals;
use arrayvec::ArrayVec;
use controller::model::Sensor;
use controller::{Commands, model};
use list::CommandList;
use outcome::Outcome;
use std::io::Write;
use std::{array, io};
use transaction::{Handing, Progress, Request, Settings};

// The bytes of the FIFO, and the bytes that one list may receive.
const FIFO: usize = 32;

// Room for the events of any transaction, two bytes each: a script writes and reads at most 8,189 bytes in at most 1,366 records, and each
// record brings at most a START and an address. With the STOP that is 10,922 events.
pub(super) type Events = ArrayVec<u8, 32768>;

// Room for the events of a list: eight words, 32 FIFO bytes and 32 received bytes cause at most 72.
const ROOM: usize = 144;

// No script has as many lists.
const MOST_LISTS: usize = 4096;

// In a snapshot of a list that has run: the last byte was acknowledged, the transfer is complete, the end is detected.
const COMPLETED: u8 = 0xE0;

const DONE: u32 = 0x8000_0000;

// How far the lists have come: the record, how many lists there were, the phase that they leave, the byte that the sensor sends next,
// what was read, and the events so far, two bytes each as the model lays them. What is large is lent.
#[derive(Drop)]
pub(super) struct Course<'a, 'm> {
    request: Request<'a>,
    settings: Settings,
    progress: Progress,
    pub(super) lists: usize,
    phase: u32,
    sends: u8,
    buffer: &'m mut [u8],
    events: &'m mut Events,
}

fn done(word: u32) -> u32 {
    if word == 0 { 0 } else { word | DONE }
}

impl<'a, 'm> Course<'a, 'm> {
    pub(super) fn new(
        progress: Progress,
        settings: Settings,
        request: Request<'a>,
        buffer: &'m mut [u8],
        events: &'m mut Events,
    ) -> Course<'a, 'm> {
        Course {
            request,
            settings,
            progress,
            lists: 0,
            phase: 0,
            sends: 0,
            buffer,
            events,
        }
    }

    // Runs a list, and answers what it receives of a sensor that sends a byte more each time.
    fn run_list(&mut self, list: Commands<'_>) -> ArrayVec<u8, FIFO> {
        let first = self.sends;
        let sends: [u8; FIFO] = array::from_fn(|i| first.wrapping_add(i as u8));
        let sensor = Sensor {
            sends: &sends,
            refuses: 0,
        };
        let mut received = ArrayVec::from([0; FIFO]);
        let mut events = [0; ROOM];
        let report = model::run(
            list,
            self.phase,
            sensor,
            received.as_mut_slice(),
            &mut events,
        );
        let (laid, _) = events.split_at(2 * report.events.min(ROOM / 2));
        let _fits = self.events.try_extend_from_slice(laid);
        received.truncate(report.received);
        self.sends = first.wrapping_add(received.len() as u8);
        received
    }

    // Prints, runs and completes a list, and says whether the transaction goes on.
    fn carry_out(&mut self, out: &mut impl Write, list: &CommandList) -> io::Result<bool> {
        self.lists = self.lists.saturating_add(1);
        let commands = Commands {
            words: list.words,
            fifo: &list.fifo[..list.count.min(FIFO)],
        };
        let phase = print_list(out, self.lists, commands, self.progress.due, self.phase)?;
        let received = self.run_list(commands);
        self.phase = phase;
        let snapshot = outcome::unpack(COMPLETED, list.words.map(done), 0);
        let completed = transaction::complete(
            self.progress,
            self.request,
            snapshot,
            received.as_slice(),
            self.buffer,
        );
        self.progress = completed.progress;
        Ok(matches!(completed.answer, Ok(Outcome::Done)))
    }

    // Takes the next list, and says whether there may be one more.
    fn take_turn(&mut self, out: &mut impl Write) -> io::Result<bool> {
        let handed = transaction::next_list(self.progress, self.settings, self.request, 0);
        match handed.answer {
            Ok(Handing::NoneLeft) => Ok(false),
            Ok(Handing::Listed) => {
                self.progress = handed.progress;
                self.carry_out(out, &handed.list)
            }
            Err(refusal) => {
                print_heading(out, self.lists.saturating_add(1))?;
                refusals::print_refusal(out, refusal, self.request.script)?;
                Ok(false)
            }
        }
    }

    // Takes all lists.
    pub(super) fn run(&mut self, out: &mut impl Write) -> io::Result<()> {
        for _ in 0..MOST_LISTS {
            if !self.take_turn(out)? {
                break;
            }
        }
        Ok(())
    }
}
