// What a question says of each moment. Lists, and the snapshots of a list, are counted from 1. The place of a snapshot is 8 times the
// list and the snapshot; a list is handed out at 8 times the list, and the transaction begins at 0.
ghost use Rattle.std.specs.Prelude.{◌<◌, ◌≤◌};

use outcome::Snapshot;
use transaction::{Deadline, Request, Settings};

// What is asked for: the answer; all that is told, and then the answer; begin alone, on each script of three bytes with this start.
#[derive(Clone, Copy)]
pub(super) enum Mode {
    Answer,
    Aloud,
    Starts,
}

// The clock is `start`, and `step` more for each place. A snapshot shows its list completed, but for up to four: an odd one is a place
// times 65536, the snapshot's bits times 256, and which of the eight commands are done, a bit each. The bytes that a list reads come from
// `seed`, and all are handed in, but for one list: `short` is a list times 256, and how many are missing. The transaction is given up at
// `abandon`.
#[derive(Drop)]
pub(super) struct Plan {
    pub(super) mode: Mode,
    address: u32,
    pub(super) settings: Settings,
    start: u64,
    step: u32,
    pub(super) busy: bool,
    pub(super) room: usize,
    seed: u8,
    short: u64,
    abandon: u64,
    odd: [u64; 4],
    ghost buffer_holds_room: { room ≤ 4096 },
}

// A question's numbers, in order.
pub(super) type Numbers = [u64; 15];

impl From<Numbers> for Plan {
    fn from(numbers: Numbers) -> Plan {
        let [
            mode,
            address,
            deadline,
            duration,
            start,
            step,
            busy,
            room,
            seed,
            short,
            abandon,
            a,
            b,
            c,
            d,
        ] = numbers;
        Plan {
            mode: match mode {
                1 => Mode::Aloud,
                2 => Mode::Starts,
                _ => Mode::Answer,
            },
            address: low_word(address),
            settings: Settings {
                deadline: match deadline {
                    0 => Deadline::None,
                    1 => Deadline::Fixed(duration),
                    _ => Deadline::PerByte(duration),
                },
            },
            start,
            step: low_word(step),
            busy: busy == 1,
            room: room.min(4096) as usize,
            seed: (seed % 256) as u8,
            short,
            abandon,
            odd: [a, b, c, d],
        }
    }
}

// Transfer complete and acknowledged, every command done.
const COMPLETED: u64 = 0x60FF;

fn low_word(number: u64) -> u32 {
    (number % 0x1_0000_0000) as u32
}

pub(super) fn place(list: u64, snapshot: u64) -> u64 {
    list % 0x1_0000 * 8 + snapshot % 8
}

// How many bytes a command reads.
fn read_by(word: u32) -> usize
    ensures { result < 256 }
{
    if word / 2048 == 3 {
        (word % 256) as usize
    } else {
        0
    }
}

impl Plan {
    pub(super) fn request<'a>(&self, script: &'a [u8]) -> Request<'a> {
        Request {
            address: self.address,
            script,
        }
    }

    pub(super) fn is_given_up(&self, place: u64) -> bool {
        self.abandon == place
    }

    pub(super) fn clock(&self, place: u64) -> u64 {
        let passed = u64::from(self.step) * u64::from(low_word(place));
        self.start.wrapping_add(passed)
    }

    // The bits and the done commands of the snapshot at a place.
    fn shown(&self, place: u64) -> u64 {
        let odd = self.odd.iter().find(|odd| **odd / 0x1_0000 == place);
        *odd.unwrap_or(&COMPLETED)
    }

    // What is seen at a place, of the list with these words.
    pub(super) fn snapshot(&self, place: u64, words: [u32; 8]) -> Snapshot {
        let shown = self.shown(place);
        let mut commands = words;
        let mut done = shown;
        for command in &mut commands {
            *command = *command % 0x8000_0000 + (done % 2) as u32 * 0x8000_0000;
            done /= 2;
        }
        outcome::unpack((shown / 256 % 256) as u8, commands, self.clock(place))
    }

    // How many bytes are handed in for the list with these words.
    pub(super) fn handed_in(&self, list: u64, words: &[u32; 8]) -> usize
        ensures { result ≤ 64 }
    {
        let mut wanted = 0usize;
        for word in words {
            wanted = wanted.saturating_add(read_by(*word));
        }
        if wanted > 64 {
            64
        } else if self.short / 256 != list {
            wanted
        } else {
            wanted.saturating_sub((self.short % 256) as usize)
        }
    }

    // The bytes that a list receives; none is 0.
    pub(super) fn received(&self, list: u64) -> [u8; 64] {
        let mut next = u64::from(self.seed) + list % 0x1_0000 * 13;
        let mut bytes = [0; 64];
        for byte in &mut bytes {
            *byte = (next % 255) as u8 + 1;
            next = next.wrapping_add(7);
        }
        bytes
    }
}
