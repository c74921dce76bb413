// The words of a command list while it is built.
ghost use Rattle.std.specs.Prelude.{◌≡◌, ℕ, ◌+◌, ◌≤◌, ◌<◌, [], ◌∷◌, ◌++◌, map, length};
ghost use Rattle.command.specs.Word.{encode_of};
ghost use Rattle.list.specs.Lists.{closing, receiving, padded};

use command::Command;
use std::marker::Model;

// The first `filled` words are set, and the others are 0. Each way to a list closes its table for itself: the compiler then knows all
// places. Where ways meet before the end it does not, and a list takes some thirty instructions more.
// Kept: words and how many are set, of fixed size, since a library has no heap; what is handed out are all eight words.
#[derive(Drop)]
pub(super) struct Table {
    words: [u32; 8],
    filled: usize,
}

// Clauses see the words that are set.
impl Model for Table {
    ghost use Rattle.std.specs.Prelude.{ℕ, List, take};
    ghost use Rattle.list.specs.Tables.{Filled};

    ghost Value = { List ℕ };

    ghost view = { λ table. take table.filled table.words };

    ghost invariant = { λ table. Filled 8 table.filled table.words };
}

impl Table {
    #[tactic(auto, unfolding(crate::specs::Lists::padded))]
    pub(super) fn new() -> Table
        ensures { result ≡ [] }
    {
        Table {
            words: [0; 8],
            filled: 0,
        }
    }

    pub(super) fn push(&mut self, command: Command)
        requires { length self.old < 8 }
        ensures { self.new ≡ self.old ++ encode_of command ∷ [] }
    {
        self.words[self.filled] = command::encode(command);
        self.filled += 1;
    }

    // At END the controller halts and holds the bus for the list that follows. A list that did not start the run has END after its STOP
    // too: without it the controller does not report that it is done.
    pub(super) fn close(&mut self, start: bool, stop: bool)
        requires { length self.old + 2 ≤ 8 }
        ensures { self.new ≡ self.old ++ map encode_of (closing start stop) }
    {
        if !stop {
            self.push(Command::End);
            return;
        }
        self.push(Command::Stop);
        if !start {
            self.push(Command::End);
        }
    }

    // Receives n bytes, and closes. The last byte of a run is answered with NACK, so that the sensor releases the bus.
    pub(super) fn receive(&mut self, n: usize, start: bool, stop: bool, continues: bool)
        requires { (length self.old + 4 ≤ 8) × (1 ≤ n) × (n ≤ 32) }
        ensures { self.new ≡ self.old ++ map encode_of (receiving n continues ++ closing start stop) }
    {
        if continues {
            self.push(Command::Read(n as u8));
            return self.close(start, stop);
        }
        if n == 1 {
            self.push(Command::ReadNack);
            return self.close(start, stop);
        }
        self.push(Command::Read((n - 1) as u8));
        self.push(Command::ReadNack);
        self.close(start, stop)
    }

    pub(super) fn words(self) -> [u32; 8]
        ensures { result ≡ padded 8 self }
    {
        self.words
    }
}
