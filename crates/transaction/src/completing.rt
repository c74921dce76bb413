// What becomes of the outstanding list: the record after it, and the bytes that it received.
ghost use Rattle.std.specs.Prelude.{◌≡◌, cond, ◌+◌, ◌≤◌, length};
ghost use Rattle.std.proofs.Math.Seq.{paste};
ghost use Rattle.outcome.specs.Outcomes.{received_of};
ghost use Rattle.transaction.specs.Walk.{takes, lands_at};
ghost use Rattle.transaction.specs.Calls.{failing, told_as, succeeded, complete_of, buffer_of};

use crate::walk::{self, Found};
use crate::{Progress, Request};
use outcome::{Error, Outcome, Snapshot};
use refusal::Refusal;

impl Progress {
    pub(crate) fn fail(&mut self)
        ensures { self.new ≡ failing self.old }
    {
        *self = Progress {
            outstanding: false,
            due: None,
            polled: false,
            failed: true,
            ..*self
        };
    }

    // The record after what was told of the outstanding list, which is waited for further, has failed or is completed.
    fn settle(&mut self, told: Outcome, polled: bool)
        requires { self.old.place ≤ 1073741824 }
        ensures { record { answer = Ok told; progress = self.new } ≡ told_as told polled Outcome.Done self.old }
    {
        match told {
            Outcome::Pending => self.polled = polled,
            Outcome::Failed(_) => self.fail(),
            Outcome::Done => {
                *self = Progress {
                    place: self.place + 1,
                    outstanding: false,
                    due: None,
                    polled: false,
                    ..*self
                };
            }
        }
    }
}

// A read's bytes have to be there; then they land in the read buffer.
// Kept: byte by byte. By `copy_from_slice` between two memories that C lends, the library for C needs `memmove`.
fn land(found: Found, received: &[u8], buffer: &mut [u8]) -> Outcome
    requires { lands_at found + takes found ≤ length buffer.old }
    ensures { (result ≡ received_of (takes found) (length received.now))
        × (buffer.new ≡ cond (succeeded (Ok result)) (paste buffer.old (lands_at found) received.now (takes found))
        buffer.old) }
{
    if let Found::Read {
        length,
        landing,
        ..
    } = found
    {
        if received.len() < length {
            return Outcome::Failed(Error::ExecutionIncomplete);
        }
        for (i, byte) in received[..length].iter().enumerate() {
            buffer[landing + i] = *byte;
        }
    }
    Outcome::Done
}

// Completes the list at the record's place; a refusal keeps the record and the read buffer.
pub(crate) fn complete(
    progress: &mut Progress,
    request: Request<'_>,
    snapshot: Snapshot,
    received: &[u8],
    buffer: &mut [u8],
) -> Result<Outcome, Refusal>
    ensures { (record { answer = result; progress = progress.new }
        ≡ complete_of progress.old request.entry.address request.entry.script.now snapshot received.now buffer.old)
        × (buffer.new
        ≡ buffer_of progress.old request.entry.address request.entry.script.now snapshot received.now buffer.old) }
{
    let total = script::read_script(request.address, request.script)?;
    let found = walk::locate(request.script, progress.place);
    if found.is_misplaced(progress.outstanding) {
        return Err(Refusal::Shape);
    }
    if !progress.outstanding {
        return Err(Refusal::OutOfTurn);
    }
    if buffer.len() < total {
        return Err(Refusal::Room);
    }
    let classified = outcome::classify(snapshot, progress.polled, progress.due);
    let told = match classified.outcome {
        Outcome::Done => land(found, received, buffer),
        undone => undone,
    };
    progress.settle(told, classified.polled);
    Ok(told)
}
