// What a snapshot of the controller means for a list.
ghost use Rattle.std.specs.Prelude.{◌≡◌, cond, Ok, Err};
ghost use Rattle.refusal.specs.declared.Refusal.TheVariants.{ListRefused};
ghost use Rattle.sitankulo.specs.Answers.{told};
ghost use Rattle.sitankulo.specs.Snapshots.{classified_answer, snapshot_answer};
ghost use Rattle.sitankulo.specs.Transactions.{misfit, snapshot_of};

use crate::answer;
use outcome::{Classified, Snapshot};
use refusal::Refusal;

// Bit 16 of an answer.
const POLLED: u32 = 0x1_0000;

// What is read off the controller, with the command words as bytes.
pub(crate) fn snapshot_of(bits: u8, commands: &[u8], time: u64) -> Result<Snapshot, Refusal>
    ensures { result ≡ cond (misfit commands.now) (Err ListRefused) (Ok (snapshot_of bits commands.now time)) }
{
    Ok(outcome::unpack(bits, answer::words_of(commands)?, time))
}

fn number(classified: Classified) -> u32
    ensures { result ≡ classified_answer classified }
{
    let told = outcome::Answer::from(classified.outcome);
    answer::pack(told.number, told.reason) + POLLED * u32::from(classified.polled)
}

fn classify(
    bits: u8,
    commands: &[u8],
    time: u64,
    polled: u8,
    limited: u8,
    due: u64,
) -> Result<u32, Refusal>
    ensures { told result ≡ snapshot_answer bits commands.now time polled limited due }
{
    let snapshot = snapshot_of(bits, commands, time)?;
    let due = (limited != 0).then_some(due);
    Ok(number(outcome::classify(snapshot, polled != 0, due)))
}

// What a snapshot means for a list by itself.
pub fn sitankulo_classify(
    bits: u8,
    commands: &[u8],
    time: u64,
    polled: u8,
    limited: u8,
    due: u64,
) -> u32
    ensures { result ≡ snapshot_answer bits commands.now time polled limited due }
{
    answer::told(classify(bits, commands, time, polled, limited, due))
}
