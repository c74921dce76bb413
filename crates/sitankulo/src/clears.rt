// The bus clear, whose record travels in lent memory.
ghost use Rattle.std.specs.Prelude.{◌≡◌, ◌≤◌, length, Ok};
ghost use Rattle.std.proofs.Math.Seq.{paste};
ghost use Rattle.sitankulo.specs.Answers.{told};
ghost use Rattle.sitankulo.specs.Clears.{fresh_told, poll_told, roomed, fresh_call, step_call, ClearLeft};

use crate::{answer, clear_layout};
use bus_clear::{Answer, BusClear, Pins};
use refusal::Refusal;

// What a call tells where there is room for it: a number, the clear that it leaves and its pin changes.
#[derive(Drop)]
struct Telling {
    number: u8,
    next: BusClear,
    pins: Pins,
}

const PENDING: u8 = 255;

// Puts pin changes in front.
// Kept: one by one. Two at most, they miss the speed by `copy_from_slice`: 124 instructions for a poll in place of 104.
fn put(made: &[u8], changes: &mut [u8])
    requires { (length made.now ≤ 2) × (length made.now ≤ length changes.old) }
    ensures { changes.new ≡ paste changes.old 0 made.now (length made.now) }
{
    match *made {
        [] => {}
        [only] => changes[0] = only,
        [first, second, ..] => {
            changes[0] = first;
            changes[1] = second;
        }
    }
}

// Lays what is told into the lent memory, where there is room for it.
#[tactic(auto, using(crate::proofs::LawsClears::few_changes))]
fn lay(telling: Telling, clear: &mut [u8], changes: &mut [u8]) -> Result<u32, Refusal>
    ensures { ClearLeft (roomed (Ok telling) clear.old changes.old)
        (told result) clear.old clear.new changes.old changes.new }
{
    let made = telling.pins.bytes();
    if clear.len() < clear_layout::SIZE || changes.len() < made.len() {
        return Err(Refusal::Room);
    }
    clear_layout::put_clear(telling.next, clear);
    put(made, changes);
    Ok(answer::pack(telling.number, made.len() as u8))
}

fn tell_poll(told: Answer, next: BusClear) -> Result<Telling, Refusal>
    ensures { result ≡ poll_told told next }
{
    let (number, pins) = match told {
        Answer::Ready => (0, Pins::Still),
        Answer::Pending(pins) => (PENDING, pins),
        Answer::ClockRange => return Err(Refusal::ClockRange),
    };
    Ok(Telling { number, next, pins })
}

fn step(clear: &mut [u8], pins: u8, time: u64, sda: u8, changes: &mut [u8]) -> Result<u32, Refusal>
    ensures { ClearLeft (step_call clear.old pins time sda changes.old)
        (told result) clear.old clear.new changes.old changes.new }
{
    let held = clear_layout::decode(clear).ok_or(Refusal::Shape)?;
    let stepped = bus_clear::step(held, pins != 0, time, sda != 0);
    lay(tell_poll(stepped.answer, stepped.next)?, clear, changes)
}

// A fresh clear.
pub fn sitankulo_clear_fresh(clear: &mut [u8], pins: u8, time: u64, changes: &mut [u8]) -> u32
    ensures { ClearLeft (fresh_call clear.old pins time changes.old)
        result clear.old clear.new changes.old changes.new }
{
    let begun = bus_clear::fresh(pins != 0, time);
    let telling = Telling {
        number: 0,
        next: begun.clear,
        pins: begun.pins,
    };
    answer::told(lay(telling, clear, changes))
}

// One poll.
pub fn sitankulo_clear_step(
    clear: &mut [u8],
    pins: u8,
    time: u64,
    sda: u8,
    changes: &mut [u8],
) -> u32
    ensures { ClearLeft (step_call clear.old pins time sda changes.old)
        result clear.old clear.new changes.old changes.new }
{
    answer::told(step(clear, pins, time, sda, changes))
}
