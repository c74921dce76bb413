// The inspector: whether a list, of whatever origin, gets the controller stuck.
ghost use Rattle.std.specs.Prelude.{◌≡◌};
ghost use Rattle.controller.specs.Model.{run_list, done};
ghost use Rattle.controller.specs.Verdicts.{willing, verdict_of, inspected};

use crate::place::{Move, Place};
use crate::{Commands, Phase};

fn inspect_from(list: Commands<'_>, phase: Phase) -> Option<Phase>
    ensures { result ≡ verdict_of (run_list 32 (record { words = list.entry.words; fifo = list.entry.fifo.now }) phase willing done) }
{
    let mut place = Place::first(list.fifo, phase)?;
    for word in list.words {
        match place.take_turn(command::decode(word)?) {
            Move::Halts => return None,
            Move::GoesOn(next) => place = next,
            Move::Finishes(after) => return Some(after),
        }
    }
    None
}

// The phase that a list leaves, from the phase of this number on; none where the controller gets stuck on it (14).
#[tactic(auto, unfolding(crate::specs::Verdicts::inspected, crate::specs::Model::in_phase))]
pub fn inspect(list: Commands<'_>, phase: u32) -> Option<Phase>
    ensures { result ≡ inspected 32 (record { words = list.entry.words; fifo = list.entry.fifo.now }) phase }
{
    inspect_from(list, Phase::numbered(phase)?)
}
