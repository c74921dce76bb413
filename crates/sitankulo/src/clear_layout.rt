// A bus clear as bytes: its state, the clocks that are left, and the time until which levels are held.
ghost use Rattle.std.specs.Prelude.{◌≡◌, ◌≤◌, length};
ghost use Rattle.std.proofs.Math.Seq.{paste};
ghost use Rattle.sitankulo.specs.ClearLayout.{state_byte, clocks_byte, clear_bytes, decoded_of};

use bus_clear::{BusClear, State};

// The bytes of a clear, and where its time stands.
pub(crate) const SIZE: usize = 10;

const WAIT: usize = 2;

fn state_byte(state: State) -> u8
    ensures { result ≡ state_byte state }
{
    match state {
        State::Idle => 0,
        State::SendStop => 1,
        State::SendClock(_, high) => 2 + u8::from(high),
    }
}

fn clocks_byte(state: State) -> u8
    ensures { result ≡ clocks_byte state }
{
    match state {
        State::Idle | State::SendStop => 0,
        State::SendClock(n, _) => n,
    }
}

// Lays a clear into the memory.
pub(crate) fn put_clear(clear: BusClear, memory: &mut [u8])
    requires { 10 ≤ length memory.old }
    ensures { memory.new ≡ paste memory.old 0 (clear_bytes clear) 10 }
{
    wire::put_time(clear.wait, WAIT, memory);
    memory[0] = state_byte(clear.state);
    memory[1] = clocks_byte(clear.state);
}

// A clear that is read back, unless no call wrote the memory so.
#[tactic(auto, unfolding(crate::specs::ClearLayout::decoded_of, crate::specs::ClearLayout::decoded_from))]
pub(crate) fn decode(memory: &[u8]) -> Option<BusClear>
    ensures { result ≡ decoded_of memory.now }
{
    if memory.len() < SIZE {
        return None;
    }
    let state = match (memory[0], memory[1]) {
        (0, 0) => State::Idle,
        (1, 0) => State::SendStop,
        (2, clocks) => State::SendClock(clocks, false),
        (3, clocks) => State::SendClock(clocks, true),
        _ => return None,
    };
    let wait = wire::time_at(memory, WAIT);
    Some(BusClear { state, wait })
}
