// A transaction by numbers and byte slices. Its record is lent as `state`.
ghost use Rattle.std.specs.Prelude.{◌≡◌, cond, length};
ghost use Rattle.std.proofs.Math.Seq.{paste};
ghost use Rattle.script.specs.Scripts.{script_of};
ghost use Rattle.wire.specs.Numbers.{word_bytes};
ghost use Rattle.sitankulo.specs.Transactions.{number_in, succeeds, goes_ahead, renewed, begun_for, begin_answer, handed_for, next_answer, completed_for, landed_for, tells, complete_answer, abandoned_for, abandon_answer};

// Accepts a script.
#[unsafe(no_mangle)]
pub extern "C" fn sitankulo_begin(
    state: &mut [u8],
    deadline: u8,
    duration: u64,
    address: u32,
    script: &[u8],
    room: usize,
    busy: u8,
    time: u64,
) -> u32
    ensures { (result ≡ begin_answer deadline (length state.old)
        (begun_for deadline duration address script.now room busy time))
        × (state.new ≡ cond (goes_ahead result) (renewed state.old
        (begun_for deadline duration address script.now room busy time).progress) state.old) }
{
    sitankulo::transactions::sitankulo_begin(
        state, deadline, duration, address, script, room, busy, time,
    )
}

// The next list.
#[unsafe(no_mangle)]
pub extern "C" fn sitankulo_next(
    state: &mut [u8],
    deadline: u8,
    duration: u64,
    address: u32,
    script: &[u8],
    time: u64,
    words: &mut [u8],
    fifo: &mut [u8],
) -> u32
    ensures { (result ≡ next_answer deadline state.old (script_of address script.now)
        (handed_for state.old deadline duration address script.now time)
        (length words.old) (length fifo.old))
        × (state.new ≡ cond (succeeds result) (renewed state.old
        (handed_for state.old deadline duration address script.now time).progress) state.old)
        × (words.new ≡ cond (succeeds result) (paste words.old 0
        (word_bytes (handed_for state.old deadline duration address script.now time).list.words) 32)
        words.old)
        × (fifo.new ≡ cond (succeeds result) (paste fifo.old 0
        (handed_for state.old deadline duration address script.now time).list.fifo
        (handed_for state.old deadline duration address script.now time).list.count)
        fifo.old) }
{
    sitankulo::transactions::sitankulo_next(
        state, deadline, duration, address, script, time, words, fifo,
    )
}

// What became of the outstanding list.
#[unsafe(no_mangle)]
pub extern "C" fn sitankulo_complete(
    state: &mut [u8],
    address: u32,
    script: &[u8],
    bits: u8,
    commands: &[u8],
    time: u64,
    received: &[u8],
    buffer: &mut [u8],
) -> u32
    ensures { (result ≡ complete_answer state.old commands.now (script_of address script.now)
        (completed_for state.old address script.now bits commands.now time received.now
        buffer.old))
        × (state.new ≡ cond (tells (number_in result)) (renewed state.old
        (completed_for state.old address script.now bits commands.now time received.now
        buffer.old).progress) state.old)
        × (buffer.new ≡ cond (succeeds result)
        (landed_for state.old address script.now bits commands.now time received.now
        buffer.old) buffer.old) }
{
    sitankulo::transactions::sitankulo_complete(
        state, address, script, bits, commands, time, received, buffer,
    )
}

// Gives the transaction up.
#[unsafe(no_mangle)]
pub extern "C" fn sitankulo_abandon(state: &mut [u8], bits: u8, commands: &[u8], time: u64) -> u32
    ensures { (result ≡ abandon_answer state.old commands.now
        (abandoned_for state.old bits commands.now time))
        × (state.new ≡ cond (goes_ahead result) (renewed state.old
        (abandoned_for state.old bits commands.now time).progress) state.old) }
{
    sitankulo::transactions::sitankulo_abandon(state, bits, commands, time)
}
