// The bus clear, whose record travels in lent memory.
ghost use Rattle.sitankulo.specs.Clears.{fresh_call, step_call, ClearLeft};

// A fresh clear.
#[unsafe(no_mangle)]
pub extern "C" fn sitankulo_clear_fresh(
    clear: &mut [u8],
    pins: u8,
    time: u64,
    changes: &mut [u8],
) -> u32
    ensures { ClearLeft (fresh_call clear.old pins time changes.old)
        result clear.old clear.new changes.old changes.new }
{
    sitankulo::clears::sitankulo_clear_fresh(clear, pins, time, changes)
}

// One poll.
#[unsafe(no_mangle)]
pub extern "C" fn sitankulo_clear_step(
    clear: &mut [u8],
    pins: u8,
    time: u64,
    sda: u8,
    changes: &mut [u8],
) -> u32
    ensures { ClearLeft (step_call clear.old pins time sda changes.old)
        result clear.old clear.new changes.old changes.new }
{
    sitankulo::clears::sitankulo_clear_step(clear, pins, time, sda, changes)
}
