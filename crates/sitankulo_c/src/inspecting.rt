// The inspector and the controller model.
ghost use Rattle.std.specs.Prelude.{◌≡◌};
ghost use Rattle.sitankulo.specs.Inspecting.{inspect_answer};
ghost use Rattle.sitankulo.specs.Modelling.{run_asked, ModelLeft};

// Whether a list gets the controller stuck.
#[unsafe(no_mangle)]
pub extern "C" fn sitankulo_inspect(words: &[u8], fifo: &[u8], phase: u32) -> u32
    ensures { result ≡ inspect_answer words.now fifo.now phase }
{
    sitankulo::inspecting::sitankulo_inspect(words, fifo, phase)
}

// Runs a list on the controller model, against a sensor.
#[unsafe(no_mangle)]
pub extern "C" fn sitankulo_model_run(
    words: &[u8],
    fifo: &[u8],
    phase: u32,
    sends: &[u8],
    refuses: usize,
    received: &mut [u8],
    events: &mut [u8],
) -> u32
    ensures { ModelLeft words.now (run_asked words.now fifo.now phase sends.now refuses)
        result received.old received.new events.old events.new }
{
    sitankulo::inspecting::sitankulo_model_run(words, fifo, phase, sends, refuses, received, events)
}
