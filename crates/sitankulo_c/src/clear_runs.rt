// A run of the bus clear over a tape of samples.
ghost use Rattle.sitankulo.specs.ClearLayout.{decoded_of};
ghost use Rattle.sitankulo.specs.ClearRuns.{terms_of, run_call, RunLeft};

// Polls over a tape.
#[unsafe(no_mangle)]
pub extern "C" fn sitankulo_clear_run(
    clear: &mut [u8],
    pins: u8,
    reset: u8,
    start: u64,
    limit: u64,
    budget: usize,
    clocks: &[u64],
    levels: &[u8],
    changes: &mut [u8],
    report: &mut [u8],
) -> u32
    ensures { RunLeft (terms_of pins reset start limit budget)
        (run_call (decoded_of clear.old) (terms_of pins reset start limit budget) clocks.now levels.now changes.old report.old)
        result clear.old clear.new changes.old changes.new report.old report.new }
{
    sitankulo::clear_runs::sitankulo_clear_run(
        clear, pins, reset, start, limit, budget, clocks, levels, changes, report,
    )
}
