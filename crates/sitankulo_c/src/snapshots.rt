// What a snapshot of the controller means for a list.
ghost use Rattle.std.specs.Prelude.{◌≡◌};
ghost use Rattle.sitankulo.specs.Snapshots.{snapshot_answer};

// What a snapshot means for a list by itself.
#[unsafe(no_mangle)]
pub extern "C" fn sitankulo_classify(
    bits: u8,
    commands: &[u8],
    time: u64,
    polled: u8,
    limited: u8,
    due: u64,
) -> u32
    ensures { result ≡ snapshot_answer bits commands.now time polled limited due }
{
    sitankulo::snapshots::sitankulo_classify(bits, commands, time, polled, limited, due)
}
