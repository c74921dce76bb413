// The names of refusals as text.
ghost use Rattle.std.specs.Prelude.{◌≡◌, ◌≤◌, length};
ghost use Rattle.sitankulo.specs.Answers.{told};
ghost use Rattle.sitankulo.specs.Names.{told_answer, told_text, name_of};

use crate::answer;
use refusal::Refusal;

// Kept: these are the C interface's numbers, and 8 to 11 are no `Refusal`, whose `name` has the other names.
#[tactic(auto, unfolding(crate::specs::Names::name_of))]
fn name_of(number: u8) -> &'static [u8]
    ensures { (result.now ≡ name_of number) × (length result.now ≤ 22) }
{
    match number {
        1 => b"AddressInvalid",
        2 => b"ZeroLengthInvalid",
        3 => b"FifoExceeded",
        4 => b"Version",
        5 => b"Shape",
        6 => b"Size",
        7 => b"Room",
        8 => b"ExecutionIncomplete",
        9 => b"AcknowledgeCheckFailed",
        10 => b"ArbitrationLost",
        11 => b"Timeout",
        12 => b"OutOfTurn",
        13 => b"ClockRange",
        14 => b"ListRefused",
        _ => b"",
    }
}

// Lays a name into the lent memory, where there is room for it.
// Kept: byte by byte. By `copy_from_slice` from names of many lengths the library for C needs `memmove`.
fn tell(name: &[u8], text: &mut [u8]) -> Result<u32, Refusal>
    requires { length name.now ≤ 22 }
    ensures value { told result ≡ told_answer name.now (length text.old) }
    ensures text_after { text.new ≡ told_text name.now text.old }
{
    let n = name.len();
    if n == 0 {
        return Ok(answer::NONE);
    }
    if text.len() < n {
        return Err(Refusal::Room);
    }
    for (i, byte) in name.iter().enumerate() {
        text[i] = *byte;
    }
    Ok(answer::pack(0, n as u8))
}

// The name of a refusal, as document 01 has it.
pub fn sitankulo_refusal_name(number: u8, text: &mut [u8]) -> u32
    ensures value { result ≡ told_answer (name_of number) (length text.old) }
    ensures text_after { text.new ≡ told_text (name_of number) text.old }
{
    answer::told(tell(name_of(number), text))
}
