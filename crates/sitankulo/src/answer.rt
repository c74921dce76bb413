// The numbers that calls answer.
ghost use Rattle.std.specs.Prelude.{◌≡◌, ◌≤◌, cond, eqb, length, Ok, Err};
ghost use Rattle.refusal.specs.declared.Refusal.TheVariants.{ListRefused};
ghost use Rattle.outcome.specs.Packed.{bit_of};
ghost use Rattle.wire.specs.Numbers.{words_of};
ghost use Rattle.sitankulo.specs.Answers.{packed, told};

use refusal::{Numbered, Refusal};

// The bytes of eight command words.
pub(crate) const WORDS: usize = 32;

// An answer that is no refusal: there is nothing to tell.
pub(crate) const NONE: u32 = 254;

// A number, and what a call says of its answer.
pub(crate) fn pack(number: u8, detail: u8) -> u32
    ensures { result ≡ packed number detail }
{
    u32::from(number) + 256 * u32::from(detail)
}

// The number for C: a call's answer, or the number of its refusal.
pub(crate) fn told(answer: Result<u32, Refusal>) -> u32
    ensures { result ≡ told answer }
{
    match answer {
        Ok(number) => number,
        Err(refusal) => u32::from(refusal.number()),
    }
}

// Whether the flag of this weight is set.
pub(crate) fn bit(flags: u8, weight: u8) -> bool
    requires { 1 ≤ weight }
    ensures { result ≡ bit_of weight flags }
{
    flags / weight % 2 == 1
}

// The command words, which are 32 bytes.
pub(crate) fn words_of(bytes: &[u8]) -> Result<[u32; 8], Refusal>
    ensures { result ≡ cond (eqb (length bytes.now) 32) (Ok (words_of bytes.now)) (Err ListRefused) }
{
    if bytes.len() != WORDS {
        return Err(Refusal::ListRefused);
    }
    Ok(wire::words_of(bytes))
}
