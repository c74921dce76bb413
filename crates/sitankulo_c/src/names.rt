// The names of refusals as text.
ghost use Rattle.std.specs.Prelude.{◌≡◌, length};
ghost use Rattle.sitankulo.specs.Names.{told_answer, told_text, name_of};

// The name of a refusal, as document 01 has it.
#[unsafe(no_mangle)]
pub extern "C" fn sitankulo_refusal_name(number: u8, text: &mut [u8]) -> u32
    ensures value { result ≡ told_answer (name_of number) (length text.old) }
    ensures text_after { text.new ≡ told_text (name_of number) text.old }
{
    sitankulo::names::sitankulo_refusal_name(number, text)
}
