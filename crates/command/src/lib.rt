// Command words: what the driver asks of the controller, one 32-bit word a command.
#![tactic(auto)]

ghost use Rattle.std.specs.Prelude.{◌≡◌};
ghost use Rattle.command.specs.Word.{encode_of, meaning_of, opcode_of, done_of};

// A command that the driver plans. A count is 1 to 255.
#[derive(Clone, Copy)]
pub enum Command {
    Start,
    Write(u8),
    Read(u8),
    ReadNack,
    Stop,
    End,
}

// The word of a command, as `add_cmd` writes it.
// Kept: encode and decode are a pair by name; as a TryFrom, decode would need an error type that says no more than None.
pub fn encode(command: Command) -> u32
    ensures { result ≡ encode_of command }
{
    match command {
        Command::Start => 0x3000,
        Command::Write(n) => 0x0900 + n as u32,
        Command::Read(n) => 0x1800 + n as u32,
        Command::ReadNack => 0x1C01,
        Command::Stop => 0x1000,
        Command::End => 0x2000,
    }
}

// The command that a word asks for, unless it is malformed. A word with its done bit set has been executed and is no command any more.
#[tactic(auto, unfolding(crate::specs::Word::meaning_of, crate::specs::Word::within))]
pub fn decode(word: u32) -> Option<Command>
    ensures { result ≡ meaning_of word }
{
    match word {
        0x3000 => Some(Command::Start),
        0x1C01 => Some(Command::ReadNack),
        0x1000 => Some(Command::Stop),
        0x2000 => Some(Command::End),
        0x0901..=0x09FF => Some(Command::Write((word - 0x0900) as u8)),
        0x1801..=0x18FF => Some(Command::Read((word - 0x1800) as u8)),
        _ => None,
    }
}

// The opcode as the command check reads it, whatever the other bits are.
pub fn opcode(word: u32) -> u32
    ensures { result ≡ opcode_of word }
{
    word / 2048 % 8
}

// The done bit, which the controller sets.
pub fn is_done(word: u32) -> bool
    ensures { result ≡ done_of word }
{
    word / 0x8000_0000 % 2 == 1
}
