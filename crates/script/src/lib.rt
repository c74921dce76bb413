// A script says in bytes which operations a transaction consists of.
#![tactic(auto)]

ghost use Rattle.std.specs.Prelude.{◌≡◌, ◌≤◌, length};
ghost use Rattle.script.specs.Records.{record_of, record_size, record_at, records_of};
ghost use Rattle.script.specs.Scripts.{told_of, body_of, script_of};

use refusal::Refusal;

// What stands at a place of a script.
// Kept: definition record_of has these four in one; as a Result of an Option each match on them would be of three layers.
#[derive(Drop)]
pub enum Record {
    Write(u16),
    Read(u16),
    Bad,
    End,
}

// The record at a place, and the place after it; a bad record and the end are not passed.
#[derive(Drop)]
pub struct Step {
    pub found: Record,
    pub next: usize,
}

const VERSION: u8 = 1;

// The length of a record in two bytes, and its kind.
const RECORD_HEADER: usize = 3;

// Kept: a record's kind is a byte of the script.
const WRITE: u8 = 0;

const READ: u8 = 1;

// No body is longer, and no more bytes are read in all.
const MOST: usize = 4096;

// Addresses are of seven bits.
const LAST_ADDRESS: u32 = 127;

// The record that stands in front.
#[tactic(auto, unfolding(crate::specs::Records::record_of))]
fn first_record(bytes: &[u8]) -> Record
    ensures { result ≡ record_of bytes.now }
{
    match bytes {
        [] => Record::End,
        [high, low, READ, ..] => Record::Read(u16::from_be_bytes([*high, *low])),
        [high, low, WRITE, rest @ ..] => {
            let length = u16::from_be_bytes([*high, *low]);
            if rest.len() < length as usize {
                return Record::Bad;
            }
            Record::Write(length)
        }
        _ => Record::Bad,
    }
}

impl Record {
    // How many bytes it takes; a bad record and the end are not passed.
    fn size(&self) -> usize
        ensures { result ≡ record_size self.now }
    {
        match self {
            Record::Write(length) => RECORD_HEADER + *length as usize,
            Record::Read(_) => RECORD_HEADER,
            Record::Bad | Record::End => 0,
        }
    }
}

// The cursor over records: from one place to the next.
// Kept: no iterator, since definition `record_at` is about any place of any bytes, and callers ask for the place too.
#[tactic(auto, unfolding(crate::specs::Records::record_at), using(crate::proofs::LawsWalk::step_end, crate::proofs::LawsWalk::size_there))]
pub fn next_record(script: &[u8], at: usize) -> Step
    ensures { result ≡ record_at script.now at }
{
    let Some(rest) = script.get(at..) else {
        return Step {
            found: Record::End,
            next: at,
        };
    };
    let found = first_record(rest);
    Step {
        next: at + found.size(),
        found,
    }
}

// The body's records, up to the first bad one.
// Kept: a loop over the cursor, which counts no index: the end is one of its four answers.
#[tactic(auto, using(crate::proofs::LawsWalk::steps))]
fn read_body(body: &[u8]) -> Result<usize, Refusal>
    requires { length body.now ≤ 4096 }
    ensures { result ≡ told_of (body_of (records_of body.now)) }
{
    let mut at = 0;
    let mut total = 0;
    loop {
        let step = next_record(body, at);
        at = step.next;
        match step.found {
            Record::End if total > MOST => return Err(Refusal::Size),
            Record::End => return Ok(total),
            Record::Bad => return Err(Refusal::Shape),
            Record::Write(_) => {}
            Record::Read(length) => total += length as usize,
        }
    }
}

// How many bytes a script reads, or its refusal: document 01's order, up to the read total.
#[tactic(auto, unfolding(crate::specs::Scripts::script_of))]
pub fn read_script(address: u32, script: &[u8]) -> Result<usize, Refusal>
    ensures { result ≡ told_of (script_of address script.now) }
{
    if address > LAST_ADDRESS {
        return Err(Refusal::AddressInvalid);
    }
    let [version, high, low, body @ ..] = script else {
        return Err(Refusal::Shape);
    };
    if *version != VERSION {
        return Err(Refusal::Version);
    }
    let field = u16::from_be_bytes([*high, *low]) as usize;
    if field > MOST {
        return Err(Refusal::Size);
    }
    if field != body.len() {
        return Err(Refusal::Shape);
    }
    read_body(body)
}
