// Numbers in lent byte slices, big-endian.
#![tactic(auto)]

ghost use Rattle.std.specs.Prelude.{◌≡◌, cond, ◌&&◌, ◌+◌, ◌*◌, ◌≤◌, length, replicate, leb};
ghost use Rattle.std.proofs.Math.Seq.{paste};
ghost use Rattle.wire.specs.Numbers.{word_bytes, time_bytes, times_bytes, word_at, time_at, words_of};

const WORD: usize = 4;

const WORDS: usize = 32;

const TIME: usize = 8;

#[tactic(auto, unfolding(crate::specs::Numbers::word_at))]
fn word_at(bytes: &[u8], at: usize) -> u32
    requires { at + 4 ≤ length bytes.now }
    ensures { result ≡ word_at bytes.now at }
{
    u32::from_be_bytes([bytes[at], bytes[at + 1], bytes[at + 2], bytes[at + 3]])
}

// The eight words in front, where there are so many; else zeros.
pub fn words_of(bytes: &[u8]) -> [u32; 8]
    ensures { result ≡ cond (leb 32 (length bytes.now)) (words_of bytes.now) (replicate 8 0) }
{
    if bytes.len() < WORDS {
        return [0; 8];
    }
    std::array::from_fn(|i| word_at(bytes, i * WORD))
}

// The number of eight bytes at a place, where there are so many; else 0.
pub fn time_at(bytes: &[u8], at: usize) -> u64
    ensures { result ≡ cond (leb (at + 8) (length bytes.now)) (time_at bytes.now at) 0 }
{
    let Some(rest) = bytes.get(at..) else {
        return 0;
    };
    let Some(time) = rest.first_chunk() else {
        return 0;
    };
    u64::from_be_bytes(*time)
}

// Puts eight words in front, where there is room for them.
// Kept: a loop here and one in `put_times`: no proof covers a bound `Fn(T) -> [u8; N]` yet, and a trait is longer than both loops.
pub fn put_words(words: [u32; 8], out: &mut [u8])
    ensures { out.new
        ≡ cond (leb 32 (length out.old)) (paste out.old 0 (word_bytes words) 32) out.old }
{
    if WORDS <= out.len() {
        for (i, word) in words.iter().enumerate() {
            out[i * WORD..(i + 1) * WORD].copy_from_slice(&word.to_be_bytes());
        }
    }
}

// Puts a number of eight bytes at a place, where there is room for it.
pub fn put_time(time: u64, at: usize, out: &mut [u8])
    ensures { out.new
        ≡ cond (leb (at + 8) (length out.old)) (paste out.old at (time_bytes time) 8) out.old }
{
    if at <= out.len() && TIME <= out.len() - at {
        out[at..at + TIME].copy_from_slice(&time.to_be_bytes());
    }
}

// Puts numbers of eight bytes in front, one after another, where there is room for them.
pub fn put_times(times: &[u64], out: &mut [u8])
    ensures { out.new
        ≡ cond (leb (length times.now * 8) (length out.old))
        (paste out.old 0 (times_bytes times.now) (length times.now * 8)) out.old }
{
    if times.len() <= out.len() / TIME {
        for (i, time) in times.iter().enumerate() {
            out[i * TIME..(i + 1) * TIME].copy_from_slice(&time.to_be_bytes());
        }
    }
}

// Puts the first n bytes in front, where both have so many.
// Kept: bytes and a count, as docs/PROMISES.md promises them for lent memory of any length.
pub fn put_bytes(bytes: &[u8], n: usize, out: &mut [u8])
    ensures { out.new
        ≡ cond (leb n (length bytes.now) && leb n (length out.old))
        (paste out.old 0 bytes.now n) out.old }
{
    if n <= bytes.len() && n <= out.len() {
        out[..n].copy_from_slice(&bytes[..n]);
    }
}
