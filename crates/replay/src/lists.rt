// Questions to the builder.
use super::word;
use list::Built;
use refusal::Numbered;
use std::array;

// The bytes that are written: any that tell one place from another.
fn pattern() -> [u8; 64] {
    array::from_fn(|place| ((place % 64 * 7 + 3) % 256) as u8)
}

// A number of what was built: 0 its answer, 1 to 8 the words, 9 the count of FIFO bytes, and from 10 on those bytes.
fn part(built: &Built, which: u64) -> u64 {
    let list = &built.list;
    match which {
        0 => u64::from(built.answer.number()),
        1..=8 => u64::from(list.words[(which - 1) as usize]),
        9 => list.count as u64,
        _ => u64::from(list.fifo[((which - 10) % 32) as usize]),
    }
}

// 8 STEP ADDRESS N START STOP 0 PART: a write; 9 STEP ADDRESS N START STOP CONTINUES PART: a read. With step 1 the operation step is
// asked, which may need no list, with 0 the builder.
pub(super) fn built(fields: &[u64; 16]) -> u64 {
    let [asked, step, address, n, start, stop, continues, which, ..] = *fields;
    let (address, n) = (word(address), n as usize);
    let (start, stop, continues) = (start == 1, stop == 1, continues == 1);
    let bytes = pattern();
    let written = &bytes[..n % 64];
    let built = match (asked == 8, step == 1) {
        (true, true) => list::write_operation(address, written, start, stop),
        (true, false) => list::setup_write(address, written, start, stop),
        (false, true) => list::read_operation(address, n, start, stop, continues),
        (false, false) => list::setup_read(address, n, start, stop, continues),
    };
    part(&built, which)
}
