// Where a transaction stands in its script. Whole operations are passed by their number of lists, so that the cost grows with the
// records and not with the bytes.
ghost use Rattle.std.specs.Prelude.{◌≡◌, true, not, List, ℕ, ◌+◌, ◌-◌, ◌≤◌, ◌<◌, length, drop, eqb, IfSome};
ghost use Rattle.bus.specs.Operations.{Operation};
ghost use Rattle.chunks.specs.Pieces.{piece_of, count_of, start_of};
ghost use Rattle.turns.specs.Turns.{with_list, turn_at};
ghost use Rattle.transaction.specs.Walk.{Readable, kept_at, operation_at, viewed, Behind, Sound, flags_of, piece_flags, Sized, receives, steps_for, turn_of, Inside, is_turn, size_of, misplaced, Walkable, turn_in};

use script::{Record, Step};

#[derive(Clone, Copy, PartialEq, Eq)]
enum Kind {
    Write,
    Read,
}

// A kept operation: its kind, its length, and the place after its record, where a write's bytes end.
#[derive(Clone, Copy)]
struct Kept {
    kind: Kind,
    length: usize,
    next: usize,
}

// What an operation does before and after its pieces.
#[derive(Clone, Copy)]
struct Flags {
    start: bool,
    stop: bool,
    continues: bool,
}

// Where a piece of an operation starts, its size and its flags.
#[derive(Drop)]
struct Cutting {
    offset: usize,
    size: usize,
    own: Flags,
}

// The piece that the next list carries, a write's from its place in the script on, and how far the read buffer is filled. Or no list
// is left, or there are not so many lists.
// Kept: four findings in one, as definition `turn_of` has them. That it is `Inside` its script stands in three contracts, since there is
// no script in it whose length a ghost field could name.
#[derive(Clone, Copy)]
pub(crate) enum Found {
    Write {
        from: usize,
        length: usize,
        start: bool,
        stop: bool,
        landing: usize,
    },
    Read {
        length: usize,
        start: bool,
        stop: bool,
        continues: bool,
        landing: usize,
    },
    Over,
    Beyond,
}

// The version, and the length of the body in two bytes.
const HEADER: usize = 3;

// The bytes that go through the FIFO at once, beside the address.
const CHUNK: usize = 31;

// The operation at a place; empty reads are dropped.
// Kept: a loop over the cursor, which counts no index.
fn next_kept(script: &[u8], from: usize) -> Option<Kept>
    requires { (from ≤ length script.now) × Readable (drop from script.now) }
    ensures { (kept_at script.now from ≡ viewed script.now result) × IfSome result (λ k. Behind from script.now k) }
{
    let mut at = from;
    loop {
        let Step { found, next } = script::next_record(script, at);
        match found {
            Record::End | Record::Bad => return None,
            Record::Read(length) if length > 0 => return Some(Kept {
                kind: Kind::Read,
                length: length as usize,
                next,
            }),
            Record::Read(_) => at = next,
            Record::Write(length) => return Some(Kept {
                kind: Kind::Write,
                length: length as usize,
                next,
            }),
        }
    }
}

// An operation starts if the one before it is not of its kind, stops if it is last, and a read continues if a read follows.
fn flags_of(before: Option<Kind>, ahead: Kept, following: Option<Kept>) -> Flags
    ensures { result ≡ flags_of before ahead following }
{
    Flags {
        start: before.is_none_or(|kind| kind != ahead.kind),
        stop: following.is_none(),
        continues: following.is_some_and(|k| k.kind == Kind::Read),
    }
}

// How many lists an operation has: one for each piece. An empty write has one where it starts or stops, and none in its run's midst.
fn count_lists(size: usize, flags: Flags) -> usize
    ensures { ((o : Operation) → Sized o size → result ≡ length (with_list (steps_for o flags))) × (result ≤ count_of 31 size) }
{
    if size == 0 {
        return usize::from(flags.start || flags.stop);
    }
    chunks::count_pieces(CHUNK, size)
}

// Only the first piece starts, only the last stops; a read's piece continues unless it is the last of a read that does not.
fn flags_at(flags: Flags, first: bool, last: bool) -> Flags
    ensures { result ≡ piece_flags flags first last }
{
    Flags {
        start: first && flags.start,
        stop: last && flags.stop,
        continues: !last || flags.continues,
    }
}

// The piece at a place of an operation of so many bytes. Most operations are one piece.
fn cut(length: usize, flags: Flags, at: usize) -> Cutting
    requires { at < count_of 31 length }
    ensures { (result.offset ≡ start_of 31 length at) × (result.size ≡ piece_of 31 (length - result.offset))
        × (result.own ≡ piece_flags flags (eqb at 0) (eqb (at + 1) (count_of 31 length))) }
{
    if length <= CHUNK {
        return Cutting {
            offset: 0,
            size: length,
            own: flags,
        };
    }
    let offset = chunks::piece_start(CHUNK, length, at);
    let all = chunks::count_pieces(CHUNK, length);
    Cutting {
        offset,
        size: chunks::calculate_chunk_size(CHUNK, length - offset),
        own: flags_at(flags, at == 0, at + 1 == all),
    }
}

// The piece at a place among an operation's lists.
fn piece(ahead: Kept, flags: Flags, at: usize, landing: usize) -> Found
    requires { Sound ahead × (at < count_of 31 ahead.length) × (landing ≤ 1073741824) }
    ensures { ((script : List ℕ)
        → ahead.next ≤ length script
        → at < length (with_list (steps_for (operation_at script ahead) flags))
        → turn_of script result ≡ turn_at landing at (with_list (steps_for (operation_at script ahead) flags)))
        × Inside ahead.next result × (is_turn result ≡ true) }
{
    let Cutting { offset, size, own } = cut(ahead.length, flags, at);
    match ahead.kind {
        Kind::Read => Found::Read {
            length: size,
            start: own.start,
            stop: own.stop,
            continues: own.continues,
            landing: landing + offset,
        },
        Kind::Write => Found::Write {
            from: ahead.next - ahead.length + offset,
            length: size,
            start: own.start,
            stop: own.stop,
            landing,
        },
    }
}

impl Kept {
    // How many bytes the operation receives.
    fn received(self) -> usize
        ensures { result ≡ receives self }
    {
        match self.kind {
            Kind::Write => 0,
            Kind::Read => self.length,
        }
    }
}

// What the place, a number of completed lists, says of an accepted script. Inlined into its two callers, it saves them a sixth of their
// instructions.
#[inline(always)]
pub(crate) fn locate(script: &[u8], place: usize) -> Found
    requires { Walkable script.now }
    ensures { (turn_of script.now result ≡ turn_in script.now place)
        × Inside (length script.now) result × (is_turn result ≡ true → place < 1073741824) }
{
    let mut before = None;
    let mut current = next_kept(script, HEADER);
    let mut left = place;
    let mut landing: usize = 0;
    while let Some(ahead) = current {
        let following = next_kept(script, ahead.next);
        let flags = flags_of(before, ahead, following);
        let lists = count_lists(ahead.length, flags);
        if left < lists {
            return piece(ahead, flags, left, landing);
        }
        left -= lists;
        landing += ahead.received();
        before = Some(ahead.kind);
        current = following;
    }
    if left == 0 {
        Found::Over
    } else {
        Found::Beyond
    }
}

impl Found {
    // A record that no call of ours left: with more lists completed than there are, or one outstanding after the last.
    pub(crate) fn is_misplaced(self, outstanding: bool) -> bool
        ensures { result ≡ misplaced self outstanding }
    {
        match self {
            Found::Write { .. } | Found::Read { .. } => false,
            Found::Over => outstanding,
            Found::Beyond => true,
        }
    }

    pub(crate) fn is_over(self) -> bool
        ensures { result ≡ not (is_turn self) }
    {
        matches!(self, Found::Over | Found::Beyond)
    }

    // How many bytes the list carries.
    pub(crate) fn size(self) -> usize
        ensures { result ≡ size_of self }
    {
        match self {
            Found::Write { length, .. } | Found::Read { length, .. } => length,
            Found::Over | Found::Beyond => 0,
        }
    }
}
