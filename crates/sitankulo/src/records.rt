// The record of a transaction in memory: flags, a place and two times, 25 bytes.
ghost use Rattle.std.specs.Prelude.{◌≡◌, ◌≤◌, length, cond, not, Ok, Err};
ghost use Rattle.refusal.specs.declared.Refusal.TheVariants.{Shape};
ghost use Rattle.std.proofs.Math.Seq.{paste};
ghost use Rattle.sitankulo.specs.Records.{record_flags, record_bytes, progress_by, record_in, standing, zero_unless, agreeing, is_record};

use crate::answer::bit;
use refusal::Refusal;
use transaction::Progress;

pub(crate) const SIZE: usize = 25;

const PLACE: usize = 1;

const DUE: usize = 9;

const FIXED: usize = 17;

// The weights of the flags.
const OUTSTANDING: u8 = 1;

const POLLED: u8 = 2;

const FAILED: u8 = 4;

const HAS_DUE: u8 = 8;

const HAS_FIXED: u8 = 16;

// No flag has so high a value.
const FLAGS_END: u8 = 32;

fn flags_of(p: Progress) -> u8
    ensures { result ≡ record_flags p }
{
    OUTSTANDING * u8::from(p.outstanding)
        + POLLED * u8::from(p.polled)
        + FAILED * u8::from(p.failed)
        + HAS_DUE * u8::from(p.due.is_some())
        + HAS_FIXED * u8::from(p.fixed.is_some())
}

// Writes a record.
#[inline(always)]
#[tactic(auto, unfolding(crate::specs::Records::record_bytes))]
pub(crate) fn encode(p: Progress, state: &mut [u8])
    requires { 25 ≤ length state.old }
    ensures { state.new ≡ paste state.old 0 (record_bytes p) 25 }
{
    state[0] = flags_of(p);
    let numbers = [p.place as u64, p.due.unwrap_or(0), p.fixed.unwrap_or(0)];
    wire::put_times(&numbers, &mut state[PLACE..SIZE]);
}

#[tactic(auto, unfolding(crate::specs::Records::progress_by))]
fn progress_by(flags: u8, place: u64, due: u64, fixed: u64) -> Progress
    ensures { result ≡ progress_by flags place due fixed }
{
    Progress {
        place: place as usize,
        outstanding: bit(flags, OUTSTANDING),
        due: bit(flags, HAS_DUE).then_some(due),
        polled: bit(flags, POLLED),
        failed: bit(flags, FAILED),
        fixed: bit(flags, HAS_FIXED).then_some(fixed),
    }
}

// Only an outstanding list has a due time or a poll, and it has not failed.
fn is_standing(p: Progress) -> bool
    ensures { result ≡ standing p }
{
    if p.outstanding {
        !p.failed
    } else {
        !p.polled && p.due.is_none()
    }
}

// A time that there is not is 0.
fn is_kept(there: bool, time: u64) -> bool
    ensures { result ≡ zero_unless there time }
{
    there || time == 0
}

// No flag is unknown, and the times agree with the flags.
#[tactic(auto, unfolding(crate::specs::Records::agreeing))]
fn is_agreeing(flags: u8, due: u64, fixed: u64) -> bool
    ensures { result ≡ agreeing flags due fixed }
{
    flags < FLAGS_END && is_kept(bit(flags, HAS_DUE), due) && is_kept(bit(flags, HAS_FIXED), fixed)
}

// What bytes say that a call of ours left.
#[tactic(auto, unfolding(crate::specs::Records::is_record))]
pub(crate) fn read(state: &[u8]) -> Result<Progress, Refusal>
    ensures { result ≡ cond (not (is_record state.now)) (Err Shape) (Ok (record_in state.now)) }
{
    if state.len() < SIZE {
        return Err(Refusal::Shape);
    }
    let flags = state[0];
    let due = wire::time_at(state, DUE);
    let fixed = wire::time_at(state, FIXED);
    let progress = progress_by(flags, wire::time_at(state, PLACE), due, fixed);
    if is_agreeing(flags, due, fixed) && is_standing(progress) {
        return Ok(progress);
    }
    Err(Refusal::Shape)
}
