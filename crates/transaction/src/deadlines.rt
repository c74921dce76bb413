// When lists are due.
ghost use Rattle.std.specs.Prelude.{◌≡◌, ◌≤◌};
ghost use Rattle.transaction.specs.Deadlines.{fixed_of, due_of};

use crate::Deadline;
use outcome::Due;
use refusal::Refusal;

// The deadline of all lists, from the clock at acceptance.
pub(crate) fn fixed_due(deadline: Deadline, time: u64) -> Result<Due, Refusal>
    ensures { result ≡ fixed_of deadline time }
{
    match deadline {
        Deadline::None | Deadline::PerByte(_) => Ok(None),
        Deadline::Fixed(duration) => {
            let due = time.checked_add(duration).ok_or(Refusal::ClockRange)?;
            Ok(Some(due))
        }
    }
}

// When the list of a piece of so many bytes is due. The address counts as a byte, sent or not.
pub(crate) fn list_due(
    deadline: Deadline,
    fixed: Due,
    length: usize,
    time: u64,
) -> Result<Due, Refusal>
    requires { length ≤ 65535 }
    ensures { result ≡ due_of deadline fixed length time }
{
    match deadline {
        Deadline::None => Ok(None),
        Deadline::Fixed(_) => Ok(fixed),
        Deadline::PerByte(duration) => {
            let bytes = length as u64 + 1;
            let wait = duration.checked_mul(bytes).ok_or(Refusal::ClockRange)?;
            let due = time.checked_add(wait).ok_or(Refusal::ClockRange)?;
            Ok(Some(due))
        }
    }
}
