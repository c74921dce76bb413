// The list at a record's place.
ghost use Rattle.std.specs.Prelude.{◌≡◌, length};
ghost use Rattle.transaction.specs.Walk.{Inside, list_for};
ghost use Rattle.transaction.specs.Calls.{handed_as, next_of};

use crate::walk::{self, Found};
use crate::{Progress, Request, Settings, deadlines};
use list::CommandList;
use refusal::Refusal;

// The list of a piece; a write's bytes are a part of the script. Inlined with the list's own functions.
#[inline(always)]
#[tactic(auto, unfolding(list::specs::Lists::unlisted))]
fn build(request: Request<'_>, found: Found) -> CommandList
    requires { Inside (length request.script.now) found }
    ensures { result ≡ list_for request.entry.address request.entry.script.now found }
{
    match found {
        Found::Write {
            from,
            length,
            start,
            stop,
            ..
        } => list::write_operation(
            request.address,
            &request.script[from..from + length],
            start,
            stop,
        )
        .list,
        Found::Read {
            length,
            start,
            stop,
            continues,
            ..
        } => list::read_operation(request.address, length, start, stop, continues).list,
        Found::Over | Found::Beyond => CommandList::default(),
    }
}

// The next list, which the record then waits for, or none is left; a refusal keeps the record.
pub(crate) fn hand_out(
    progress: &mut Progress,
    settings: Settings,
    request: Request<'_>,
    time: u64,
) -> Result<Option<CommandList>, Refusal>
    ensures { handed_as result progress.new
        ≡ next_of progress.old settings request.entry.address request.entry.script.now time }
{
    script::read_script(request.address, request.script)?;
    let found = walk::locate(request.script, progress.place);
    if found.is_misplaced(progress.outstanding) {
        return Err(Refusal::Shape);
    }
    if progress.outstanding || progress.failed {
        return Err(Refusal::OutOfTurn);
    }
    if found.is_over() {
        return Ok(None);
    }
    let due = deadlines::list_due(settings.deadline, progress.fixed, found.size(), time)?;
    *progress = Progress {
        outstanding: true,
        due,
        polled: false,
        ..*progress
    };
    Ok(Some(build(request, found)))
}
