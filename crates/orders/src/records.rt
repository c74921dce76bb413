// Records made by hand, and what a call made of them.
use std::io::{self, Write};
use transaction::Progress;

// A list is due at 1,000.
pub(super) fn record(place: usize, outstanding: bool, failed: bool) -> Progress {
    Progress {
        place,
        outstanding,
        due: Some(1000),
        polled: false,
        failed,
        fixed: Some(2000),
    }
}

// The same with a poll that has succeeded.
pub(super) fn polled(before: Progress) -> Progress {
    Progress {
        polled: true,
        ..before
    }
}

pub(super) fn print_record(
    out: &mut impl Write,
    before: Progress,
    after: Progress,
) -> io::Result<()> {
    let became = if before == after {
        "record kept"
    } else if after.failed {
        "transaction ended"
    } else if after.outstanding {
        "still outstanding"
    } else {
        "list completed"
    };
    write!(out, ", {became}")
}
