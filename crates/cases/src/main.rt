// Runs hand-picked lists on the controller model and prints what goes over the bus. The expected output is written by hand from the
// paper. S is START, P is STOP; W52+ is a byte that the controller sent and the sensor acknowledged, R12- one that it received and did
// not acknowledge.
#![tactic(auto)]

use controller::model::{Ending, Sensor};
use controller::{Commands, inspector, model};
use std::io::{self, Write};

// A list, the number of the phase in which it comes, and the sensor that it meets.
#[derive(Clone, Copy)]
struct Case {
    name: &'static str,
    list: Commands<'static>,
    phase: u32,
    sensor: Sensor<'static>,
}

const CASES: [Case; 15] = [
    Case {
        name: "K2, first list: write 1, continues",
        list: Commands {
            words: [0x3000, 0x0902, 0x2000, 0, 0, 0, 0, 0],
            fifo: b"\x52\xA0",
        },
        phase: 0,
        sensor: Sensor {
            sends: b"",
            refuses: 0,
        },
    },
    Case {
        name: "K2, second list: read 2",
        list: Commands {
            words: [0x3000, 0x0901, 0x1801, 0x1C01, 0x1000, 0, 0, 0],
            fifo: b"\x53",
        },
        phase: 2,
        sensor: Sensor {
            sends: b"\x12\x34",
            refuses: 0,
        },
    },
    Case {
        name: "K5: lone empty write",
        list: Commands {
            words: [0x3000, 0x0901, 0x1000, 0, 0, 0, 0, 0],
            fifo: b"\x52",
        },
        phase: 0,
        sensor: Sensor {
            sends: b"",
            refuses: 0,
        },
    },
    Case {
        name: "K6, second list: write 1 goes on",
        list: Commands {
            words: [0x0901, 0x1000, 0x2000, 0, 0, 0, 0, 0],
            fifo: b"\x02",
        },
        phase: 2,
        sensor: Sensor {
            sends: b"",
            refuses: 0,
        },
    },
    Case {
        name: "K7, second list: a bare STOP",
        list: Commands {
            words: [0x1000, 0x2000, 0, 0, 0, 0, 0, 0],
            fifo: b"",
        },
        phase: 2,
        sensor: Sensor {
            sends: b"",
            refuses: 0,
        },
    },
    Case {
        name: "K11 from Idle",
        list: Commands {
            words: [0x1C01, 0x1000, 0, 0, 0, 0, 0, 0],
            fifo: b"",
        },
        phase: 0,
        sensor: Sensor {
            sends: b"\x07",
            refuses: 0,
        },
    },
    Case {
        name: "K11 from Reading",
        list: Commands {
            words: [0x1C01, 0x1000, 0, 0, 0, 0, 0, 0],
            fifo: b"",
        },
        phase: 3,
        sensor: Sensor {
            sends: b"\x07",
            refuses: 0,
        },
    },
    Case {
        name: "a read that continues cannot stop",
        list: Commands {
            words: [0x3000, 0x0901, 0x1802, 0x1000, 0, 0, 0, 0],
            fifo: b"\x53",
        },
        phase: 0,
        sensor: Sensor {
            sends: b"\x07\x08",
            refuses: 0,
        },
    },
    Case {
        name: "the sensor does not answer to its address",
        list: Commands {
            words: [0x3000, 0x0903, 0x1000, 0, 0, 0, 0, 0],
            fifo: b"\x52\x01\x02",
        },
        phase: 0,
        sensor: Sensor {
            sends: b"",
            refuses: 1,
        },
    },
    Case {
        name: "the sensor refuses the third byte",
        list: Commands {
            words: [0x3000, 0x0903, 0x1000, 0, 0, 0, 0, 0],
            fifo: b"\x52\x01\x02",
        },
        phase: 0,
        sensor: Sensor {
            sends: b"",
            refuses: 3,
        },
    },
    Case {
        name: "a sensor with nothing to send",
        list: Commands {
            words: [0x3000, 0x0901, 0x1C01, 0x1000, 0, 0, 0, 0],
            fifo: b"\x53",
        },
        phase: 0,
        sensor: Sensor {
            sends: b"",
            refuses: 0,
        },
    },
    Case {
        name: "a byte is left in the FIFO",
        list: Commands {
            words: [0x3000, 0x0901, 0x1000, 0, 0, 0, 0, 0],
            fifo: b"\x52\x01",
        },
        phase: 0,
        sensor: Sensor {
            sends: b"",
            refuses: 0,
        },
    },
    Case {
        name: "words after the finish are not looked at",
        list: Commands {
            words: [0x3000, 0x0901, 0x1000, 0xFFFF_FFFF, 0, 0, 0, 0],
            fifo: b"\x52",
        },
        phase: 0,
        sensor: Sensor {
            sends: b"",
            refuses: 0,
        },
    },
    Case {
        name: "a word that is done already",
        list: Commands {
            words: [0x8000_3000, 0x0901, 0x1000, 0, 0, 0, 0, 0],
            fifo: b"\x52",
        },
        phase: 0,
        sensor: Sensor {
            sends: b"",
            refuses: 0,
        },
    },
    Case {
        name: "a phase of no number",
        list: Commands {
            words: [0x2000, 0, 0, 0, 0, 0, 0, 0],
            fifo: b"",
        },
        phase: 5,
        sensor: Sensor {
            sends: b"",
            refuses: 0,
        },
    },
];

// The two bytes of an event: what it is, and the byte that it carries.
// Kept: numbers for kinds, since the model lends its events out as bytes, as the C interface has them.
fn print_event(out: &mut impl Write, kind: u8, byte: u8) -> io::Result<()> {
    match kind {
        0 => write!(out, " S"),
        1 => write!(out, " P"),
        2 => write!(out, " W{byte:02x}+"),
        3 => write!(out, " W{byte:02x}-"),
        4 => write!(out, " R{byte:02x}+"),
        _ => write!(out, " R{byte:02x}-"),
    }
}

fn print_ending(out: &mut impl Write, ending: Option<Ending>) -> io::Result<()> {
    match ending {
        None => writeln!(out, " no room"),
        Some(Ending::Stuck) => writeln!(out, " stuck"),
        Some(Ending::Refused) => writeln!(out, " refused by the sensor"),
        Some(Ending::Finished(phase)) => writeln!(out, " finished in {}", phase.name()),
    }
}

fn show(out: &mut impl Write, case: &Case) -> io::Result<()> {
    let name = case.name;
    let passes = inspector::inspect(case.list, case.phase).is_some();
    let verdict = if passes { "passes" } else { "refused" };
    write!(out, "{name}\n  {verdict}:")?;
    let mut received = [0; 32];
    let mut events = [0; 160];
    let report = model::run(
        case.list,
        case.phase,
        case.sensor,
        &mut received,
        &mut events,
    );
    for event in events.chunks_exact(2).take(report.events) {
        print_event(out, event[0], event[1])?;
    }
    print_ending(out, report.answer)
}

fn main(rt: HostRuntime) -> io::Result<()> {
    let mut out = rt.stdout();
    for case in &CASES {
        show(&mut out, case)?;
    }
    Ok(())
}
