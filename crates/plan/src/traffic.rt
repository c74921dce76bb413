// What goes over the bus, a line for each run: S is START and Sr a repeated one; then the address byte, with w where bytes are written
// and r where they are read; then the bytes; P is STOP. A byte that is acknowledged has a +, one that is not a -.
use arrayvec::ArrayVec;
use std::io;
use std::io::Write;

// No event is printed longer.
const LONGEST: usize = 8;

// An event, and of a byte the sign of its acknowledge bit.
#[derive(Clone, Copy)]
enum Event {
    Start,
    Stop,
    Sent(u8, char),
    Received(u8, char),
}

// An event as the model lays it.
// Kept: kinds by number, since the model lends its events out as bytes, as the C interface has them.
impl From<[u8; 2]> for Event {
    fn from([kind, byte]: [u8; 2]) -> Event {
        match kind {
            0 => Event::Start,
            1 => Event::Stop,
            2 => Event::Sent(byte, '+'),
            3 => Event::Sent(byte, '-'),
            4 => Event::Received(byte, '+'),
            _ => Event::Received(byte, '-'),
        }
    }
}

// What the traffic so far came to: whether the address byte is next, and how many runs and bytes there were.
#[derive(Default, Drop)]
pub(super) struct Traffic {
    addresses: bool,
    runs: usize,
    pub(super) written: usize,
    pub(super) read: usize,
}

impl Traffic {
    fn print_event(&mut self, out: &mut impl Write, event: Event) -> io::Result<()> {
        match event {
            Event::Start => {
                let text = if self.runs == 0 { "  S" } else { "\n  Sr" };
                self.addresses = true;
                self.runs = self.runs.saturating_add(1);
                write!(out, "{text}")
            }
            Event::Stop => write!(out, " P"),
            Event::Sent(byte, sign) if self.addresses => {
                let direction = if byte % 2 == 1 { 'r' } else { 'w' };
                self.addresses = false;
                write!(out, " {byte:02X}{direction}{sign}")
            }
            Event::Sent(byte, sign) => {
                self.written = self.written.saturating_add(1);
                write!(out, " {byte:02X}{sign}")
            }
            Event::Received(byte, sign) => {
                self.read = self.read.saturating_add(1);
                write!(out, " {byte:02X}{sign}")
            }
        }
    }
}

// Prints the events, two bytes each as the model lays them, and counts them. An event goes out by one write.
pub(super) fn print_traffic(out: &mut impl Write, events: &[u8]) -> io::Result<Traffic> {
    let mut traffic = Traffic::default();
    for event in events.chunks_exact(2) {
        let mut text: ArrayVec<u8, LONGEST> = ArrayVec::new();
        traffic.print_event(&mut text, Event::from([event[0], event[1]]))?;
        out.write_all(text.as_slice())?;
    }
    if traffic.runs == 0 {
        write!(out, "  nothing")?;
    }
    writeln!(out)?;
    Ok(traffic)
}
