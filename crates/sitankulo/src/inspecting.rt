// The inspector and the controller model.
ghost use Rattle.std.specs.Prelude.{◌≡◌, ◌≤◌};
ghost use Rattle.sitankulo.specs.Answers.{told};
ghost use Rattle.sitankulo.specs.Inspecting.{inspect_answer};
ghost use Rattle.sitankulo.specs.Modelling.{ending_answer, report_answer, run_asked, ModelLeft};

use crate::answer;
use controller::model::{Ending, Report, Sensor};
use controller::{Commands, inspector, model};
use refusal::Refusal;

const STUCK: u32 = 247;

const UNANSWERED: u32 = 248;

// Bit 16 and bit 24 of an answer.
const RECEIVED: u32 = 0x1_0000;

const EVENTS: u32 = 0x100_0000;

fn inspect(words: &[u8], fifo: &[u8], phase: u32) -> Result<u32, Refusal>
    ensures { told result ≡ inspect_answer words.now fifo.now phase }
{
    let words = answer::words_of(words)?;
    let left = inspector::inspect(Commands { words, fifo }, phase).ok_or(Refusal::ListRefused)?;
    Ok(answer::pack(0, u8::from(left)))
}

// Whether a list gets the controller stuck.
pub fn sitankulo_inspect(words: &[u8], fifo: &[u8], phase: u32) -> u32
    ensures { result ≡ inspect_answer words.now fifo.now phase }
{
    answer::told(inspect(words, fifo, phase))
}

// Kept: the C interface's numbers, by a match: neither type is of this crate, so it has no From.
fn ending_number(ending: Ending) -> u32
    ensures { (result ≡ ending_answer ending) × (result ≤ 65535) }
{
    match ending {
        Ending::Stuck => STUCK,
        Ending::Refused => UNANSWERED,
        Ending::Finished(phase) => answer::pack(0, u8::from(phase)),
    }
}

fn report_number(report: Report) -> Result<u32, Refusal>
    requires { (report.received ≤ 32) × (report.events ≤ 72) }
    ensures { told result ≡ report_answer report }
{
    let ending = report.answer.ok_or(Refusal::Room)?;
    let number = ending_number(ending);
    Ok(number + RECEIVED * (report.received as u32) + EVENTS * (report.events as u32))
}

fn run_model(
    words: &[u8],
    fifo: &[u8],
    phase: u32,
    sensor: Sensor<'_>,
    received: &mut [u8],
    events: &mut [u8],
) -> Result<u32, Refusal>
    ensures { ModelLeft words.now (run_asked words.now fifo.now phase sensor.entry.sends.now sensor.entry.refuses)
        (told result) received.old received.new events.old events.new }
{
    let words = answer::words_of(words)?;
    report_number(model::run(Commands { words, fifo }, phase, sensor, received, events))
}

// Runs a list on the controller model, against a sensor.
pub fn sitankulo_model_run(
    words: &[u8],
    fifo: &[u8],
    phase: u32,
    sends: &[u8],
    refuses: usize,
    received: &mut [u8],
    events: &mut [u8],
) -> u32
    ensures { ModelLeft words.now (run_asked words.now fifo.now phase sends.now refuses)
        result received.old received.new events.old events.new }
{
    let sensor = Sensor { sends, refuses };
    answer::told(run_model(words, fifo, phase, sensor, received, events))
}
