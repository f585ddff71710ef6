// A line of the log's output, rendered into a lent buffer.
use crate::output::Output;
use crate::script::{Field, Fields};
use can_log::{Answer, LogLine, render};
use frames::SignalAnomaly;

// What a table call answered: case 0 is a slot, 1 success, any other a refusal. By number, as `line_of` has its kind.
fn answer_of(case: u64, number: u64) -> Answer {
    match case {
        0 => Answer::Slot(u16::of(number)),
        1 => Answer::Done,
        _ => Answer::Refused(u8::of(number)),
    }
}

// The line that kind and numbers stand for: 0 is a definition's line, 1 a removal's, 2 an anomaly's, any other the end line.
// By number, as a script has it: what x, y and z are hangs on the kind.
fn line_of(kind: u64, record: u32, x: u64, y: u64, z: u64) -> LogLine {
    match kind {
        0 => LogLine::Defined(record, answer_of(x, y)),
        1 => LogLine::Removed(record, answer_of(x, y)),
        2 => LogLine::Anomaly(
            record,
            SignalAnomaly {
                slot: u16::of(x),
                z_score: f32::of(y),
                physical_value: f32::of(z),
            },
        ),
        _ => LogLine::End(record, u8::of(x)),
    }
}

// One line, and the bytes of the buffer then.
pub fn answer(fields: &mut Fields, out: &mut Output) {
    let kind: u64 = fields.read();
    let record: u32 = fields.read();
    let x: u64 = fields.read();
    let y: u64 = fields.read();
    let z: u64 = fields.read();
    let data = fields.bytes();
    match render(line_of(kind, record, x, y, z), data) {
        Ok(length) => out.field(length as u64, 2),
        Err(_) => out.text(b" none"),
    }
    out.bytes(data);
}
