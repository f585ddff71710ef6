// Calls that keep no state: extraction, the writer, conversion, the square root and the lines of the log.
use crate::output::Output;
use crate::rendering;
use crate::script::Fields;
use bits::{ByteOrder, extract_raw, write_raw};
use conversion::{extract_signal, extract_signal_raw, nearest_i64, nearest_u64};
use detector::sqrt_approx;

#[derive(Clone, Copy)]
pub enum Call {
    ExtractRaw,
    WriteRaw,
    ExtractSignal,
    NearestU64,
    NearestI64,
    SqrtApprox,
    Render,
}

impl TryFrom<u8> for Call {
    type Error = ();

    fn try_from(letter: u8) -> Result<Call, ()> {
        match letter {
            b'r' => Ok(Call::ExtractRaw),
            b'w' => Ok(Call::WriteRaw),
            b'x' => Ok(Call::ExtractSignal),
            b'n' => Ok(Call::NearestU64),
            b'i' => Ok(Call::NearestI64),
            b'q' => Ok(Call::SqrtApprox),
            b'l' => Ok(Call::Render),
            _ => Err(()),
        }
    }
}

// The raw number of a signal.
fn raw(fields: &mut Fields, out: &mut Output) {
    let order: ByteOrder = fields.read();
    let start: u16 = fields.read();
    let length: u8 = fields.read();
    let data_len: usize = fields.read();
    out.told(extract_raw(fields.bytes(), data_len, order, start, length));
}

// A raw number written, and the bytes then.
fn write(fields: &mut Fields, out: &mut Output) {
    let order: ByteOrder = fields.read();
    let start: u16 = fields.read();
    let length: u8 = fields.read();
    let data_len: usize = fields.read();
    let raw: u64 = fields.read();
    let data = fields.bytes();
    out.done(write_raw(data, data_len, order, start, length, raw));
    out.bytes(data);
}

// The raw number and the physical value by a definition.
fn signal(fields: &mut Fields, out: &mut Output) {
    let definition = fields.definition();
    let data_len: usize = fields.read();
    let data = fields.bytes();
    out.told(extract_signal_raw(data, data_len, definition));
    out.told(extract_signal(data, data_len, definition));
}

// The answer to a call that keeps no state.
pub fn answer(call: Call, fields: &mut Fields, out: &mut Output) {
    out.byte(fields.letter);
    match call {
        Call::ExtractRaw => raw(fields, out),
        Call::WriteRaw => write(fields, out),
        Call::ExtractSignal => signal(fields, out),
        Call::NearestU64 => out.float(nearest_u64(fields.read())),
        Call::NearestI64 => out.float(nearest_i64(fields.read())),
        Call::SqrtApprox => out.float(sqrt_approx(fields.read())),
        Call::Render => rendering::answer(fields, out),
    }
    out.byte(b'\n');
}
