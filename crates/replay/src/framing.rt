// Frames through the engine that the script keeps.
use crate::output::Output;
use crate::script::Fields;
use conversion::bits_of_f32;
use frames::{
    CanFrame, FrameHeader, Outcome, Processed, SignalIdsResult, process_frame, process_lent_frame,
    process_raw_frame,
};
use table::SignalIdsEngine;

// A frame, one whose data bytes are lent, and a raw frame.
#[derive(Clone, Copy)]
pub enum Call {
    Frame,
    LentFrame,
    RawFrame,
}

// The count, and all eight places.
fn anomalies(seen: &SignalIdsResult, out: &mut Output) {
    out.field(seen.anomaly_count as u64, 2);
    for anomaly in &seen.anomalies {
        out.field(u64::from(anomaly.slot), 8);
        out.float(anomaly.z_score);
        out.float(anomaly.physical_value);
    }
}

// An outcome's case, value, score and flag, 0 where it has none. The case of no value is its refusal's number.
fn outcome_words(outcome: Outcome) -> [u64; 4] {
    match outcome {
        Outcome::PassedOver => [0; 4],
        Outcome::NoValue(error) => [u64::from(u8::from(error)), 0, 0, 0],
        Outcome::First(v) => [2, u64::from(bits_of_f32(v)), 0, 0],
        Outcome::Warming(v) => [3, u64::from(bits_of_f32(v)), 0, 0],
        Outcome::Scored(v, z, flag) => [
            4,
            u64::from(bits_of_f32(v)),
            u64::from(bits_of_f32(z)),
            u64::from(flag),
        ],
    }
}

// On a line of their own the number of definitions that apply, the counts of those without a value, and the outcomes.
fn reports(seen: &SignalIdsResult, out: &mut Output) {
    out.text(b"\np");
    out.field(seen.report_count as u64, 2);
    out.field(seen.counts.condition_not_met as u64, 2);
    out.field(seen.counts.outside as u64, 2);
    out.field(seen.counts.not_finite as u64, 2);
    for report in seen.reports.iter().take(seen.report_count) {
        out.field(u64::from(report.slot), 8);
        out.fields(&outcome_words(report.outcome), 8);
    }
}

fn processed(done: Processed, out: &mut Output) -> SignalIdsEngine {
    anomalies(&done.result, out);
    reports(&done.result, out);
    done.engine
}

// A frame's identifier, flags and length, its flags as those of a log's record and bit 2 for FD.
fn header(fields: &mut Fields) -> FrameHeader {
    let id: u32 = fields.read();
    let flags: u8 = fields.read();
    FrameHeader {
        id,
        is_extended: flags % 2 == 1,
        is_remote: flags / 2 % 2 == 1,
        is_fd: flags / 4 % 2 == 1,
        length: fields.read(),
    }
}

// A frame with that header: the first 64 bytes are its data, and zeros follow where there are fewer.
// Field by field: no call makes a frame of a header and bytes.
fn frame(h: FrameHeader, bytes: &[u8]) -> CanFrame {
    let mut data = [0u8; 64];
    let n = bytes.len().min(64);
    data[..n].copy_from_slice(&bytes[..n]);
    CanFrame {
        id: h.id,
        is_extended: h.is_extended,
        is_remote: h.is_remote,
        is_fd: h.is_fd,
        length: h.length,
        data,
    }
}

// The answer to a frame: the engine then.
pub fn answer(
    e: SignalIdsEngine,
    call: Call,
    fields: &mut Fields,
    out: &mut Output,
) -> SignalIdsEngine {
    let done = match call {
        Call::Frame => {
            let h = header(fields);
            process_frame(e, frame(h, fields.bytes()))
        }
        Call::LentFrame => {
            let h = header(fields);
            process_lent_frame(e, h, fields.bytes())
        }
        Call::RawFrame => {
            let id: u32 = fields.read();
            let data_len: usize = fields.read();
            process_raw_frame(e, id, fields.bytes(), data_len)
        }
    };
    processed(done, out)
}
