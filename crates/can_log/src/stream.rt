// A log as it goes: as many records as the bytes at hand and the room for their lines allow.
ghost use Rattle.std.specs.Prelude.{◌≡◌, ◌+◌, ◌<◌, ◌≤◌, length};
ghost use Rattle.can_log.specs.Records.{request_means};
ghost use Rattle.can_log.specs.Output.{start_of, data_size, status_means, goes_on, last_number, stop_step, wait_step, settled_step, called_step, request_step};
ghost use Rattle.can_log.specs.Pieces.{Does, after, answer_of, sound_of, advance_of};

use crate::decode::{Item, Request, Stop, item_at_front};
use crate::lines::{Answer, put_anomalies, put_answer, put_end};
use frames::{FrameHeader, process_lent_frame};
use table::{Defined, SignalIdsEngine};

// No record is begun with less room: none prints more than eight lines of at most 55 bytes.
const ROOM: usize = 512;

#[derive(Clone, Copy)]
pub struct Log {
    // how many sound records there have been
    pub count: u32,
    pub engine: SignalIdsEngine,
}

#[derive(Clone, Copy, PartialEq, Eq)]
pub enum Status {
    // a record was taken, and the next may follow; no call ends so
    Going,
    // the bytes at hand are no whole record
    Waiting,
    // there may be no room for what the next record prints
    Full,
    // the log has stopped, and its end line is written
    Ended,
}

impl Status {
    // Whether the next record may follow.
    fn goes_on(self) -> bool
        ensures { result ≡ goes_on (status_means self) }
    {
        matches!(self, Status::Going)
    }
}

#[derive(Clone, Copy)]
pub struct Step {
    pub log: Log,
    // how many bytes were taken
    pub used: usize,
    // the place behind what was written
    pub end: usize,
    pub status: Status,
}

// A log before its first record. Its engine is the empty one that refused settings leave.
pub fn start() -> Log
    ensures { result ≡ start_of }
{
    let made = SignalIdsEngine::new(0.0, 0.0);
    Log {
        count: 0,
        engine: made.engine,
    }
}

// What a call answers.
fn answer(log: Log, used: usize, end: usize, status: Status) -> Step
    ensures { result ≡ answer_of log used end status }
{
    Step {
        log,
        used,
        end,
        status,
    }
}

// The answer after a sound record of `used` bytes, with the engine that it left.
// No type of log has the bound: `advance` takes any count, and the look at the front stops a full one (15).
fn sound(log: Log, engine: SignalIdsEngine, used: usize, end: usize) -> Step
    requires { log.count < 4294967295 }
    ensures { result ≡ sound_of log engine used end }
{
    let next = Log {
        count: log.count + 1,
        engine,
    };
    answer(next, used, end, Status::Going)
}

// How many data bytes a frame's record has.
fn data_size(header: FrameHeader) -> usize
    ensures { result ≡ data_size header }
{
    if header.is_fd { 64 } else { 8 }
}

// The stopping number where the input ends with so many bytes that are no whole record.
// A number and no `Stop`: 0 is the end itself, and 3 comes from the table (`end_line`).
fn last_number(left: usize) -> u8
    ensures { result ≡ last_number left }
{
    if left == 0 { 0 } else { u8::from(Stop::Cut) }
}

// The log stops, `used` bytes having been taken before.
// Buffer and place go side by side: the promises (`Does`, `Put`) are of the buffer as it was lent, which a struct would hide.
fn on_stop(log: Log, used: usize, k: u8, out: &mut [u8], at: usize) -> Step
    requires { at + 26 ≤ length out.old }
    ensures { Does out.old at (after used (stop_step log k)) result out.new }
{
    let end = put_end(out, at, log.count, k);
    answer(log, used, end, Status::Ended)
}

// No whole record at hand: at the end of the input the log ends, and else it waits.
fn on_wait(log: Log, used: usize, left: usize, ended: bool, out: &mut [u8], at: usize) -> Step
    requires { at + 26 ≤ length out.old }
    ensures { Does out.old at (after used (wait_step ended log left)) result out.new }
{
    if ended {
        return on_stop(log, used, last_number(left), out, at);
    }
    answer(log, used, at, Status::Waiting)
}

// Settings that are refused stop the log.
fn on_settled(log: Log, made: Defined<()>, out: &mut [u8], at: usize) -> Step
    requires { (log.count < 4294967295) × (at + 26 ≤ length out.old) }
    ensures { Does out.old at (settled_step log made.engine made.answer) result out.new }
{
    match made.answer {
        Ok(()) => sound(log, made.engine, 10, at),
        Err(error) => on_stop(log, 0, u8::from(error), out, at),
    }
}

// A table call is answered in a line, refused or not.
fn on_called(
    log: Log,
    engine: SignalIdsEngine,
    answer: Answer,
    letter: &[u8; 2],
    used: usize,
    out: &mut [u8],
    at: usize,
) -> Step
    requires { (log.count < 4294967295) × (at + 32 ≤ length out.old) }
    ensures { Does out.old at (called_step log letter.now used engine answer) result out.new }
{
    let end = put_answer(out, at, letter, log.count + 1, answer);
    sound(log, engine, used, end)
}

// What a record asks of the table is done, and answered. The sizes are numbers, as `item_step` has them.
fn on_request(log: Log, q: Request, out: &mut [u8], at: usize) -> Step
    requires { (log.count < 4294967295) × (at + 32 ≤ length out.old) }
    ensures { Does out.old at (request_step log (request_means q)) result out.new }
{
    match q {
        Request::Settings(alpha, threshold) => {
            on_settled(log, SignalIdsEngine::new(alpha, threshold), out, at)
        }
        Request::Define(d) => {
            let done = log.engine.define_signal(d);
            on_called(
                log,
                done.engine,
                Answer::from(done.answer),
                b"D ",
                24,
                out,
                at,
            )
        }
        Request::Remove(slot) => {
            let done = log.engine.remove_signal(slot);
            on_called(
                log,
                done.engine,
                Answer::from(done.answer),
                b"R ",
                4,
                out,
                at,
            )
        }
    }
}

// As many records as the bytes at hand and the room allow. `ended` says that the input ends with these bytes.
pub fn advance(log: Log, s: &[u8], ended: bool, out: &mut [u8]) -> Step
    ensures { Does out.old 0 (advance_of (length out.old) ended log s.now) result out.new }
{
    let mut log = log;
    let mut used = 0;
    let mut end = 0;
    // Each turn takes one record, of its own length.
    while out.len() - end >= ROOM {
        match item_at_front(log.count, &s[used..]) {
            Ok(None) => return on_wait(log, used, s.len() - used, ended, out, end),
            Err(stop) => return on_stop(log, used, u8::from(stop), out, end),
            Ok(Some(Item::Call(q))) => {
                let r = on_request(log, q, out, end);
                log = r.log;
                used += r.used;
                end = r.end;
                if !r.status.goes_on() {
                    return answer(log, used, end, r.status);
                }
            }
            Ok(Some(Item::Frame(header))) => {
                let at = used + 8;
                let behind = at + data_size(header);
                let done = process_lent_frame(log.engine, header, &s[at..behind]);
                log.engine = done.engine;
                log.count += 1;
                used = behind;
                let count = done.result.anomaly_count;
                // A copy of the list: lent from the answer itself it has the engine copied too.
                let listed = done.result.anomalies;
                end = put_anomalies(out, end, log.count, &listed[..count]);
            }
        }
    }
    answer(log, used, end, Status::Full)
}
