// Reads a log from standard input, and writes its lines to standard output.
#![tactic(auto)]

ghost use Rattle.std.specs.Prelude.{◌≡◌, ◌≤◌, length, take};
ghost use Rattle.std.specs.Result.{result_ok};
ghost use Rattle.can_log.specs.Pieces.{Does, advance_of};
ghost use Rattle.can_log.specs.Output.{status_means};
ghost use Rattle.framelog.specs.Program.{got_of, Read, remaining, failed_of, after_write, Prints, Turn, Ran};

use can_log::{Log, Status, Step};
use std::io;
use std::io::{Read, Stderr, Stdin, Stdout};

// The streams that the program reads from, writes its lines to and tells failures to.
#[derive(Clone, Copy)]
struct Streams {
    input: Stdin,
    output: Stdout,
    errors: Stderr,
}

// Three names and no Option in a Result: a read of no room brings 0 bytes and is no end (`Read`, `got_of`).
#[derive(Drop)]
enum Got {
    Bytes(usize),
    End,
    Failed,
}

// Three flags and no enum: `next_of`, `failed_of` and `Turn` speak of each.
#[derive(Drop)]
struct State {
    log: Log,
    // how many bytes at the front of the buffer are not taken yet
    have: usize,
    ended: bool,
    // the bytes at hand are no whole record: the next turn reads first
    waiting: bool,
    going: bool,
}

// The records in the first `have` bytes: their lines go into `out`, and the bytes that are left move to the front.
// The buffer and how much of it is full go apart: `Read`, `Prints` and `Turn` are of both, before and after.
fn work(log: Log, have: usize, ended: bool, input: &mut [u8], out: &mut [u8]) -> Step
    requires { have ≤ length input.old }
    ensures does { Does out.old 0 (advance_of (length out.old) ended log (take have input.old)) result out.new }
    ensures input_after { input.new ≡ remaining input.old have result.used }
{
    let r = can_log::advance(log, &input[..have], ended, out);
    input.copy_within(r.used..have, 0);
    r
}

// What a call answered, and none where it failed: then a line on standard error says what failed and why.
fn told<T>(errors: Stderr, what: &str, answer: io::Result<T>) -> Option<T>
    ensures { result ≡ result_ok answer }
{
    match answer {
        Ok(x) => Some(x),
        Err(e) => {
            let _ = eprintln!(errors; "{what}: {e}");
            None
        }
    }
}

// What the answer of a read says.
fn got_of(answer: Option<usize>) -> Got
    ensures { result ≡ got_of answer }
{
    let Some(n) = answer else {
        return Got::Failed;
    };
    if n == 0 {
        return Got::End;
    }
    Got::Bytes(n)
}

// One read behind the bytes at hand. Where there is no room it makes no call.
fn read_more(streams: Streams, input: &mut [u8], have: usize) -> Got
    requires { have ≤ length input.old }
    ensures { Read have input.old result input.new }
{
    if have == input.len() {
        return Got::Bytes(0);
    }
    let mut from = streams.input;
    let answer = from.read(&mut input[have..]);
    got_of(told(
        streams.errors,
        "framelog: standard input could not be read",
        answer,
    ))
}

fn stopped(log: Log) -> State
    ensures { result ≡ failed_of log }
{
    State {
        log,
        have: 0,
        ended: true,
        waiting: false,
        going: false,
    }
}

// What a step left, with `have` bytes at hand, once its lines were handed to a write, which took them or failed.
fn after_write(took: bool, log: Log, have: usize, ended: bool, status: Status) -> State
    ensures { result ≡ after_write took log have ended (status_means status) }
{
    if !took {
        return stopped(log);
    }
    State {
        log,
        have,
        ended,
        waiting: matches!(status, Status::Waiting),
        going: !matches!(status, Status::Ended),
    }
}

// The lines of the records at hand go out.
fn print(
    streams: Streams,
    log: Log,
    have: usize,
    ended: bool,
    input: &mut [u8],
    out: &mut [u8],
) -> State
    requires { have ≤ length input.old }
    ensures { Prints log have ended input.old out.old result input.new out.new }
{
    let r = work(log, have, ended, input, out);
    let end = r.end;
    let left = have - r.used;
    let next = r.log;
    let status = r.status;
    let answer = streams.output.write_all(&out[..end]);
    let took = told(
        streams.errors,
        "framelog: standard output could not be written",
        answer,
    )
    .is_some();
    after_write(took, next, left, ended, status)
}

fn turn(streams: Streams, st: State, input: &mut [u8], out: &mut [u8]) -> State
    requires { st.have ≤ length input.old }
    ensures { Turn st input.old out.old result input.new out.new }
{
    let log = st.log;
    let have = st.have;
    if st.waiting {
        match read_more(streams, input, have) {
            Got::Bytes(n) => print(streams, log, have + n, false, input, out),
            Got::End => print(streams, log, have, true, input, out),
            Got::Failed => stopped(log),
        }
    } else {
        print(streams, log, have, st.ended, input, out)
    }
}

// A proved loop has to end, and nothing says that the input does: the turns are counted up to a number that no run comes to.
fn run(streams: Streams, input: &mut [u8], out: &mut [u8])
    ensures { Ran input.old out.old input.new out.new }
{
    let mut st = State {
        log: can_log::start(),
        have: 0,
        ended: false,
        waiting: true,
        going: true,
    };
    for _ in 0..u64::MAX {
        if !st.going {
            return;
        }
        st = turn(streams, st, input, out);
    }
}

fn main(rt: HostRuntime) {
    let mut input = [0u8; 65536];
    let mut out = [0u8; 65536];
    let streams = Streams {
        input: rt.stdin(),
        output: rt.stdout(),
        errors: rt.stderr(),
    };
    run(streams, &mut input, &mut out);
}
