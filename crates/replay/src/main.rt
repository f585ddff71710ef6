// Answers a script of library calls on standard input: each answer, each lent buffer and, where asked, the whole state.
// The same script goes to the Rust, and the two outputs are compared. The form of a script is in oracle/SCRIPTS.md; the
// files stdin and stdout of this crate, a script and the Rust's answers, are made by oracle/stored.
#![tactic(auto)]

mod chaining;
mod detecting;
mod engine;
mod framing;
mod modelling;
mod output;
mod plain;
mod rendering;
mod script;

ghost use Rattle.std.specs.Prelude.{◌≤◌, length};

use chaining::Markov;
use detector::EwmaDetector;
use modelling::Histogram;
use output::Output;
use script::Fields;
use std::io::{Read, Stdin};
use table::SignalIdsEngine;

// What the calls of a script act on, the bytes that a call is lent, and the answers so far.
#[derive(Drop)]
struct Machine {
    detector: Option<EwmaDetector>,
    engine: Option<SignalIdsEngine>,
    histogram: Histogram,
    markov: Markov,
    data: [u8; 4096],
    out: Output,
}

impl Machine {
    fn new() -> Machine {
        Machine {
            detector: None,
            engine: None,
            histogram: Histogram::none(),
            markov: Markov::none(),
            data: [0; 4096],
            out: Output::new(),
        }
    }

    // The answer to one line, by the first module that knows the letter. Any other letter is left out.
    fn answer(&mut self, line: &[u8]) {
        let Some(mut fields) = Fields::of_line(line, &mut self.data) else {
            return;
        };
        let letter = fields.letter;
        if let Ok(call) = modelling::Call::try_from(letter) {
            self.histogram.answer(call, &mut fields, &mut self.out);
        } else if let Ok(call) = chaining::Call::try_from(letter) {
            self.markov.answer(call, &mut fields, &mut self.out);
        } else if let Ok(call) = engine::Call::try_from(letter) {
            self.engine = engine::answer(self.engine, call, &mut fields, &mut self.out);
        } else if let Ok(call) = detecting::Call::try_from(letter) {
            self.detector = detecting::answer(self.detector, call, &mut fields, &mut self.out);
        } else if let Ok(call) = plain::Call::try_from(letter) {
            plain::answer(call, &mut fields, &mut self.out);
        }
    }

    // The answer to one line; what was written goes out where the buffer is half full.
    fn line(&mut self, rt: &impl Print, line: &[u8]) {
        self.answer(line);
        self.out.flush(rt, 32768);
    }

    // Every whole line of the bytes, and the last one without its end where the input has ended; and how many bytes were whole lines.
    // By hand: with `split_inclusive` the proof of the loop did not close.
    fn lines(&mut self, rt: &impl Print, bytes: &[u8], ended: bool) -> usize
        ensures { result ≤ length bytes.now }
    {
        let mut at = 0;
        while let Some(k) = bytes[at..].iter().position(|b| *b == b'\n') {
            self.line(rt, &bytes[at..at + k]);
            at += k + 1;
        }
        if ended {
            self.line(rt, &bytes[at..]);
        }
        at
    }
}

// Reads until the buffer is full, the input ends or a read fails, and answers how many bytes stand at its front.
// By hand: `read_exact` answers no count where the input ends short.
fn read_full(mut stdin: Stdin, buf: &mut [u8]) -> usize
    ensures { result ≤ length buf.new }
{
    let mut done = 0;
    while done < buf.len() {
        match stdin.read(&mut buf[done..]) {
            Ok(n) if n > 0 => done += n,
            _ => return done,
        }
    }
    done
}

// Reads and answers until the input ends. A line longer than the buffer ends the run. A proved loop has to end, and nothing says that
// the input does: the turns are counted up to a number that no run reaches.
// The first `have` bytes of `input` are not answered yet: no other function has the two.
fn run(rt: &impl Print, stdin: Stdin, input: &mut [u8]) {
    let mut machine = Machine::new();
    let mut have = 0;
    for _ in 0..u64::MAX {
        let got = read_full(stdin, &mut input[have..]);
        let n = have + got;
        let used = machine.lines(rt, &input[..n], got == 0);
        if got == 0 {
            machine.out.flush(rt, 0);
            return;
        }
        input.copy_within(used..n, 0);
        have = n - used;
    }
}

fn main(rt: HostRuntime) {
    let mut input = [0u8; 65536];
    run(&rt, rt.stdin(), &mut input);
}
