// The lines of text: each is built by itself, and then stands in a lent buffer from a place on.
ghost use Rattle.std.specs.Prelude.{◌≡◌, ◌+◌, ◌<◌, ◌≤◌, ◌*◌, ℕ, List, [], ◌++◌, length, take};
ghost use Rattle.can_log.specs.Lines.{slot_answer, done_answer, Put, upper, hex8, decimal, answer_line, anomaly_line, anomaly_lines, end_line, text_of, rendered_means, rendered_of, buffer_of};

use conversion::bits_of_f32;
use frames::SignalAnomaly;
use std::marker::Model;
use table::TableError;

// What a line says of a table call: the slot that define gave, success, or document 01's number of a refusal. A number and no
// `TableError`, since `render` takes any number.
#[derive(Clone, Copy, PartialEq, Eq)]
pub enum Answer {
    Slot(u16),
    Done,
    Refused(u8),
}

impl From<Result<u16, TableError>> for Answer {
    ghost from_gives = { λ r a. a ≡ slot_answer r };

    // The answer of `define_signal`.
    fn from(answer: Result<u16, TableError>) -> Answer {
        match answer {
            Ok(slot) => Answer::Slot(slot),
            Err(error) => Answer::Refused(u8::from(error)),
        }
    }
}

// Two impls: Ok is a slot in one and plain success in the other.
impl From<Result<(), TableError>> for Answer {
    ghost from_gives = { λ r a. a ≡ done_answer r };

    // The answer of the other table calls.
    fn from(answer: Result<(), TableError>) -> Answer {
        match answer {
            Ok(()) => Answer::Done,
            Err(error) => Answer::Refused(u8::from(error)),
        }
    }
}

// A line of the output, each with its record's number but the end line, which has the number of sound records. The stopping number
// is a number and no `Stop`, since `render` takes any.
#[derive(Clone, Copy)]
pub enum LogLine {
    Defined(u32, Answer),
    Removed(u32, Answer),
    Anomaly(u32, SignalAnomaly),
    End(u32, u8),
}

// The buffer is shorter than a line may be, and is as it was.
#[derive(Clone, Copy, Debug, PartialEq, Eq)]
pub struct NoRoom;

// A line while it is built, of at most 55 bytes: no line is longer. An array with its length, since there is no heap.
#[derive(Drop)]
struct Line {
    bytes: [u8; 55],
    len: usize,
}

// A line is seen as its bytes.
impl Model for Line {
    ghost Value = { List ℕ };

    ghost view = { λ line. take line.len line.bytes };

    ghost invariant = { λ line. line.len ≤ 55 };
}

impl Line {
    fn new() -> Line
        ensures { result ≡ [] }
    {
        Line {
            bytes: [0; 55],
            len: 0,
        }
    }

    // The text as it is.
    #[inline(always)]
    fn put(&mut self, text: &[u8])
        requires { length self.old + length text.now ≤ 55 }
        ensures text { self.new ≡ self.old ++ text.now }
        ensures len { length self.new ≡ length self.old + length text.now }
    {
        let end = self.len + text.len();
        self.bytes[self.len..end].copy_from_slice(text);
        self.len = end;
    }

    fn put_hex(&mut self, n: u32)
        requires { length self.old + 8 ≤ 55 }
        ensures text { self.new ≡ self.old ++ hex8 n }
        ensures len { length self.new ≡ length self.old + 8 }
    {
        self.put(&hex(n));
    }

    #[inline(always)]
    fn put_decimal(&mut self, n: u32)
        requires { length self.old + 10 ≤ 55 }
        ensures text { self.new ≡ self.old ++ decimal n }
        ensures len { length self.new ≤ length self.old + 10 }
    {
        let mut text = [0u8; 20];
        let k = io::decimal(u64::from(n), &mut text);
        self.put(&text[..k]);
    }

    // The line in a buffer from a place on, and the place behind it.
    #[inline(always)]
    fn write(&self, out: &mut [u8], at: usize) -> usize
        requires { at + length self.now ≤ length out.old }
        ensures { Put out.old at self.now result out.new }
    {
        let end = at + self.len;
        out[at..end].copy_from_slice(&self.bytes[..self.len]);
        end
    }
}

// No `Display` and no `io::hex` for the numbers: `write!` promises its text only where it answers Ok, and `io::hex` writes lower case.
// An upper-case hexadecimal digit. Two cases, as `upper` has them.
fn digit(d: u32) -> u8
    requires { d < 16 }
    ensures { result ≡ upper d }
{
    if d < 10 {
        return b'0' + d as u8;
    }
    b'A' - 10 + d as u8
}

// Digit by digit and in no loop, as `hex8` has them.
fn hex(n: u32) -> [u8; 8]
    ensures { result ≡ hex8 n }
{
    [
        digit(n / 0x1000_0000 % 16),
        digit(n / 0x100_0000 % 16),
        digit(n / 0x10_0000 % 16),
        digit(n / 0x1_0000 % 16),
        digit(n / 0x1000 % 16),
        digit(n / 0x100 % 16),
        digit(n / 0x10 % 16),
        digit(n % 16),
    ]
}

// The line of a table call, whose letter is D or R.
#[inline(always)]
fn answer_line(letter: &[u8; 2], n: u32, answer: Answer) -> Line
    ensures text { result ≡ answer_line letter.now n answer }
    ensures len { length result ≤ 32 }
{
    let mut line = Line::new();
    line.put(letter);
    line.put_decimal(n);
    match answer {
        Answer::Slot(k) => {
            line.put(b" slot ");
            line.put_decimal(u32::from(k));
            line.put(b"\n");
        }
        Answer::Done => line.put(b" ok\n"),
        Answer::Refused(k) => {
            line.put(b" refused ");
            line.put_decimal(u32::from(k));
            line.put(b"\n");
        }
    }
    line
}

// The end line: the number of sound records, and the stopping number.
#[inline(always)]
fn end_line(n: u32, k: u8) -> Line
    ensures text { result ≡ end_line n k }
    ensures len { length result ≤ 26 }
{
    let mut line = Line::new();
    line.put(b"end ");
    line.put_decimal(n);
    line.put(b" ");
    line.put_decimal(u32::from(k));
    line.put(b"\n");
    line
}

fn anomaly_line(n: u32, x: SignalAnomaly) -> Line
    ensures text { result ≡ anomaly_line n x }
    ensures len { length result ≤ 55 }
{
    let mut line = Line::new();
    line.put(b"F ");
    line.put_decimal(n);
    line.put(b" slot ");
    line.put_decimal(u32::from(x.slot));
    line.put(b" z ");
    line.put_hex(bits_of_f32(x.z_score));
    line.put(b" value ");
    line.put_hex(bits_of_f32(x.physical_value));
    line.put(b"\n");
    line
}

pub(crate) fn put_answer(
    out: &mut [u8],
    at: usize,
    letter: &[u8; 2],
    n: u32,
    answer: Answer,
) -> usize
    requires { at + 32 ≤ length out.old }
    ensures { Put out.old at (answer_line letter.now n answer) result out.new }
{
    answer_line(letter, n, answer).write(out, at)
}

pub(crate) fn put_end(out: &mut [u8], at: usize, n: u32, k: u8) -> usize
    requires { at + 26 ≤ length out.old }
    ensures { Put out.old at (end_line n k) result out.new }
{
    end_line(n, k).write(out, at)
}

// A line for each anomaly.
pub(crate) fn put_anomalies(out: &mut [u8], at: usize, n: u32, list: &[SignalAnomaly]) -> usize
    requires { at + 55 * length list.now ≤ length out.old }
    ensures { Put out.old at (anomaly_lines n list.now) result out.new }
{
    let mut end = at;
    for x in list {
        end = anomaly_line(n, *x).write(out, end);
    }
    end
}

// Any line.
#[inline(always)]
fn line_of(text: LogLine) -> Line
    ensures text { result ≡ text_of text }
    ensures len { length result ≤ 55 }
{
    match text {
        LogLine::Defined(n, answer) => answer_line(b"D ", n, answer),
        LogLine::Removed(n, answer) => answer_line(b"R ", n, answer),
        LogLine::Anomaly(n, x) => anomaly_line(n, x),
        LogLine::End(n, k) => end_line(n, k),
    }
}

// The line at the front of the buffer, which has to have 55 bytes: no line is longer.
pub fn render(text: LogLine, out: &mut [u8]) -> Result<usize, NoRoom>
    ensures result_value { rendered_means result ≡ rendered_of (length out.old) text }
    ensures out_after { out.new ≡ buffer_of out.old text }
{
    if out.len() < 55 {
        return Err(NoRoom);
    }
    Ok(line_of(text).write(out, 0))
}
