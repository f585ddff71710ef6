// Writing answers into a buffer, one behind the other. What does not fit is left out.
use bits::ByteOrder;
use conversion::{Condition, SignalDefinition, bits_of_f32};
use detector::EwmaDetector;

// The answers so far are the first `len` bytes. An array with its length, since there is no heap.
#[derive(Drop)]
pub struct Output {
    buffer: [u8; 65536],
    len: usize,
}

// What a call that may refuse answers, in the form that it has in the output.
pub trait Shown {
    fn show(self, out: &mut Output);
}

impl Shown for u64 {
    fn show(self, out: &mut Output) {
        out.field(self, 16);
    }
}

impl Shown for f32 {
    fn show(self, out: &mut Output) {
        out.float(self);
    }
}

impl Shown for bool {
    fn show(self, out: &mut Output) {
        out.flag(self);
    }
}

impl Output {
    pub fn new() -> Output {
        Output {
            buffer: [0; 65536],
            len: 0,
        }
    }

    // What was written goes out where there are as many bytes as `room`. A write that fails leaves it out.
    pub fn flush(&mut self, rt: &impl Print, room: usize) {
        if self.len < room {
            return;
        }
        let end = self.len.min(self.buffer.len());
        let _ = rt.write_all(&self.buffer[..end]);
        self.len = 0;
    }

    pub fn byte(&mut self, b: u8) {
        if self.len < self.buffer.len() {
            self.buffer[self.len] = b;
            self.len += 1;
        }
    }

    pub fn text(&mut self, text: &[u8]) {
        for b in text {
            self.byte(*b);
        }
    }

    // The low `digits` hexadecimal digits of a number.
    fn hex(&mut self, n: u64, digits: u32) {
        for i in (0..digits.min(16)).rev() {
            self.byte(b"0123456789ABCDEF"[(n >> (4 * i)) as usize % 16]);
        }
    }

    // A blank, and the digits.
    pub fn field(&mut self, n: u64, digits: u32) {
        self.byte(b' ');
        self.hex(n, digits);
    }

    // A blank and so many digits for each number.
    pub fn fields(&mut self, numbers: &[u64], digits: u32) {
        for n in numbers {
            self.field(*n, digits);
        }
    }

    // A blank, and a float by its bits, those of one NaN for all.
    pub fn float(&mut self, x: f32) {
        self.field(u64::from(bits_of_f32(x)), 8);
    }

    pub fn flag(&mut self, flag: bool) {
        self.field(u64::from(flag), 1);
    }

    // An answer's number, 0 for success, in one hexadecimal digit or in two.
    fn number(&mut self, number: u8) {
        self.field(u64::from(number), if number < 16 { 1 } else { 2 });
    }

    // 0, or the refusal's number.
    pub fn done<E: Into<u8>>(&mut self, answer: Result<(), E>) {
        match answer {
            Ok(_) => self.number(0),
            Err(error) => self.number(error.into()),
        }
    }

    // A value in its form, or the refusal's number behind a word.
    pub fn told<T: Shown, E: Into<u8>>(&mut self, answer: Result<T, E>) {
        match answer {
            Ok(value) => value.show(self),
            Err(error) => {
                self.text(b" refused");
                self.number(error.into());
            }
        }
    }

    // Bytes, `-` where there are none.
    pub fn bytes(&mut self, bytes: &[u8]) {
        self.byte(b' ');
        if bytes.is_empty() {
            self.byte(b'-');
        }
        for b in bytes {
            self.hex(u64::from(*b), 2);
        }
    }

    // Every field of a detector.
    pub fn detector(&mut self, d: EwmaDetector) {
        self.fields(
            &[
                u64::from(bits_of_f32(d.mean)),
                u64::from(bits_of_f32(d.variance)),
                u64::from(bits_of_f32(d.alpha)),
                u64::from(bits_of_f32(d.z_threshold)),
                u64::from(d.count),
                u64::from(d.frozen),
                u64::from(d.freeze_remaining),
                u64::from(d.freeze_duration),
                u64::from(d.warmup_count),
            ],
            8,
        );
    }

    // Every field of a definition.
    pub fn definition(&mut self, d: SignalDefinition) {
        let condition = match d.condition {
            Condition::Always => 0,
            Condition::Only(n) => 0x1_0000 + u64::from(n),
        };
        self.fields(
            &[
                u64::from(d.can_id),
                u64::from(d.is_extended),
                u64::from(d.start_bit),
                u64::from(d.bit_length),
                u64::from(d.byte_order == ByteOrder::BigEndian),
                u64::from(bits_of_f32(d.scale)),
                u64::from(bits_of_f32(d.offset)),
                u64::from(d.name_hash),
                u64::from(d.signed),
                u64::from(d.is_multiplexor),
                condition,
            ],
            8,
        );
    }
}
