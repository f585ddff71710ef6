// Reading a line of a script: hexadecimal numbers and bytes, parted by one blank.
ghost use Rattle.std.specs.Prelude.{◌<◌, IfSome};
ghost use Rattle.io.specs.Counts.{IsPrefixLen};

use bits::ByteOrder;
use conversion::{Condition, SignalDefinition, f32_of_bits};

// What a field of a line can be read as: the low bits of its number, or what these stand for.
pub trait Field {
    fn of(n: u64) -> Self;
}

impl Field for u64 {
    fn of(n: u64) -> u64 {
        n
    }
}

impl Field for usize {
    fn of(n: u64) -> usize {
        n as usize
    }
}

impl Field for u32 {
    fn of(n: u64) -> u32 {
        (n % 0x1_0000_0000) as u32
    }
}

impl Field for u16 {
    fn of(n: u64) -> u16 {
        (n % 0x1_0000) as u16
    }
}

impl Field for u8 {
    fn of(n: u64) -> u8 {
        (n % 0x100) as u8
    }
}

impl Field for bool {
    fn of(n: u64) -> bool {
        n != 0
    }
}

impl Field for f32 {
    fn of(n: u64) -> f32 {
        f32_of_bits(u32::of(n))
    }
}

// The 64 bits as two's complement.
impl Field for i64 {
    fn of(n: u64) -> i64 {
        n.cast_signed()
    }
}

impl Field for ByteOrder {
    fn of(n: u64) -> ByteOrder {
        if n == 0 {
            ByteOrder::LittleEndian
        } else {
            ByteOrder::BigEndian
        }
    }
}

impl Field for Condition {
    fn of(n: u64) -> Condition {
        if n == 0 {
            Condition::Always
        } else {
            Condition::Only(u16::of(n))
        }
    }
}

// The value of a hexadecimal digit.
fn digit(b: u8) -> Option<u8>
    ensures { IfSome result (λ d. d < 16) }
{
    let d = char::from(b).to_digit(16)?;
    Some(d as u8)
}

// The bytes that the digits stand for, into the front of `out`, and how many there are. By index: it is the answer where no pair follows.
fn read_bytes(digits: &[u8], out: &mut [u8]) -> usize
    ensures { IsPrefixLen result out.new }
{
    let most = out.len();
    for (n, pair) in digits.chunks_exact(2).take(most).enumerate() {
        let (Some(high), Some(low)) = (digit(pair[0]), digit(pair[1])) else {
            return n;
        };
        out[n] = high * 16 + low;
    }
    most.min(digits.len() / 2)
}

// The letter of a line, its fields that are not read yet, and a buffer for its bytes.
// Apart from `Output`: the answers stay through the script, and these last for one line.
#[derive(Drop)]
pub struct Fields<'a, 'd> {
    pub letter: u8,
    rest: &'a [u8],
    data: &'d mut [u8],
}

impl<'a, 'd> Fields<'a, 'd> {
    // None for a line without a letter, else the fields behind the letter and its blank.
    pub fn of_line(line: &'a [u8], data: &'d mut [u8]) -> Option<Fields<'a, 'd>> {
        let letter = *line.first()?;
        let rest = &line[line.len().min(2)..];
        Some(Fields { letter, rest, data })
    }

    // The next number. A field that is missing is 0.
    fn number(&mut self) -> u64 {
        let rest = self.rest;
        let mut value: u64 = 0;
        for (i, b) in rest.iter().enumerate() {
            let Some(d) = digit(*b) else {
                self.rest = &rest[i + 1..];
                return value;
            };
            value = value % 0x1000_0000_0000_0000 * 16 + u64::from(d);
        }
        self.rest = &rest[rest.len()..];
        value
    }

    // The next number, as what it stands for.
    pub fn read<T: Field>(&mut self) -> T {
        T::of(self.number())
    }

    // The bytes at the end of the line, as many as the buffer holds.
    pub fn bytes(&mut self) -> &mut [u8] {
        let n = read_bytes(self.rest, self.data);
        &mut self.data[..n]
    }

    // The definition that stands next.
    pub fn definition(&mut self) -> SignalDefinition {
        SignalDefinition {
            can_id: self.read(),
            is_extended: self.read(),
            start_bit: self.read(),
            bit_length: self.read(),
            byte_order: self.read(),
            scale: self.read(),
            offset: self.read(),
            name_hash: self.read(),
            signed: self.read(),
            is_multiplexor: self.read(),
            condition: self.read(),
        }
    }
}
