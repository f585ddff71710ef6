// One record: the mark at the front of the bytes, and what the record says.
ghost use Rattle.std.specs.Prelude.{◌≡◌, ◌+◌, ◌<◌, length, get_or};
ghost use Rattle.can_log.specs.Records.{stop_number, item_means, le16, le32, mark_of, known, size_of, settings_of, define_of, remove_of, frame_of, fd_length, fd_frame_of, in_front, record_of, item_of, misplaced, bad_flags, condition_of, order_of};

use bits::ByteOrder;
use conversion::{Condition, SignalDefinition, f32_of_bits};
use frames::FrameHeader;

// Why the log stops, each with the documents' number. Where the input ends inside a record it is `Cut`.
#[derive(Clone, Copy, Debug, PartialEq, Eq)]
pub enum Stop {
    UnknownMark = 10,
    Cut = 11,
    Misplaced = 12,
    BadFlags = 13,
    BadLength = 14,
    TooManyRecords = 15,
}

impl From<Stop> for u8 {
    ghost from_gives = { λ stop n. n ≡ stop_number stop };

    // The number in the end line.
    fn from(stop: Stop) -> u8 {
        stop as u8
    }
}

// The two bytes in front of a record.
#[derive(Clone, Copy, PartialEq, Eq)]
pub enum Mark {
    Settings,
    Definition,
    Removal,
    Frame,
    FdFrame,
}

impl TryFrom<[u8; 2]> for Mark {
    type Error = Stop;

    ghost try_from_gives = { λ bytes r. r ≡ known (mark_of (get_or bytes 0 0) (get_or bytes 1 0)) };

    // A5 and a letter: P, D, R, F or X.
    #[tactic(auto, unfolding(crate::specs::Records::mark_of))]
    fn try_from(bytes: [u8; 2]) -> Result<Mark, Stop> {
        if bytes[0] != 0xa5 {
            return Err(Stop::UnknownMark);
        }
        match bytes[1] {
            b'P' => Ok(Mark::Settings),
            b'D' => Ok(Mark::Definition),
            b'R' => Ok(Mark::Removal),
            b'F' => Ok(Mark::Frame),
            b'X' => Ok(Mark::FdFrame),
            _ => Err(Stop::UnknownMark),
        }
    }
}

impl Mark {
    // How many bytes a record has, its mark among them.
    fn size(self) -> usize
        ensures { result ≡ size_of (Some self) }
    {
        match self {
            Mark::Settings => 10,
            Mark::Definition => 24,
            Mark::Removal => 4,
            Mark::Frame => 16,
            Mark::FdFrame => 72,
        }
    }

    // The first record has to be the settings, and no later one may be.
    fn is_misplaced(self, count: u32) -> bool
        ensures { result ≡ misplaced count (Some self) }
    {
        match self {
            Mark::Settings => count != 0,
            Mark::Definition | Mark::Removal | Mark::Frame | Mark::FdFrame => count == 0,
        }
    }
}

// What a record asks of the table.
#[derive(Clone, Copy)]
pub enum Request {
    Settings(f32, f32),
    Define(SignalDefinition),
    Remove(u16),
}

// A whole record.
#[derive(Clone, Copy)]
pub enum Item {
    Call(Request),
    // a frame, whose data bytes stand at 8: eight of a classic one, and 64 of an FD one
    Frame(FrameHeader),
}

// Little-endian numbers at a place. Two functions: `from_le_bytes` is in no trait that one could ask for.
fn u16_at(s: &[u8], i: usize) -> u16
    requires { i + 1 < length s.now }
    ensures { result ≡ le16 s.now i }
{
    u16::from_le_bytes([s[i], s[i + 1]])
}

fn u32_at(s: &[u8], i: usize) -> u32
    requires { i + 3 < length s.now }
    ensures { result ≡ le32 s.now i }
{
    u32::from_le_bytes([s[i], s[i + 1], s[i + 2], s[i + 3]])
}

// The kinds of records. Slices with their length in the contract: `record_of` cuts the record by the mark's size.
#[tactic(auto, unfolding(crate::specs::Records::settings_of))]
fn settings(s: &[u8]) -> Item
    requires { length s.now ≡ 10 }
    ensures { item_means (Ok (Some result)) ≡ settings_of s.now }
{
    let alpha = f32_of_bits(u32_at(s, 2));
    let threshold = f32_of_bits(u32_at(s, 6));
    Item::Call(Request::Settings(alpha, threshold))
}

// Whether an undefined flag is set, or a condition number stands without its flag.
#[tactic(auto, unfolding(crate::specs::Records::bad_flags))]
fn is_bad(flags: u8, number: u16) -> bool
    ensures { result ≡ bad_flags flags number }
{
    flags >= 32 || flags / 16 % 2 != 1 && number != 0
}

#[tactic(auto, unfolding(crate::specs::Records::condition_of))]
fn condition_of(flags: u8, number: u16) -> Condition
    ensures { result ≡ condition_of flags number }
{
    if flags / 16 % 2 == 1 {
        Condition::Only(number)
    } else {
        Condition::Always
    }
}

#[tactic(auto, unfolding(crate::specs::Records::order_of))]
fn order_of(flags: u8) -> ByteOrder
    ensures { result ≡ order_of flags }
{
    if flags / 2 % 2 == 1 {
        ByteOrder::BigEndian
    } else {
        ByteOrder::LittleEndian
    }
}

fn define(s: &[u8]) -> Result<Item, Stop>
    requires { length s.now ≡ 24 }
    ensures { item_means (in_front result) ≡ define_of s.now }
{
    let flags = s[6];
    let number = u16_at(s, 22);
    if is_bad(flags, number) {
        return Err(Stop::BadFlags);
    }
    Ok(Item::Call(Request::Define(SignalDefinition {
        can_id: u32_at(s, 2),
        is_extended: flags % 2 == 1,
        start_bit: u16_at(s, 7),
        bit_length: s[9],
        byte_order: order_of(flags),
        scale: f32_of_bits(u32_at(s, 10)),
        offset: f32_of_bits(u32_at(s, 14)),
        name_hash: u32_at(s, 18),
        signed: flags / 4 % 2 == 1,
        is_multiplexor: flags / 8 % 2 == 1,
        condition: condition_of(flags, number),
    })))
}

#[tactic(auto, unfolding(crate::specs::Records::remove_of))]
fn remove(s: &[u8]) -> Item
    requires { length s.now ≡ 4 }
    ensures { item_means (Ok (Some result)) ≡ remove_of s.now }
{
    Item::Call(Request::Remove(u16_at(s, 2)))
}

// Two functions for the two kinds of frames: flags, length and remote are each tested another way.
fn frame(s: &[u8]) -> Result<Item, Stop>
    requires { length s.now ≡ 16 }
    ensures { item_means (in_front result) ≡ frame_of s.now }
{
    let flags = s[2];
    let length = s[3];
    if flags >= 4 {
        return Err(Stop::BadFlags);
    }
    if length > 15 {
        return Err(Stop::BadLength);
    }
    Ok(Item::Frame(FrameHeader {
        id: u32_at(s, 4),
        is_extended: flags % 2 == 1,
        is_remote: flags / 2 % 2 == 1,
        is_fd: false,
        length,
    }))
}

// Whether an FD frame can have so many bytes.
#[tactic(auto, unfolding(crate::specs::Records::fd_length))]
fn is_fd_length(n: u8) -> bool
    ensures { result ≡ fd_length n }
{
    matches!(n, 0..=8 | 12 | 16 | 20 | 24 | 32 | 48 | 64)
}

fn fd_frame(s: &[u8]) -> Result<Item, Stop>
    requires { length s.now ≡ 72 }
    ensures { item_means (in_front result) ≡ fd_frame_of s.now }
{
    let flags = s[2];
    let length = s[3];
    if flags >= 2 {
        return Err(Stop::BadFlags);
    }
    if !is_fd_length(length) {
        return Err(Stop::BadLength);
    }
    Ok(Item::Frame(FrameHeader {
        id: u32_at(s, 4),
        is_extended: flags == 1,
        is_remote: false,
        is_fd: true,
        length,
    }))
}

// The record whose mark is k and whose bytes are s.
fn record_of(s: &[u8], k: Mark) -> Result<Item, Stop>
    requires { length s.now ≡ size_of (Some k) }
    ensures { item_means (in_front result) ≡ record_of s.now (Some k) }
{
    match k {
        Mark::Settings => Ok(settings(s)),
        Mark::Definition => define(s),
        Mark::Removal => Ok(remove(s)),
        Mark::Frame => frame(s),
        Mark::FdFrame => fd_frame(s),
    }
}

// What stands at the front of the bytes, after `count` sound records: a whole record, nothing where they are none or a part of one,
// or why the log stops.
pub fn item_at_front(count: u32, s: &[u8]) -> Result<Option<Item>, Stop>
    ensures { item_means result ≡ item_of count s.now }
{
    if s.is_empty() {
        return Ok(None);
    }
    if count == u32::MAX {
        return Err(Stop::TooManyRecords);
    }
    if s.len() == 1 {
        return Ok(None);
    }
    let k = Mark::try_from([s[0], s[1]])?;
    let n = k.size();
    if s.len() < n {
        return Ok(None);
    }
    if k.is_misplaced(count) {
        return Err(Stop::Misplaced);
    }
    Ok(Some(record_of(&s[..n], k)?))
}
