//! Tests of pushes of segments, of the largest list, and of errors that a caller from C cannot cause.
//! `evidence/memory/cases` asks what the other pushes write, and which are refused.

ghost use Rattle.std.specs.Prelude.{length, IsTrue};
ghost use Rattle.qrcode_types.specs.Versions.{is_valid};
ghost use Rattle.qrcode_bits.specs.Segments.{AreInside};

use crate::common::range;
use qrcode::EcLevel::{self, H, L};
use qrcode::QrCode;
use qrcode_bits::bits::{Bits, Manner};
use qrcode_bits::optimize::Segment;
use qrcode_types::types::QrError::{DataTooLong, InvalidVersion, UnsupportedCharacterSet};
use qrcode_types::types::Version::{self, Micro, Normal};
use qrcode_types::types::{Mode, QrResult};
use std::alloc::Global;

// A call that appends to a bit list.
#[derive(Clone, Copy)]
enum Push<'a> {
    Byte(&'a [u8]),
    FirstPosition,
}

use Push::{Byte, FirstPosition};

// Makes the call `push` on `bits`.
fn make_push(bits: &mut Bits, push: Push<'_>) -> QrResult<()> {
    match push {
        Byte(bytes) => bits.push_byte_data(bytes),
        FirstPosition => bits.push_fnc1_first_position(),
    }
}

// Makes the symbol of ECI 9 and `bytes`, which end for L.
fn of_pushes(alloc: Global, version: Version, ec_level: EcLevel, bytes: &[u8]) -> QrResult<QrCode> {
    if !version.is_valid() {
        return Err(InvalidVersion);
    }
    let mut bits = Bits::new(alloc, version);
    bits.push_eci_designator(9)?;
    bits.push_byte_data(bytes)?;
    bits.push_terminator(L)?;
    match bits.max_len(ec_level) {
        Ok(room) if room <= bits.len() => QrCode::with_bits(alloc, bits, ec_level),
        _ => Err(InvalidVersion),
    }
}

static GREEK: [u8; 10] = *b"\xca\xfe\xe4\xe9\xea\xe1\xf2 QR";

// Bits that end for L but are drawn at H, and versions that do not exist.
#[test]
fn calls_refuse(rt: HostRuntime) {
    let alloc = rt.alloc();
    assert!(rt; of_pushes(alloc, Normal(1), H, &GREEK).err() == Some(DataTooLong));
    let refused = QrCode::in_version(alloc, b"1", Manner::Text, Micro(0), L).err();
    assert!(rt; refused == Some(InvalidVersion));
    let refused = QrCode::at_least(alloc, b"1", Manner::Bytes, Normal(41), L).err();
    assert!(rt; refused == Some(InvalidVersion));
}

// Pushes the segments of `bytes`.
fn push_ranges(bits: &mut Bits, bytes: &[u8], ranges: Vec<Segment>) -> QrResult<()>
    requires inside { AreInside (length bytes.now) ranges.items }
{
    bits.push_segments(bytes, ranges.into_iter())
}

// Whether pushing these segments gives this answer, and a list with these bytes and bits.
fn ranges_give(
    alloc: Global,
    version: Version,
    bytes: &[u8],
    ranges: &[Segment],
    answer: QrResult<()>,
    held: (&[u8], usize),
) -> bool
    requires valid { IsTrue (is_valid version) }
    requires inside { AreInside (length bytes.now) ranges.now }
{
    let Ok(ranges) = Vec::from_slice(alloc, ranges) else {
        return false;
    };
    let mut bits = Bits::new(alloc, version);
    let is_new = bits.is_empty() && bits.version() == version;
    let is_answer = push_ranges(&mut bits, bytes, ranges) == answer && !bits.is_empty();
    is_new && is_answer && bits.len() == held.1 && bits.into_bytes().as_slice() == held.0
}

// The segments before one that fails stay in the list.
#[test]
fn ranges_give_lists(rt: HostRuntime) {
    let alloc = rt.alloc();
    let digits = [range(Mode::Numeric, 0, 2), range(Mode::Numeric, 0, 2)];
    let held = (b"\x10\x08\x60\x80\x43\x00".as_slice(), 42);
    assert!(rt; ranges_give(alloc, Normal(1), b"12", &digits, Ok(()), held));
    let none = [range(Mode::Numeric, 0, 0)];
    let held = (b"\x10\x00".as_slice(), 14);
    assert!(rt; ranges_give(alloc, Normal(1), b"", &none, Ok(()), held));
    let ranges = [range(Mode::Numeric, 0, 1), range(Mode::Byte, 1, 2)];
    let held = (b"\x08\x80".as_slice(), 9);
    let answer = Err(UnsupportedCharacterSet);
    assert!(rt; ranges_give(alloc, Micro(2), b"1a", &ranges, answer, held));
}

// Whether the list has `length` bits, rejects the push as too long, and stays as it is.
fn is_full(bits: &mut Bits, length: usize, next: Push<'_>) -> bool {
    bits.len() == length && make_push(bits, next) == Err(DataTooLong) && bits.len() == length
}

// Pushes the bytes `count` times.
fn push_times(bits: &mut Bits, bytes: &[u8], count: u32) -> QrResult<()> {
    for _ in 0..count {
        make_push(bits, Byte(bytes))?;
    }
    Ok(())
}

// A list has at most 16,777,216 bits.
#[test]
fn lists_are_limited(rt: HostRuntime) {
    let data = Vec::from_elem(rt.alloc(), b'a', 65_535).expect(&rt, "memory");
    let rest = data.get(..65_487).expect(&rt, "bytes");
    let mut bits = Bits::new(rt.alloc(), Normal(40));
    push_times(&mut bits, &data, 31).expect(&rt, "room");
    assert!(rt; is_full(&mut bits, 16_253_300, Byte(&data)));
    push_times(&mut bits, rest, 1).expect(&rt, "room");
    assert!(rt; is_full(&mut bits, 16_777_216, FirstPosition));
}
