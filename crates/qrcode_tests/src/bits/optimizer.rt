//! Tests of how data is cut into segments, and of how segments are joined. `evidence/memory/cases`
//! and the tests of the C library have other cuts.

ghost use Rattle.qrcode_bits.specs.Groups.{IsJoinable};

use crate::common::{check_row, range};
use qrcode_bits::optimize::{Optimizer, Parser, Segment, least_segments, total_encoded_len};
use qrcode_types::types::Mode::{self, Alphanumeric, Byte, Kanji, Numeric};
use qrcode_types::types::QrError::{DataTooLong, InvalidVersion};
use qrcode_types::types::QrResult;
use qrcode_types::types::Version::{self, Micro, Normal};
use std::alloc::Global;

/// A way to cut data into segments.
#[derive(Clone, Copy)]
enum Way {
    /// Runs of bytes of one kind.
    Runs,
    /// The runs, joined where that takes no more bits.
    Joined,
    /// The cut with the fewest bits.
    Least,
}

use Way::{Joined, Least, Runs};

// The mode, begin and end of a segment.
type Cut = (Mode, usize, usize);

// Data, the version that it is cut for, the way to cut it, and the segments or the error.
type Cutting = (&'static [u8], Version, Way, QrResult<&'static [Cut]>);

#[rattlefmt::skip]
static CUTS: [Cutting; 13] = [
    (
        b"\x82\xa0\x81\x41\x41\xb1\x81\xf0", Normal(1), Runs,
        Ok(&[(Kanji, 0, 4), (Alphanumeric, 4, 5), (Byte, 5, 6), (Kanji, 6, 8)]),
    ),
    (b"\xeb\xc0", Normal(1), Runs, Ok(&[(Byte, 0, 1), (Byte, 1, 2)])),
    (b"\x81\x40\x81", Normal(1), Runs, Ok(&[(Kanji, 0, 2), (Byte, 2, 3)])),
    (b"1234567A", Normal(1), Joined, Ok(&[(Alphanumeric, 0, 8)])),
    (b"123A", Micro(2), Joined, Ok(&[(Numeric, 0, 3), (Alphanumeric, 3, 4)])),
    (b"123A", Micro(3), Joined, Ok(&[(Alphanumeric, 0, 4)])),
    (b"12AB", Micro(2), Joined, Ok(&[(Alphanumeric, 0, 4)])),
    (b"\xeb\xc0", Normal(1), Joined, Ok(&[(Byte, 0, 2)])),
    (b"\x81\x40\x81", Normal(1), Joined, Ok(&[(Byte, 0, 3)])),
    (b"ABC123abcd", Normal(1), Joined, Ok(&[(Alphanumeric, 0, 6), (Byte, 6, 10)])),
    (b"a1234b", Normal(1), Joined, Ok(&[(Byte, 0, 1), (Numeric, 1, 5), (Byte, 5, 6)])),
    (b"a1234bc", Normal(1), Joined, Ok(&[(Byte, 0, 1), (Numeric, 1, 5), (Byte, 5, 7)])),
    (b"", Micro(1), Least, Ok(&[])),
];

// Cuts data in the way that is asked for.
fn segments(alloc: Global, data: &[u8], version: Version, way: Way) -> QrResult<Vec<Segment>> {
    if !version.is_valid() {
        return Err(InvalidVersion);
    }
    if data.len() > 1_048_576 {
        return Err(DataTooLong);
    }
    match way {
        Runs => Ok(Parser::new(data).collect(alloc)?),
        Joined => Ok(Parser::new(data).optimize(version).collect(alloc)?),
        Least => least_segments(alloc, data, version),
    }
}

// Whether `segments` are exactly `cuts`.
fn are_cuts(segments: &[Segment], cuts: &[Cut]) -> bool {
    let mut are_same = segments.len() == cuts.len();
    for (it, (mode, begin, end)) in segments.iter().zip(cuts) {
        are_same = are_same && it.mode == *mode && it.begin == *begin && it.end == *end;
    }
    are_same
}

#[test]
fn data_is_cut(rt: HostRuntime) {
    for (i, (data, version, way, cuts)) in CUTS.iter().enumerate() {
        let segments = segments(rt.alloc(), *data, *version, *way);
        let is_cut = matches!((&segments, cuts), (Ok(it), Ok(cuts)) if are_cuts(it, *cuts));
        check_row(&rt, i, is_cut);
    }
}

// Whether the optimizer joins `given` into `cuts` in Normal 1.
fn joins(alloc: Global, given: &[Segment], cuts: &[Cut]) -> bool
    requires joinable { IsJoinable given.now }
{
    let joined = Optimizer::new(given.iter().copied(), Normal(1)).collect::<Vec<Segment>>(alloc);
    matches!(&joined, Ok(joined) if are_cuts(joined, cuts))
}

// Segments that no parser gives: none at all, empty ones, Kanji with a byte left over, and
// neighbours of one mode.
#[test]
fn odd_segments_are_joined(rt: HostRuntime) {
    let empty = [range(Numeric, 3, 3), range(Byte, 3, 3), range(Kanji, 3, 3)];
    let pairs = [range(Kanji, 1, 4), range(Kanji, 4, 7)];
    let bytes = [range(Byte, 0, 2), range(Byte, 2, 5)];
    assert!(rt; joins(rt.alloc(), &[], &[]));
    assert!(rt; joins(rt.alloc(), &empty, &[(Byte, 3, 3)]));
    assert!(rt; joins(rt.alloc(), &pairs, &[(Kanji, 1, 4), (Kanji, 4, 7)]));
    assert!(rt; joins(rt.alloc(), &bytes, &[(Byte, 0, 5)]));
}

// A version, segments, and the bits that they take by the standard.
#[rattlefmt::skip]
static LENGTHS: [(Version, &[Cut], usize); 13] = [
    (Micro(2), &[(Numeric, 0, 3)], 15),
    (Micro(2), &[(Alphanumeric, 3, 4)], 10),
    (Normal(1), &[(Byte, 0, 2)], 28),
    (Normal(40), &[(Kanji, 1, 17)], 120),
    (Normal(1), &[(Kanji, 0, 3)], 25),
    (Normal(1), &[(Alphanumeric, 0, 8)], 57),
    (Micro(3), &[(Alphanumeric, 0, 4)], 28),
    (Normal(1), &[(Byte, 0, 3)], 36),
    (Normal(1), &[(Alphanumeric, 0, 6), (Byte, 6, 10)], 90),
    (Normal(1), &[(Byte, 0, 1), (Numeric, 1, 5), (Byte, 5, 6)], 68),
    (Normal(1), &[(Byte, 0, 1), (Numeric, 1, 5), (Byte, 5, 7)], 76),
    (Normal(1), &[(Byte, 0, 6)], 60),
    (Normal(1), &[(Byte, 0, 1), (Kanji, 1, 17)], 136),
];

// Counts the bits of segments of at most 100 bytes.
fn bits_of(version: Version, cuts: &[Cut]) -> usize {
    let mut bits: usize = 0;
    for (mode, begin, end) in cuts {
        if version.is_valid() && begin <= end && *end <= 100 {
            bits = bits.saturating_add(range(*mode, *begin, *end).encoded_len(version));
        }
    }
    bits
}

#[test]
fn lengths_are_counted(rt: HostRuntime) {
    for (i, (version, cuts, bits)) in LENGTHS.iter().enumerate() {
        check_row(&rt, i, bits_of(*version, *cuts) == *bits);
    }
    let segments = [range(Numeric, 0, 7), range(Alphanumeric, 7, 8)];
    assert!(rt; total_encoded_len(&segments, Normal(1)) == 57);
}
