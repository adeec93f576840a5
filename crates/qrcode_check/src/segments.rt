//! Compares the bits of the segments with those of a shortest division.

ghost use Rattle.std.specs.Prelude.{◌≡◌, ◌≤◌, List, length, IsTrue, IfOk, IfSome, IfNone};
ghost use Rattle.std.specs.List.{AllByRecursion, list_all, list_any};
ghost use Rattle.qrcode_types.specs.Versions.{is_valid};
ghost use Rattle.qrcode_bits.specs.Cuts.{IsCutIn};
ghost use Rattle.qrcode_bits.specs.declared.optimize.Segment.{Segment};
ghost use Rattle.qrcode_reader.specs.spell.Parts.{byte_count};
ghost use Rattle.qrcode_check.specs.Segments.{part_bits, taken, is_kanji_part, is_segment, is_plain_header, division_modes, are_comparable, IsLeastLengthIn, IsBitUse, NotComparable};

use qrcode_bits::optimize::{Modes, least_segments_in, total_encoded_len};
use qrcode_reader::spell::{Header, Part};
use qrcode_types::characters::character_count;
use qrcode_types::types::{Mode, QrError, Version};
use std::alloc::{AllocError, Global};

/// How many bits the segments take.
#[derive(Debug, PartialEq, Eq, Copy, Clone)]
pub struct BitUse {
    /// The bits of the segments, with mode indicators and length fields.
    pub bits: usize,
    /// The bits of a shortest division of their bytes into segments.
    pub least: usize,
}

// Returns the bits of a segment; 0 for a header.
fn part_bits(version: Version, part: Part) -> usize
    requires valid { IsTrue (is_valid version) }
    requires few { byte_count part ≤ 100000 }
    ensures value { result ≡ part_bits version part }
    ensures at_most { result ≤ 2000000 }
{
    match part {
        Part::Front(_) => 0,
        Part::Bytes(mode, count) => {
            version.mode_bits_count()
                + mode.length_bits_count(version)
                + mode.data_bits_count(character_count(mode, count))
        }
    }
}

// Returns the bits of all segments.
fn taken_by(version: Version, parts: &[Part]) -> usize
    requires valid { IsTrue (is_valid version) }
    requires few { length parts.now ≤ 100000 }
    requires short { AllByRecursion (λ p. byte_count p ≤ 100000) parts.now }
    ensures { result ≡ taken version parts.now }
{
    let mut total = 0;
    for part in parts {
        total += part_bits(version, *part);
    }
    total
}

// Returns whether a part is a Kanji segment.
fn is_kanji(part: &Part) -> bool
    ensures { result ≡ is_kanji_part part.now }
{
    matches!(part, Part::Bytes(Mode::Kanji, _))
}

// Returns whether any segment is Kanji.
fn has_kanji(parts: &[Part]) -> bool
    ensures { result ≡ list_any is_kanji_part parts.now }
{
    parts.iter().any(|part| is_kanji(part))
}

// Returns the modes for a shortest division: all if a segment is Kanji, else those for texts.
fn division_modes(parts: &[Part]) -> Modes
    ensures { result ≡ division_modes parts.now }
{
    if has_kanji(parts) {
        Modes::ALL
    } else {
        Modes::TEXT
    }
}

// Returns whether a part is a header after which bytes can be divided freely.
fn is_plain_header(part: &Part) -> bool
    ensures { result ≡ is_plain_header part.now }
{
    matches!(
        part,
        Part::Front(Header::Eci(_) | Header::StructuredAppend { .. })
    )
}

fn is_segment(part: &Part) -> bool
    ensures { result ≡ is_segment part.now }
{
    matches!(part, Part::Bytes(_, _))
}

fn are_segments(parts: &[Part]) -> bool
    ensures { result ≡ list_all is_segment parts.now }
{
    parts.iter().all(|part| is_segment(part))
}

// Returns whether all headers come before the segments, and none is FNC1.
fn are_comparable(parts: &[Part]) -> bool
    ensures { result ≡ are_comparable parts.now }
{
    let mut rest = parts;
    while let [part, behind @ ..] = rest {
        if !is_plain_header(part) {
            return are_segments(rest);
        }
        rest = behind;
    }
    true
}

// Returns the bits of a shortest division of `bytes` into segments of these `modes`; `None` if
// these cannot encode them.
fn least_bits(
    alloc: Global,
    version: Version,
    bytes: &[u8],
    modes: Modes,
) -> Result<Option<usize>, AllocError>
    requires valid { IsTrue (is_valid version) }
    requires length { length bytes.now ≤ 100000 }
    ensures value { IfOk result (λ found. IfSome found (IsLeastLengthIn modes version bytes.now)) }
    ensures none { IfOk result (λ found. IfNone found ((segments : List Segment)
        → ¬ IsCutIn modes version bytes.now segments)) }
{
    match least_segments_in(alloc, bytes, version, modes) {
        Ok(segments) => Ok(Some(total_encoded_len(&segments, version))),
        Err(QrError::OutOfMemory) => Err(AllocError),
        Err(_) => Ok(None),
    }
}

/// Returns the bits that the segments of a symbol take, and those of a shortest division of their
/// `bytes`: into all modes if one segment is Kanji, else into those for texts. `None` if a header
/// follows a segment or one is FNC1, since the bytes cannot be divided freely then, or if those
/// modes cannot encode them.
///
/// Errors: only `AllocError`, if memory runs out.
pub fn bits_taken(
    alloc: Global,
    version: Version,
    parts: &[Part],
    bytes: &[u8],
) -> Result<Option<BitUse>, AllocError>
    requires valid { IsTrue (is_valid version) }
    requires length { length bytes.now ≤ 100000 }
    requires few { length parts.now ≤ 100000 }
    requires short { AllByRecursion (λ p. byte_count p ≤ 100000) parts.now }
    ensures value { IfOk result (λ found. IfSome found (IsBitUse version bytes.now parts.now)) }
    ensures none { IfOk result (λ found. IfNone found
        (NotComparable version bytes.now parts.now)) }
{
    if !are_comparable(parts) {
        return Ok(None);
    }
    match least_bits(alloc, version, bytes, division_modes(parts))? {
        Some(least) => Ok(Some(BitUse {
            bits: taken_by(version, parts),
            least,
        })),
        None => Ok(None),
    }
}
