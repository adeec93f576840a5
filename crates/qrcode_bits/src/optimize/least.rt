//! Finds segments with the fewest bits.

ghost use Rattle.std.specs.Prelude.{◌≡◌, ◌<◌, ◌≤◌, ◌↔◌, nat_lt, length, IsTrue, IfOk};
ghost use Rattle.qrcode_types.specs.Versions.{is_valid, capacity};
ghost use Rattle.qrcode_types.specs.declared.types.EcLevel.{EcLevel};
ghost use Rattle.qrcode_bits.specs.LeastBits.{AreSmall, headers_of, costs_of, AreStarts, IsFirst};
ghost use Rattle.qrcode_bits.specs.ModeHeaders.{more_than_any};
ghost use Rattle.qrcode_bits.specs.Cuts.{IsCut, IsLeastCut, IsCutIn, IsLeastCutIn, FitsIn, GiveBack, NeedsCut};
ghost use Rattle.qrcode_bits.specs.Spelling.{IsSpelled};
ghost use Rattle.qrcode_bits.specs.Refusals.{data_limit};

use super::costs::{BestStart, Costs, HeaderBits, SingleCosts};
use super::headers::MORE_THAN_ANY;
use super::single::single_mode;
use super::{Kind, Modes, Segment};
use qrcode_types::characters::bytes_each;
use qrcode_types::types::{Mode, QrError, QrResult, Version};
use std::alloc::{AllocError, Global};

// The list of segments rarely has to grow beyond this length.
const USUALLY_ENOUGH: usize = 16;

/// Divides `bytes` into the segments with the fewest bits: no other division into nonempty ranges,
/// each in a mode that the version has and that can write its bytes, is shorter. A Kanji segment
/// may begin wherever its bytes pair up.
///
/// Errors: `UnsupportedCharacterSet` if the modes of the version cannot write the data;
/// `OutOfMemory` if memory runs out.
pub fn least_segments(alloc: Global, bytes: &[u8], version: Version) -> QrResult<Vec<Segment>>
    requires valid { IsTrue (is_valid version) }
    requires length_at_most { length bytes.now ≤ data_limit }
    ensures least { IfOk result (λ segments. IsLeastCut version bytes.now segments.items) }

    // Data that cannot be divided is rejected before memory is requested.
    ensures refusals { NeedsCut (IsCut version bytes.now) result }

    // The ranges lie in the data, make it up in order, and each mode can write its range.
    ensures gives_back { IfOk result (λ segments. GiveBack bytes.now segments.items) }

    // A division fits a symbol exactly if some bits that fill the symbol decode to the data.
    ensures spelled { (level : EcLevel) → FitsIn version bytes.now (capacity version level)
        ↔ IsSpelled version level bytes.now }
{
    least_segments_in(alloc, bytes, version, Modes::ALL)
}

/// Divides `bytes` into the segments with the fewest bits as `least_segments` does, but uses only
/// the modes in `modes`.
///
/// Errors: `UnsupportedCharacterSet` if the modes that are in the set and in the version cannot
/// write the data; `OutOfMemory` if memory runs out.
pub fn least_segments_in(
    alloc: Global,
    bytes: &[u8],
    version: Version,
    modes: Modes,
) -> QrResult<Vec<Segment>>
    requires valid { IsTrue (is_valid version) }
    requires length_at_most { length bytes.now ≤ data_limit }
    ensures least { IfOk result (λ segments.
        IsLeastCutIn modes version bytes.now segments.items) }

    // Data that cannot be divided is rejected before memory is requested.
    ensures refusals { NeedsCut (IsCutIn modes version bytes.now) result }

    // The ranges lie in the data, make it up in order, and each mode can write its range.
    ensures gives_back { IfOk result (λ segments. GiveBack bytes.now segments.items) }
{
    if let Some(mode) = single_mode(bytes, version, modes) {
        let whole = Segment {
            mode,
            begin: 0,
            end: bytes.len(),
        };
        return Ok(vec![in alloc; whole; 1]?);
    }
    searched_segments(alloc, bytes, version, modes)
}

// Finds such segments by a search from the end of the data.
fn searched_segments(
    alloc: Global,
    bytes: &[u8],
    version: Version,
    modes: Modes,
) -> QrResult<Vec<Segment>>
    requires valid { IsTrue (is_valid version) }
    requires length_at_most { length bytes.now ≤ data_limit }
    ensures least { IfOk result (λ segments.
        IsLeastCutIn modes version bytes.now segments.items) }
    ensures refusals { NeedsCut (IsCutIn modes version bytes.now) result }
{
    if !can_be_cut(bytes, version, modes) {
        return Err(QrError::UnsupportedCharacterSet);
    }
    let headers = HeaderBits::of(version, modes);
    let starts = least_starts(alloc, bytes, headers)?;
    let mut segments = Vec::with_capacity(alloc, USUALLY_ENOUGH)?;
    let mut begin = 0;
    while begin < bytes.len() {
        let segment = first_segment(bytes, &starts, headers, begin);
        segments.push(segment)?;
        begin = segment.end;
    }
    Ok(segments)
}

// Returns whether the modes can write the data. Byte writes any; without it, the bits are counted.
fn can_be_cut(bytes: &[u8], version: Version, modes: Modes) -> bool
    requires valid { IsTrue (is_valid version) }
    requires length_at_most { length bytes.now ≤ data_limit }
    ensures { result
        ≡ nat_lt (costs_of (headers_of modes version) bytes.now).start.bits more_than_any }
{
    let headers = HeaderBits::of(version, modes);
    headers.in_mode(Mode::Byte) < MORE_THAN_ANY || counted_bits(bytes, headers) < MORE_THAN_ANY
}

// Returns the fewest bits that the data takes.
fn counted_bits(bytes: &[u8], headers: HeaderBits) -> u32
    requires headers { AreSmall headers }
    requires length_at_most { length bytes.now ≤ data_limit }
    ensures { result ≡ (costs_of headers bytes.now).start.bits }
{
    let single = SingleCosts::of(headers);
    let mut costs = Costs::at_end();
    for i in (0..bytes.len()).rev() {
        costs = costs.with_byte_before(single, Kind::at(bytes, i));
    }
    costs.start.bits
}

// Returns for each place of the data, and for its end, the best start of the data from there on.
fn least_starts(
    alloc: Global,
    bytes: &[u8],
    headers: HeaderBits,
) -> Result<Vec<BestStart>, AllocError>
    requires headers { AreSmall headers }
    requires length_at_most { length bytes.now ≤ data_limit }
    ensures { IfOk result (λ starts. AreStarts headers bytes.now starts.items) }
{
    let single = SingleCosts::of(headers);
    let mut costs = Costs::at_end();
    let mut starts = Vec::from_elem(alloc, costs.start, bytes.len() + 1)?;
    for i in (0..bytes.len()).rev() {
        costs = costs.with_byte_before(single, Kind::at(bytes, i));

        // Field by field: assigning the whole struct takes longer.
        let start = &mut starts[i];
        start.bits = costs.start.bits;
        start.mode = costs.start.mode;
    }
    Ok(starts)
}

// Returns the segment that begins at `begin`, in the mode of the best start there. It ends at the
// first place from which the data goes on in the bits that the start counts.
fn first_segment(bytes: &[u8], starts: &[BestStart], headers: HeaderBits, begin: usize) -> Segment
    requires length_at_most { length bytes.now ≤ data_limit }
    requires headers { AreSmall headers }
    requires starts { AreStarts headers bytes.now starts.now }
    requires inside { begin < length bytes.now }
    ensures { IsFirst headers bytes.now begin result }
{
    let BestStart { bits, mode } = starts[begin];
    let header = headers.in_mode(mode) as usize;
    let width = bytes_each(mode);
    let mut end = begin;
    let mut count = 0;
    while end + width <= bytes.len() {
        end += width;
        count += 1;
        if bits as usize == header + mode.data_bits_count(count) + starts[end].bits as usize {
            return Segment { mode, begin, end };
        }
    }
    unreachable!()
}
