//! Finds the set and the segments in which a text takes the fewest bits in a version.

ghost use Rattle.std.specs.Prelude.{◌≡◌, List, ℕ, ◌≤◌, chars, length, IfOk, IsOkUnless, IsTrue, MatchOption};
ghost use Rattle.qrcode_types.specs.Versions.{is_valid};
ghost use Rattle.qrcode_types.specs.declared.types.QrError.TheVariants.{OutOfMemory};
ghost use Rattle.qrcode_bits.specs.Cuts.{IsCutIn, NeedsCut};
ghost use Rattle.qrcode_bits.specs.Refusals.{data_limit};
ghost use Rattle.qrcode_charsets.specs.Charsets.{IsWritten};
ghost use Rattle.qrcode_charsets.specs.Fronts.{front, has_front, charset_modes};
ghost use Rattle.qrcode_charsets.specs.Laid.{cut_bytes, IsLaid, IsBestCut, IsCutOf, IsMeasured, NoneLaid, IsLeastLaid, less_of};
ghost use Rattle.qrcode_charsets.specs.declared.sets.Charset.TheVariants.{ShiftJis};

use crate::sets::Charset;
use crate::shift_jis;
use qrcode_bits::optimize::{Modes, Segment, least_segments_in, total_encoded_len};
use qrcode_types::types::{QrError, QrResult, Version};
use std::alloc::Global;

// A text in a set, in segments of the fewest bits, and the bits that it takes together with what
// names the set.
#[derive(Drop)]
pub(super) struct Measured {
    pub(super) set: Charset,
    pub(super) bytes: Vec<u8>,
    pub(super) segments: Vec<Segment>,
    pub(super) used: usize,
}

// Returns how many bits come before the segments.
fn front_length(set: Charset) -> usize
    ensures value { result ≡ length (front set) }
    ensures at_most { result ≤ 12 }
{
    match set.designator() {
        Some(_) => 12,
        None => 0,
    }
}

// Returns whether `version` allows what comes before the segments.
fn has_front(set: Charset, version: Version) -> bool
    ensures { result ≡ has_front version set }
{
    match set {
        Charset::Unmarked => true,
        Charset::Utf8 | Charset::OneByte(_) | Charset::ShiftJis => !version.is_micro(),
    }
}

// Measures `text` in `set` for a version, or returns `None` if the set lacks one of its characters,
// or the version a mode that it needs.
pub(super) fn measure(
    alloc: Global,
    text: &str,
    set: Charset,
    version: Version,
) -> QrResult<Option<Measured>>
    requires valid { IsTrue (is_valid version) }
    requires length_at_most { length text.now ≤ data_limit }
    ensures measured { IfOk result (λ found. MatchOption found
        ((used : ℕ) → ¬ IsLaid set version (chars text.now) used)
        (λ found. (found.set ≡ set) × IsMeasured version (chars text.now) found)) }
    ensures memory { IsOkUnless result OutOfMemory }
{
    if !has_front(set, version) {
        return Ok(None);
    }
    let Some(bytes) = set.encode(alloc, text)? else {
        return Ok(None);
    };
    match cut(alloc, set, bytes, version) {
        Ok(measured) => Ok(Some(measured)),
        Err(QrError::UnsupportedCharacterSet) => Ok(None),
        Err(error) => Err(error),
    }
}

// Divides `bytes` into the segments with the fewest bits. Fails with `UnsupportedCharacterSet` if
// the version lacks a mode that they need.
fn cut(alloc: Global, set: Charset, bytes: Vec<u8>, version: Version) -> QrResult<Measured>
    requires valid { IsTrue (is_valid version) }
    requires exists { IsTrue (has_front version set) }
    requires written { (text : List ℕ) × IsWritten set text bytes.items }
    requires length_at_most { length bytes.items ≤ data_limit }
    ensures measured { IfOk result (IsCutOf set version bytes.items) }
    ensures refusals { NeedsCut
        (IsCutIn (charset_modes set) version (cut_bytes set bytes.items)) result }
{
    let segments = segments_of(alloc, set, &bytes, version)?;
    let used = front_length(set) + total_encoded_len(&segments, version);
    Ok(Measured {
        set,
        bytes,
        segments,
        used,
    })
}

// Finds the segments with the fewest bits in which a reader shows `bytes` as their text. Fails with
// `UnsupportedCharacterSet` if the version lacks a mode that they need.
fn segments_of(
    alloc: Global,
    set: Charset,
    bytes: &[u8],
    version: Version,
) -> QrResult<Vec<Segment>>
    requires valid { IsTrue (is_valid version) }
    requires exists { IsTrue (has_front version set) }
    requires written { (text : List ℕ) × IsWritten set text bytes.now }
    requires length_at_most { length bytes.now ≤ data_limit }
    ensures best { IfOk result (λ segments.
        IsBestCut set version bytes.now segments.items) }
    ensures refusals { NeedsCut
        (IsCutIn (charset_modes set) version (cut_bytes set bytes.now)) result }
{
    match set {
        Charset::ShiftJis => pair_segments(alloc, bytes, version),
        _ => least_segments_in(alloc, bytes, version, Modes::TEXT),
    }
}

// Finds such segments of Shift JIS. They divide no code of two bytes.
fn pair_segments(alloc: Global, bytes: &[u8], version: Version) -> QrResult<Vec<Segment>>
    requires valid { IsTrue (is_valid version) }
    requires exists { IsTrue (has_front version ShiftJis) }
    requires written { (text : List ℕ) × IsWritten ShiftJis text bytes.now }
    requires length_at_most { length bytes.now ≤ data_limit }
    ensures best { IfOk result (λ segments.
        IsBestCut ShiftJis version bytes.now segments.items) }
    ensures refusals { NeedsCut
        (IsCutIn (charset_modes ShiftJis) version (cut_bytes ShiftJis bytes.now)) result }
{
    let stand_in = shift_jis::stand_in(alloc, bytes)?;
    least_segments_in(alloc, &stand_in, version, Modes::ALL)
}

// Measures `text` for a version in the first of `sets` in which it takes the fewest bits, or
// returns `None` if it can be written in none of them.
pub(super) fn measure_least(
    alloc: Global,
    text: &str,
    sets: &[Charset],
    version: Version,
) -> QrResult<Option<Measured>>
    requires valid { IsTrue (is_valid version) }
    requires length_at_most { length text.now ≤ data_limit }
    ensures measured { IfOk result (λ found. MatchOption found
        (NoneLaid sets.now version (chars text.now) (length sets.now))
        (IsLeastLaid sets.now version (chars text.now) (length sets.now))) }
    ensures memory { IsOkUnless result OutOfMemory }
{
    let mut least: Option<Measured> = None;
    for set in sets {
        let found = measure(alloc, text, *set, version)?;
        least = less_of(found, least);
    }
    Ok(least)
}

// Returns the one with fewer bits of two, the second if they have as many.
fn less_of(found: Option<Measured>, least: Option<Measured>) -> Option<Measured>
    ensures { result ≡ less_of found least }
{
    let Some(known) = least else {
        return found;
    };
    match found {
        Some(measured) if measured.used < known.used => Some(measured),
        _ => Some(known),
    }
}
