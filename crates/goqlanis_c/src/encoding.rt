//! Calls that encode data, and that write the texts of payloads and GS1 elements.

ghost use Rattle.std.specs.Prelude.{◌≡◌, ◌≢◌};
ghost use Rattle.goqlanis_buffers.specs.Calls.{IsReported, IsReportedAt, TellsLeastOfSegments, WritesSegments, WritesWith};
ghost use Rattle.goqlanis_buffers.specs.Charsets.{WritesCoded};
ghost use Rattle.goqlanis_buffers.specs.Contents.{WritesContent};
ghost use Rattle.goqlanis_buffers.specs.Elements.{WritesElements, WritesElementsSymbol};
ghost use Rattle.goqlanis_buffers.specs.Several.{WritesSeveral};

use goqlanis_buffers::answers::{answer, answer_at};
use goqlanis_buffers::charsets::encode_charset;
use goqlanis_buffers::contents::{Slot, write};
use goqlanis_buffers::elements::{Gs1Bytes, encode_elements, write_elements};
use goqlanis_buffers::options::{Options, encode_with};
use goqlanis_buffers::segments::{Segment, encode_segments, smallest_version};
use goqlanis_buffers::several::{Several, encode_several};
use goqlanis_buffers::symbols::Symbol;
use std::alloc::Global;

/// Encodes `bytes` as `options` ask. Writes the modules row by row, 1 for a dark one, to the start
/// of `modules` (31,329 bytes are always enough), and version, level and width to `symbol`.
///
/// Returns 0, or the number of the first `Refusal` that applies: `NoSuchStruct`, `NoSuchLevel`,
/// `NoSuchVersion`, `NoSuchManner`, `NotText`, `NoMode`, `LevelNotInVersion`, `NoRoom`,
/// `NoSuchMask`, `SmallBuffer`; or of `OutOfMemory`. After an error the outputs are unchanged.
#[unsafe(no_mangle)]
pub extern "C" fn goq_encode_with(
    alloc: Global,
    bytes: &[u8],
    options: &Options,
    modules: &mut [u8],
    symbol: &mut Symbol,
) -> u32
    ensures { IsReported (WritesWith options.now bytes.now modules.old modules.new)
        result symbol.old symbol.new }
{
    answer(encode_with(alloc, bytes, options, modules), symbol)
}

/// Encodes a text as `options` ask, in that of the sets with these ECI designators in which it
/// takes the fewest bits; 0 is UTF-8 without a designator. Without designators it is in UTF-8 or a
/// part of ISO 8859. Writes modules and symbol like `goq_encode_with`, and the number of the set to
/// `designator`. The options' manner is ignored.
///
/// Returns 0, or the number of the first `Refusal` that applies: `NoSuchStruct`, `NoSuchLevel`,
/// `NoSuchVersion`, `NoSuchManner`; `NoSuchSet` with the index of the designator in `place`;
/// `NotText`; if each set lacks a character `NotInSet`, with the place of the first one that the
/// first set lacks; `LevelNotInVersion`, `NoMode`, `NoRoom`, `NoSuchMask`, `SmallBuffer`; or of
/// `OutOfMemory`. After an error the other outputs are unchanged.
#[unsafe(no_mangle)]
pub extern "C" fn goq_encode_charset(
    alloc: Global,
    text: &[u8],
    designators: &[u32],
    options: &Options,
    modules: &mut [u8],
    symbol: &mut Symbol,
    designator: &mut u32,
    place: &mut usize,
) -> u32
    ensures reported { IsReportedAt (WritesCoded options.now designators.now text.now designator.new
        modules.old modules.new) result symbol.old symbol.new place.old place.new }
    ensures designator_unchanged { result ≢ 0 → designator.new ≡ designator.old }
{
    let written = encode_charset(alloc, text, designators, options, modules, designator);
    answer_at(written, symbol, place)
}

/// Encodes `segments`, one after the other, in the version and at the level of these numbers.
/// Writes the modules row by row, 1 for a dark one, to the start of `modules`, and version, level
/// and width to `symbol`.
///
/// Returns 0, or the number of the first `Refusal` that applies: `NoSuchLevel`, `NoSuchVersion`,
/// `LevelNotInVersion`; for the first segment with an error `NoSuchKind`, `NotInMode`, `NoMode`,
/// `NoSuchNumber` (for FNC1 in the second position before `NoMode`), `NoRoom`; then `NoRoom`,
/// `SmallBuffer`; or of `OutOfMemory`. After an error the outputs are unchanged.
#[unsafe(no_mangle)]
pub extern "C" fn goq_encode_segments(
    alloc: Global,
    segments: &[Segment<'_>],
    version: u32,
    level: u32,
    modules: &mut [u8],
    symbol: &mut Symbol,
) -> u32
    ensures { IsReported (WritesSegments version level segments.now modules.old modules.new)
        result symbol.old symbol.new }
{
    let written = encode_segments(alloc, segments, version, level, modules);
    answer(written, symbol)
}

/// Writes the number of the smallest Normal version that holds `segments` at this level to
/// `version`.
///
/// Returns 0, or the number of a `Refusal`: `NoSuchLevel`; for the first segment with an error
/// `NoSuchKind`, `NotInMode`, `NoSuchNumber`; `NoRoom`; or `OutOfMemory`. After an error `version`
/// is unchanged.
#[unsafe(no_mangle)]
pub extern "C" fn goq_smallest_version_of_segments(
    alloc: Global,
    segments: &[Segment<'_>],
    level: u32,
    version: &mut u32,
) -> u32
    ensures { IsReported (TellsLeastOfSegments level segments.now) result version.old version.new }
{
    answer(smallest_version(alloc, segments, level), version)
}

/// Splits `bytes` over several symbols (structured append) as `options` ask. Writes their modules,
/// symbol after symbol, to the start of `modules`; version, level and width of each to `symbol`;
/// and their number to `count`.
///
/// Returns 0, or the number of the first `Refusal` that applies: `NoSuchStruct`, `NoSuchLevel`,
/// `NoSuchVersion`, `NoSuchManner`, `NoSuchNumber`, `NotText`, `NoRoom`, `SmallBuffer`; or of
/// `OutOfMemory`. After an error the outputs are unchanged.
#[unsafe(no_mangle)]
pub extern "C" fn goq_encode_several(
    alloc: Global,
    bytes: &[u8],
    options: &Several,
    modules: &mut [u8],
    symbol: &mut Symbol,
    count: &mut usize,
) -> u32
    ensures reported { IsReported (WritesSeveral options.now bytes.now count.new
        modules.old modules.new) result symbol.old symbol.new }
    ensures count_unchanged { result ≢ 0 → count.new ≡ count.old }
{
    answer(
        encode_several(alloc, bytes, options, modules, count),
        symbol,
    )
}

/// Encodes GS1 elements as `options` ask, in segments of the fewest bits. Writes the modules row by
/// row, 1 for a dark one, to the start of `modules`, and the rest to `symbol`. The options' manner
/// and boost are ignored.
///
/// Returns 0, or the number of the first `Refusal` that applies: those of the options, of
/// `goq_gs1`, `NoRoom`, `NoSuchMask`, `SmallBuffer`; or of `OutOfMemory`. After an error `modules`
/// and `symbol` are unchanged, and `place` gets the index of the wrong element, if one is wrong.
#[unsafe(no_mangle)]
pub extern "C" fn goq_encode_gs1(
    alloc: Global,
    parts: &[Gs1Bytes<'_>],
    options: &Options,
    modules: &mut [u8],
    symbol: &mut Symbol,
    place: &mut usize,
) -> u32
    ensures { IsReportedAt (WritesElementsSymbol options.now parts.now modules.old modules.new)
        result symbol.old symbol.new place.old place.new }
{
    answer_at(
        encode_elements(alloc, parts, options, modules),
        symbol,
        place,
    )
}

/// Writes the GS1 element string of `parts`, which follows FNC1 in the first position, to the start
/// of `out`, and its length to `count`. A separator (byte 29) stands between an element without a
/// predefined length and the next one.
///
/// Returns 0, or the number of the first `Refusal` that applies: `NotText`; for a wrong element
/// `FieldCharacter`, `FieldCheckDigits`, `FieldRange`, `NoSuchIdentifier` or `ElementLength`;
/// `SmallBuffer`; or of `OutOfMemory`. After an error `out` and `count` are unchanged, and `place`
/// gets the index of the wrong element, if one is wrong.
#[unsafe(no_mangle)]
pub extern "C" fn goq_gs1(
    alloc: Global,
    parts: &[Gs1Bytes<'_>],
    out: &mut [u8],
    count: &mut usize,
    place: &mut usize,
) -> u32
    ensures { IsReportedAt (WritesElements parts.now out.old out.new)
        result count.old count.new place.old place.new }
{
    answer_at(write_elements(alloc, parts, out), count, place)
}

/// Writes the text of a payload of the kind numbered `kind`, with the fields `given`, to the start
/// of `out`, and its length to `count`.
///
/// Returns 0, or the number of the first `Refusal` that applies: `NoSuchContent`; for the first
/// field with an error `NoSuchField` or `NotText`; one of `FieldEmpty` to `FieldWord` if the format
/// rejects a field; `SmallBuffer`; or of `OutOfMemory`. After an error `out` and `count` are
/// unchanged. If a field is wrong, `place` gets its index; if the text as a whole is, the number of
/// fields of the kind.
#[unsafe(no_mangle)]
pub extern "C" fn goq_content(
    alloc: Global,
    kind: u32,
    given: &[Slot<'_>],
    out: &mut [u8],
    count: &mut usize,
    place: &mut usize,
) -> u32
    ensures { IsReportedAt (WritesContent kind given.now out.old out.new)
        result count.old count.new place.old place.new }
{
    answer_at(write(alloc, kind, given, out), count, place)
}
