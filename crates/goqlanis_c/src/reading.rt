//! Calls that decode and check squares of modules and pictures.

ghost use Rattle.std.specs.Prelude.{◌≤◌, drop, length, map};
ghost use Rattle.qrcode_scan.specs.Several.{IsBehind};
ghost use Rattle.qrcode_scan.specs.Texts.{IsShownText};
ghost use Rattle.goqlanis_buffers.specs.Calls.{IsReported, IsReportedAt, TellsMask, WritesAnyReading, WritesReading, WritesTextReading};
ghost use Rattle.goqlanis_buffers.specs.Checking.{ChecksPicture, ChecksSquare};
ghost use Rattle.goqlanis_buffers.specs.Joining.{WritesJoined};
ghost use Rattle.goqlanis_buffers.specs.Missing.{WritesMissed};
ghost use Rattle.goqlanis_buffers.specs.Scanning.{ScansPicture};
ghost use Rattle.goqlanis_buffers.specs.Texts.{piece_of, WritesDecoded, WritesText};

use goqlanis_buffers::answers::{answer, answer_at};
use goqlanis_buffers::checking::{Checked, Checks, check_into, check_square_into};
use goqlanis_buffers::joining::{SquareBytes, join_into};
use goqlanis_buffers::reading::{
    AnyReading, Reading, mask_of, read_any_into, read_into, read_text_into,
};
use goqlanis_buffers::scanning::{Code, Missed, Part, Scan, missed_into, scan_into};
use goqlanis_buffers::texts::{decode_into, text_into};
use qrcode_scan::behind_picture;
use std::alloc::Global;

/// Decodes a square of modules: bytes, row by row, dark if not zero, without a quiet zone. Writes
/// its data to the start of `bytes` (7,089 bytes are always enough), and the rest to `reading`.
/// Each copy of the format information may have three wrong bits, and each block half as many wrong
/// codewords as it has error correction codewords.
///
/// Returns 0, or the number of a `Refusal`: `NoSuchSide`, `NoFormat`, `Damaged`, `NotSpelled`,
/// `SmallBuffer` or `OutOfMemory`. After an error the outputs are unchanged.
#[unsafe(no_mangle)]
pub extern "C" fn goq_read(
    alloc: Global,
    modules: &[u8],
    bytes: &mut [u8],
    reading: &mut Reading,
) -> u32
    ensures { IsReported (WritesReading modules.now bytes.old bytes.new)
        result reading.old reading.new }
{
    answer(read_into(alloc, modules, bytes), reading)
}

/// Decodes like `goq_read`, but a square in any position: in the first of the sixteen in which it
/// decodes.
///
/// Returns 0, or the number of a `Refusal`: `NotRead`, `SmallBuffer` or `OutOfMemory`. After an
/// error the outputs are unchanged.
#[unsafe(no_mangle)]
pub extern "C" fn goq_read_any(
    alloc: Global,
    modules: &[u8],
    bytes: &mut [u8],
    reading: &mut AnyReading,
) -> u32
    ensures { IsReported (WritesAnyReading modules.now bytes.old bytes.new)
        result reading.old reading.new }
{
    answer(read_any_into(alloc, modules, bytes), reading)
}

/// Decodes a square into the text that readers show. Writes it to the start of `text`, and the rest
/// to `reading`.
///
/// Returns 0, or the number of a `Refusal`: `NoSuchSide`, `NoFormat`, `Damaged`, `NotShown`,
/// `SmallBuffer` or `OutOfMemory`. After an error the outputs are unchanged.
#[unsafe(no_mangle)]
pub extern "C" fn goq_read_text(
    alloc: Global,
    modules: &[u8],
    text: &mut [u8],
    reading: &mut Reading,
) -> u32
    ensures { IsReported (WritesTextReading modules.now text.old text.new)
        result reading.old reading.new }
{
    answer(read_text_into(alloc, modules, text), reading)
}

/// Writes the text that a code shows which decodes to these bytes, headers and segments, in UTF-8,
/// to the start of `text`, and its length to `count`.
///
/// Returns 0, or the number of the first `Refusal` that applies: `NotInSet`, `SmallBuffer`; or of
/// `OutOfMemory`. After an error the outputs are unchanged.
#[unsafe(no_mangle)]
pub extern "C" fn goq_text(
    alloc: Global,
    bytes: &[u8],
    parts: &[Part],
    text: &mut [u8],
    count: &mut usize,
) -> u32
    ensures { IsReported (WritesText (IsShownText (map piece_of parts.now) bytes.now)
        text.old text.new) result count.old count.new }
{
    answer(text_into(alloc, bytes, parts, text), count)
}

/// Decodes bytes in the character set with this ECI designator, or in UTF-8 if it is 0. Writes the
/// text in UTF-8 to the start of `text`, and its length to `count`.
///
/// Returns 0, or the number of the first `Refusal` that applies: `NoSuchSet`, `NotInSet`,
/// `SmallBuffer`; or of `OutOfMemory`. After an error the outputs are unchanged.
#[unsafe(no_mangle)]
pub extern "C" fn goq_decode(
    alloc: Global,
    bytes: &[u8],
    designator: u32,
    text: &mut [u8],
    count: &mut usize,
) -> u32
    ensures { IsReported (WritesDecoded designator bytes.now text.old text.new)
        result count.old count.new }
{
    answer(decode_into(alloc, designator, bytes, text), count)
}

/// Writes the number of the mask that the format information of a square names to `mask`.
///
/// Returns 0, or the number of a `Refusal`: `NoSuchSide`, `NoFormat` or `OutOfMemory`. After an
/// error `mask` is unchanged.
#[unsafe(no_mangle)]
pub extern "C" fn goq_mask(alloc: Global, modules: &[u8], mask: &mut u32) -> u32
    ensures { IsReported (TellsMask modules.now) result mask.old mask.new }
{
    answer(mask_of(alloc, modules), mask)
}

/// Returns how many bytes of a file its first picture takes, with the white space and comments
/// behind it. All bytes, if the file has one picture; 0 only if there are no bytes.
#[unsafe(no_mangle)]
pub extern "C" fn goq_picture_length(file: &[u8]) -> usize
    ensures behind { IsBehind file.now (drop result file.now) }
    ensures at_most { result ≤ length file.now }
    ensures at_least { 1 ≤ length file.now → 1 ≤ result }
{
    file.len() - behind_picture(file).len()
}

/// Decodes the codes in a picture (a PNG, PBM or PGM file, or half blocks; of several pictures the
/// first), from top to bottom, and from left to right if side by side. Writes one item per code to
/// the start of `codes`; the headers and segments of all codes, code after code, to the start of
/// `parts`; their bytes, code after code, to the start of `bytes`; and the numbers of these to
/// `scan`, of which only the size is read.
///
/// Returns 0, or the number of the first `Refusal` that applies: `NoSuchStruct`; `LargePicture`;
/// `NotPicture` or `BrokenPicture`; `NoSquare`; `NoSuchSide`, `NoFormat`, `Damaged` or
/// `NotSpelled`; `SmallBuffer`; or of `OutOfMemory`. After an error the outputs are unchanged.
#[unsafe(no_mangle)]
pub extern "C" fn goq_read_picture(
    alloc: Global,
    picture: &[u8],
    codes: &mut [Code],
    parts: &mut [Part],
    bytes: &mut [u8],
    scan: &mut Scan,
) -> u32
    ensures { IsReported (ScansPicture picture.now scan.old.size codes.old codes.new
        parts.old parts.new bytes.old bytes.new) result scan.old scan.new }
{
    let written = scan_into(alloc, picture, scan.size, codes, parts, bytes);
    answer(written, scan)
}

/// Tells of squares in a picture that look like codes but do not decode, and that no decoded code
/// overlaps. Writes one item per square to the start of `missed`, and their number to `count`.
///
/// Returns 0, or the number of the first `Refusal` that applies: `LargePicture`; `NotPicture` or
/// `BrokenPicture`; `NoSquare`; if no code decodes, `NoSuchSide`, `NoFormat`, `Damaged` or
/// `NotSpelled`; `SmallBuffer`; or of `OutOfMemory`. After an error the outputs are unchanged.
#[unsafe(no_mangle)]
pub extern "C" fn goq_missed(
    alloc: Global,
    picture: &[u8],
    missed: &mut [Missed],
    count: &mut usize,
) -> u32
    ensures { IsReported (WritesMissed picture.now missed.old missed.new)
        result count.old count.new }
{
    answer(missed_into(alloc, picture, missed), count)
}

/// Joins the data of several symbols, whose squares may come in any order. Writes it to the start
/// of `out`, and its length to `count`.
///
/// Returns 0, or the number of the first `Refusal` that applies: for the first square that is not a
/// part `NoSuchSide`, `NoFormat`, `Damaged`, `NotSpelled` or `NotSeveral`; then `Stranger`,
/// `Missing`, `Twice`, `Parity`, `SmallBuffer`; or of `OutOfMemory`. After an error `out` and
/// `count` are unchanged; `place` gets the index of a wrong square, or the number of a part that is
/// missing or there twice.
#[unsafe(no_mangle)]
pub extern "C" fn goq_join(
    alloc: Global,
    squares: &[SquareBytes<'_>],
    out: &mut [u8],
    count: &mut usize,
    place: &mut usize,
) -> u32
    ensures { IsReportedAt (WritesJoined squares.now out.old out.new)
        result count.old count.new place.old place.new }
{
    answer_at(join_into(alloc, squares, out), count, place)
}

/// Reports where the codes in a picture depart from the standard, in the order of
/// `goq_read_picture`. Writes one item per code to the start of `checks`; how many codewords of
/// each block are wrong, code after code, to the start of `wrong`; and the numbers of codes and
/// blocks to `counts`, of which only the size is read. If no code decodes, and the bits of a square
/// in a margin are not headers and segments, that square is checked.
///
/// Returns 0, or the number of the first `Refusal` that applies: `NoSuchStruct`; `LargePicture`;
/// `NotPicture` or `BrokenPicture`; `NoSquare`; `NoSuchSide`, `NoFormat` or `Damaged`;
/// `SmallBuffer`; or of `OutOfMemory`. After an error the outputs are unchanged.
#[unsafe(no_mangle)]
pub extern "C" fn goq_check(
    alloc: Global,
    picture: &[u8],
    checks: &mut [Checked],
    wrong: &mut [usize],
    counts: &mut Checks,
) -> u32
    ensures { IsReported (ChecksPicture picture.now counts.old.size checks.old checks.new
        wrong.old wrong.new) result counts.old counts.new }
{
    let written = check_into(alloc, picture, counts.size, checks, wrong);
    answer(written, counts)
}

/// Reports where a square of modules, given as to `goq_read`, departs from the standard. Writes how
/// many codewords of each block are wrong to the start of `wrong` (81 items are always enough), and
/// the rest to `check`.
///
/// Returns 0, or the number of a `Refusal`: `NoSuchSide`, `NoFormat`, `Damaged`, `SmallBuffer` or
/// `OutOfMemory`. After an error the outputs are unchanged.
#[unsafe(no_mangle)]
pub extern "C" fn goq_check_square(
    alloc: Global,
    modules: &[u8],
    wrong: &mut [usize],
    check: &mut Checked,
) -> u32
    ensures { IsReported (ChecksSquare modules.now wrong.old wrong.new)
        result check.old check.new }
{
    answer(check_square_into(alloc, modules, wrong), check)
}
