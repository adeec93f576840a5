//! Decodes the codes in pictures, and tells of squares that look like codes but do not decode.

ghost use Rattle.std.specs.Prelude.{◌≡◌, ◌++◌, ℕ, List, All, flat_map, map, IfErr, IfOk, OnOk};
ghost use Rattle.qrcode_scan.specs.Codes.{IsMissedOf};
ghost use Rattle.qrcode_scan.specs.Scans.{IsScanRead};
ghost use Rattle.goqlanis_buffers.specs.Missing.{IsToldMissed, IsToldSquare, WritesMissed};
ghost use Rattle.goqlanis_buffers.specs.Scanning.{bytes_in, mode_kind, parts_in, told_part, AreCodesOf, IsToldOf, IsToldIn, IsUnreadFor, ScansPicture};

use crate::answers::Refusal;
use crate::reading::{Reading, position_number, reported};
use crate::symbols::{fill, put};
use qrcode::types::Mode;
use qrcode_reader::spell::{Header, Part as Piece};
use qrcode_scan::{Codes, Missed as Square, Scan as Found, read_codes};
use std::alloc::{AllocError, Global};

/// How many items have been written to the start of each buffer.
#[repr(C)]
#[derive(Clone, Copy)]
pub struct Scan {
    /// The size of this struct in bytes.
    pub size: u32,
    /// The codes.
    pub codes: usize,
    /// The parts of all codes.
    pub parts: usize,
    /// The bytes of all codes.
    pub length: usize,
}

/// A code, besides its parts and bytes.
#[repr(C)]
#[derive(Clone, Copy)]
pub struct Code {
    pub reading: Reading,
    /// The number of its position in the picture, plus 8 if dark and light are swapped.
    pub position: u32,
    /// How many parts it has.
    pub parts: usize,
}

/// A square in a picture that looks like a code but does not decode.
#[repr(C)]
#[derive(Clone, Copy)]
pub struct Missed {
    /// The number of modules along a side.
    pub width: usize,
    /// The pixel column of its upper left corner.
    pub left: usize,
    /// The pixel row of its upper left corner.
    pub top: usize,
    /// The number of the `Refusal` that says why it does not decode.
    pub why: u32,
}

/// A header or a segment of a code. Fields that its kind does not have are 0.
#[repr(C)]
#[derive(Clone, Copy, Default)]
pub struct Part {
    /// The number of its kind, as in a `Segment`; 7 for the structured append header.
    pub kind: u32,
    /// The ECI designator, the application indicator, or the parity of the data of several symbols.
    pub number: u32,
    /// For structured append: which symbol this is, counted from 0.
    pub place: u32,
    /// For structured append: how many symbols there are.
    pub symbols: u32,
    /// How many bytes a segment encodes.
    pub length: usize,
}

/// What a picture decodes to: the codes, and the parts and bytes of all, code after code.
#[derive(Drop)]
pub struct ScanReport {
    pub codes: Vec<Code>,
    pub parts: Vec<Part>,
    pub bytes: Vec<u8>,
}

// The size of a `Scan` in bytes.
const SIZE: u32 = 32;

// The size of the largest picture, in bytes.
pub(crate) const MOST: usize = 67_108_864;

/// Decodes the codes in a picture, for a `Scan` of this size. Writes the codes, their parts and
/// their bytes to the start of the buffers, and returns how many there are.
///
/// Errors, the first that applies: `NoSuchStruct`, `LargePicture`, `NotPicture` or `BrokenPicture`,
/// `NoSquare`, `NoSuchSide`, `NoFormat`, `Damaged` or `NotSpelled`, `SmallBuffer`; or
/// `OutOfMemory`. After an error the buffers are unchanged.
pub fn scan_into(
    alloc: Global,
    picture: &[u8],
    size: u32,
    codes: &mut [Code],
    parts: &mut [Part],
    bytes: &mut [u8],
) -> Result<Scan, Refusal>
    ensures { ScansPicture picture.now size codes.old codes.new parts.old parts.new
        bytes.old bytes.new result }
{
    let told = codes_of(alloc, picture, size)?;
    if codes.len() < told.codes.len()
        || parts.len() < told.parts.len()
        || bytes.len() < told.bytes.len()
    {
        return Err(Refusal::SmallBuffer);
    }
    fill(codes, &told.codes);
    fill(parts, &told.parts);
    fill(bytes, &told.bytes);
    Ok(Scan {
        size: SIZE,
        codes: told.codes.len(),
        parts: told.parts.len(),
        length: told.bytes.len(),
    })
}

// Decodes the codes in a picture.
#[tactic(auto, using(crate::proofs::Known::all_read))]
fn codes_of(alloc: Global, picture: &[u8], size: u32) -> Result<ScanReport, Refusal>
    ensures told { IfOk result (IsToldIn picture.now size) }
    ensures causes { IfErr result (IsUnreadFor picture.now size) }
{
    if size != SIZE {
        return Err(Refusal::NoSuchStruct);
    }
    if picture.len() > MOST {
        return Err(Refusal::LargePicture);
    }
    let scans = read_codes(alloc, picture)?.scans;
    Ok(ScanReport {
        codes: codes_in(alloc, &scans)?,
        parts: parts_in(alloc, &scans)?,
        bytes: bytes_in(alloc, &scans)?,
    })
}

// Converts each code, except its parts and bytes.
fn codes_in(alloc: Global, scans: &[Found]) -> Result<Vec<Code>, AllocError>
    requires { All IsScanRead scans.now }
    ensures { IfOk result (λ codes. AreCodesOf scans.now codes.items) }
{
    let mut all = Vec::new(alloc);
    for i in 0..scans.len() {
        all.push(told_code(&scans[i]))?;
    }
    Ok(all)
}

// The parts of all codes, in order.
#[tactic(auto, using(qrcode_scan::proofs::Pieces::flat_map_more))]
fn parts_in(alloc: Global, scans: &[Found]) -> Result<Vec<Part>, AllocError>
    ensures { IfOk result (λ parts. parts.items ≡ flat_map parts_in scans.now) }
{
    let mut all = Vec::new(alloc);
    for scan in scans {
        push_parts(&mut all, &scan.parts)?;
    }
    Ok(all)
}

// The bytes of all codes, in order.
#[tactic(auto, using(qrcode_scan::proofs::Pieces::flat_map_more))]
fn bytes_in(alloc: Global, scans: &[Found]) -> Result<Vec<u8>, AllocError>
    ensures { IfOk result (λ bytes. bytes.items ≡ flat_map bytes_in scans.now) }
{
    let mut all = Vec::new(alloc);
    for scan in scans {
        all.extend_from_slice(&scan.any.reading.data)?;
    }
    Ok(all)
}

// Converts a code, except its parts and bytes. The picture may be read inverted, and the square in
// it inverted again.
#[tactic(auto, using(crate::proofs::Known::read_existing))]
fn told_code(scan: &Found) -> Code
    requires { IsScanRead scan.now }
    ensures { IsToldOf scan.now result }
{
    let is_inverted = scan.is_inverted != scan.any.is_inverted;
    Code {
        reading: reported(&scan.any.reading),
        position: position_number(scan.any.position, is_inverted),
        parts: scan.parts.len(),
    }
}

// Appends parts in the form that C gets.
fn push_parts(all: &mut Vec<Part>, parts: &[Piece]) -> Result<(), AllocError>
    ensures { OnOk result (all.new.items ≡ all.old.items ++ map told_part parts.now) }
{
    for part in parts {
        all.push(told_part(*part))?;
    }
    Ok(())
}

// Converts a header or a segment.
fn told_part(part: Piece) -> Part
    ensures { result ≡ told_part part }
{
    let none = Part::default();
    match part {
        Piece::Bytes(mode, length) => Part {
            kind: mode_kind(mode),
            length,
            ..none
        },
        Piece::Front(Header::Eci(number)) => Part {
            kind: 4,
            number,
            ..none
        },
        Piece::Front(Header::Fnc1First) => Part { kind: 5, ..none },
        Piece::Front(Header::Fnc1Second(indicator)) => Part {
            kind: 6,
            number: indicator as u32,
            ..none
        },
        Piece::Front(
            Header::StructuredAppend {
                place,
                last,
                parity,
            },
        ) => Part {
            kind: 7,
            number: parity as u32,
            place: place as u32,
            symbols: last as u32 + 1,
            ..none
        },
    }
}

// The kind of a segment in a mode.
fn mode_kind(mode: Mode) -> u32
    ensures { result ≡ mode_kind mode }
{
    mode as u32
}

/// Writes the squares in a picture that look like codes but do not decode, and that no decoded code
/// overlaps, to the start of `missed`. Returns their number.
///
/// Errors, the first that applies: `LargePicture`, `NotPicture` or `BrokenPicture`, `NoSquare`, or
/// if no code decodes `NoSuchSide`, `NoFormat`, `Damaged` or `NotSpelled`; `SmallBuffer`; or
/// `OutOfMemory`. After an error `missed` is unchanged.
pub fn missed_into(alloc: Global, file: &[u8], missed: &mut [Missed]) -> Result<usize, Refusal>
    ensures { WritesMissed file.now missed.old missed.new result }
{
    if file.len() > MOST {
        return Err(Refusal::LargePicture);
    }
    let codes = read_codes(alloc, file)?;
    let told = missed_in(alloc, &codes)?;
    put(missed, &told)
}

// Converts the squares that do not decode, unless a decoded code overlaps them.
fn missed_in(alloc: Global, codes: &Codes) -> Result<Vec<Missed>, AllocError>
    ensures { (picture : List ℕ) → All (IsMissedOf picture) codes.now.missed.items
        → IfOk result (λ all. All (IsToldMissed picture codes.now.scans.items) all.items) }
{
    let mut all = Vec::new(alloc);
    for i in 0..codes.missed.len() {
        if !codes.has_read(&codes.missed[i].grid) {
            all.push(told_missed(&codes.missed[i]))?;
        }
    }
    Ok(all)
}

// Converts a square that does not decode.
fn told_missed(missed: &Square) -> Missed
    ensures { IsToldSquare missed.now result }
{
    let (left, top) = missed.corner();
    Missed {
        width: missed.grid.count,
        left,
        top,
        why: Refusal::from(missed.cause).number(),
    }
}
