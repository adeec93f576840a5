//! Decodes the code in a picture.

ghost use Rattle.std.specs.Prelude.{◌≡◌, ◌++◌, true, false, None, IfOk, IfErr, OnOk};
ghost use Rattle.qrcode_gs1.specs.symbol.Characters.{undoubled};
ghost use Rattle.qrcode_scan.specs.Squares.{inverted};
ghost use Rattle.qrcode_reader.specs.Positions.{IsFirstPartsReading};
ghost use Rattle.qrcode_scan.specs.declared.scanning.ScanError.TheVariants.{OutOfMemory};
ghost use Rattle.qrcode_scan.specs.HandedOn.{is_fnc1, part_on, handed_on};
ghost use Rattle.qrcode_scan.specs.Scans.{IsPictureOf, IsScanRead, IsSeenAs, IsShownBy, IsSquareOf, IsUnreadIn, IsUnseen, has_faults, is_png, is_jpeg, unread_as};

use crate::files::pixels_of;
use crate::grids::Grid;
use crate::pixels::{Pixels, Unscanned};
use crate::shades::pixels_of_colours;
use crate::squares::{Square, square_of};
use qrcode::types::Mode;
use qrcode_reader::spell::{Header, Part, Parts};
use qrcode_reader::{AnyPartsReading, AnyReading, Reading, read_any_parts};
use std::alloc::{AllocError, Global};
use std::fmt;

/// A decoded code.
#[derive(Drop)]
pub struct Scan {
    /// The square of modules. If there is a `grid`, `zone` is 0, and `scale` is rounded down to whole
    /// pixels.
    pub square: Square,
    /// The position of the modules, unless the code was found in a plain margin of whole modules.
    pub grid: Option<Grid>,
    /// Whether dark and light are exchanged in the whole picture.
    pub is_inverted: bool,
    /// The decoded bytes, and the position in which the square decodes. They are those of the
    /// segments, after FNC1 with separators.
    pub any: AnyReading,
    /// The decoded headers and segments, in order.
    pub parts: Vec<Part>,
}

/// Why a picture does not decode.
#[derive(Clone, Copy)]
pub enum ScanError {
    /// The bytes show no pixels.
    Unscanned(Unscanned),
    /// It is a PNG file that cannot be read.
    Png(qrcode_png::PngError),
    /// It is a JPEG file.
    Jpeg,
    /// There is no square of modules.
    NoSquare,
    /// There is a square with this many modules a side, but it decodes in no position; the cause is
    /// that of the square as it is.
    NoSymbol(usize, qrcode_reader::Unread),
    /// Memory ran out.
    OutOfMemory,
}

impl From<AllocError> for ScanError {
    ghost from_gives = { λ _ e. e ≡ OutOfMemory };

    fn from(_error: AllocError) -> ScanError {
        ScanError::OutOfMemory
    }
}

impl fmt::Display for ScanError {
    fn fmt<W: fmt::Write>(&self, f: &mut fmt::Formatter<W>) -> fmt::Result {
        match self {
            ScanError::Unscanned(cause) => f.write_str(cause_text(*cause)),
            ScanError::Png(cause) => write!(f, "{cause}"),
            ScanError::Jpeg => f.write_str("it is a JPEG file; convert it to PNG"),
            ScanError::NoSquare | ScanError::NoSymbol(_, qrcode_reader::Unread::NoSuchSide) => {
                f.write_str(NO_CODE)
            }
            ScanError::NoSymbol(count, error) => {
                write!(f, "{count} by {count} modules do not decode: {error}")
            }
            ScanError::OutOfMemory => f.write_str("out of memory"),
        }
    }
}

const NO_CODE: &str = "no code found, neither in a plain margin nor by finder patterns; codes must \
    be flat and sharp; for photographs, try zbarimg or ZXingReader";

// Says why there are no pixels.
fn cause_text(cause: Unscanned) -> &'static str {
    match cause {
        Unscanned::NotPicture =>
            "it is neither a PNG, PBM or PGM file nor half blocks; convert it to PNG, a PDF by \
            pdftoppm -png",
        Unscanned::NoSide =>
            "it has no pixels, or too many: at most 65,535 a side, 4,096 in half blocks",
        Unscanned::NoGrey => "its maximum grey must be 1 to 255; convert it to PNG",
        Unscanned::NotPixel => "it contains something that is not a pixel",
        Unscanned::TooShort => "it ends before its last pixel",
        Unscanned::OutOfMemory => "out of memory",
    }
}

// Whether bytes begin like a PNG file.
fn is_png(bytes: &[u8]) -> bool
    ensures { result ≡ is_png bytes.now }
{
    bytes.starts_with(&[0x89, b'P', b'N', b'G'])
}

// Whether bytes begin like a JPEG file.
fn is_jpeg(bytes: &[u8]) -> bool
    ensures { result ≡ is_jpeg bytes.now }
{
    bytes.starts_with(&[0xff, 0xd8, 0xff])
}

/// What a picture shows.
#[derive(Drop)]
pub(crate) struct Seen {
    /// Its pixels. If its first row is dark, dark and light are exchanged.
    pub(crate) pixels: Pixels,
    pub(crate) is_inverted: bool,
    /// Whether its file has faults that are ignored.
    pub(crate) has_faults: bool,
}

// Reads the pixels of a picture.
pub(crate) fn seen_in(alloc: Global, bytes: &[u8]) -> Result<Seen, ScanError>
    ensures value { IfOk result (λ seen. IsSeenAs bytes.now seen.pixels seen.is_inverted) }
    ensures more { IfOk result (λ seen. seen.has_faults ≡ has_faults bytes.now) }
    ensures causes { IfErr result (IsUnseen bytes.now) }
{
    let (pixels, has_faults) = pixels_in(alloc, bytes)?;
    let is_inverted = pixels.has_dark_edge();
    let pixels = if is_inverted {
        pixels.inverted(alloc)?
    } else {
        pixels
    };
    Ok(Seen {
        pixels,
        is_inverted,
        has_faults,
    })
}

// Reads the pixels of a picture in any format; also says whether a PNG file has faults.
#[tactic(auto, using(crate::proofs::Seen::png_picture, crate::proofs::Seen::other_picture))]
fn pixels_in(alloc: Global, bytes: &[u8]) -> Result<(Pixels, bool), ScanError>
    ensures value { IfOk result (λ found. IsPictureOf bytes.now found.0) }
    ensures more { IfOk result (λ found. found.1 ≡ has_faults bytes.now) }
    ensures causes { IfErr result (IsUnseen bytes.now) }
{
    if is_png(bytes) {
        return png_pixels(alloc, bytes);
    }
    if is_jpeg(bytes) {
        return Err(ScanError::Jpeg);
    }
    match pixels_of(alloc, bytes) {
        Ok(pixels) => Ok((pixels, false)),
        Err(cause) => Err(ScanError::Unscanned(cause)),
    }
}

// Reads the pixels of a PNG file; also says whether it has more.
#[tactic(auto, using(crate::proofs::Seen::shown_by, crate::proofs::Seen::large_image))]
fn png_pixels(alloc: Global, bytes: &[u8]) -> Result<(Pixels, bool), ScanError>
    requires png { is_png bytes.now ≡ true }
    ensures value { IfOk result (λ found. IsShownBy bytes.now found.0) }
    ensures more { IfOk result (λ found. found.1 ≡ has_faults bytes.now) }
    ensures causes { IfErr result (IsUnseen bytes.now) }
{
    let picture = match qrcode_png::read(alloc, bytes) {
        Ok(picture) => picture,
        Err(qrcode_png::PngError::OutOfMemory) => return Err(ScanError::OutOfMemory),
        Err(cause) => return Err(ScanError::Png(cause)),
    };
    let (across, down) = picture.sides();
    let colours = picture.pixels(alloc)?;
    match pixels_of_colours(alloc, across as usize, down as usize, &colours) {
        Ok(pixels) => Ok((pixels, picture.has_faults())),
        Err(cause) => Err(ScanError::Unscanned(cause)),
    }
}

// Decodes the square in a plain margin.
#[tactic(auto, using(crate::proofs::WhyUnread::unread_square))]
pub(crate) fn read_clean(
    alloc: Global,
    pixels: &Pixels,
    is_inverted: bool,
) -> Result<Scan, ScanError>
    ensures square { IfOk result (λ scan. IsSquareOf scan pixels.now) }
    ensures clean { IfOk result (λ scan. scan.grid ≡ None) }
    ensures inverted { IfOk result (λ scan. scan.is_inverted ≡ is_inverted) }
    ensures read { IfOk result IsScanRead }
    ensures causes { IfErr result (IsUnreadIn pixels.now) }
{
    let Some(square) = square_of(alloc, pixels)? else {
        return Err(ScanError::NoSquare);
    };
    let any = match read_any_parts(alloc, &square.modules) {
        Ok(any) => any,
        Err(error) => return Err(no_symbol(square.count, error)),
    };
    Ok(scan_of(alloc, square, None, is_inverted, any)?)
}

// Says why a square with `count` modules a side does not decode.
fn no_symbol(count: usize, error: qrcode_reader::Unread) -> ScanError
    ensures { result ≡ unread_as count error }
{
    match error {
        qrcode_reader::Unread::OutOfMemory => ScanError::OutOfMemory,
        error => ScanError::NoSymbol(count, error),
    }
}

// Puts together what was decoded from a square.
pub(crate) fn scan_of(
    alloc: Global,
    square: Square,
    grid: Option<Grid>,
    is_inverted: bool,
    any: AnyPartsReading,
) -> Result<Scan, AllocError>
    requires { IsFirstPartsReading square.count square.modules.items any.position any.is_inverted
        any.reading.version any.reading.ec_level any.reading.mask any.reading.parts.bytes.items
        any.reading.parts.parts.items any.reading.wrong.items }
    ensures square { IfOk result (λ scan. (scan.square ≡ square) × (scan.grid ≡ grid)) }
    ensures inverted { IfOk result (λ scan. scan.is_inverted ≡ is_inverted) }
    ensures read { IfOk result IsScanRead }
{
    let read = any.reading;
    let data = handed_on(alloc, &read.parts)?;
    Ok(Scan {
        square,
        grid,
        is_inverted,
        any: AnyReading {
            position: any.position,
            is_inverted: any.is_inverted,
            reading: Reading {
                version: read.version,
                ec_level: read.ec_level,
                mask: read.mask,
                data,
                wrong: read.wrong,
            },
        },
        parts: read.parts.parts,
    })
}

// The bytes of headers and segments, as a reader passes them on (ISO/IEC 18004:2006, 6.4.8).
fn handed_on(alloc: Global, found: &Parts) -> Result<Vec<u8>, AllocError>
    ensures { IfOk result (λ bytes. bytes.items
        ≡ handed_on false found.now.parts.items found.now.bytes.items) }
{
    let mut bytes = Vec::with_capacity(alloc, found.bytes.len())?;
    let mut rest = found.bytes.as_slice();
    let mut is_marked = false;
    for part in &found.parts {
        let (chunk, behind) = rest.split_at(part.byte_count().min(rest.len()));
        push_part(&mut bytes, is_marked, *part, chunk)?;
        is_marked = is_fnc1(*part) | is_marked;
        rest = behind;
    }
    Ok(bytes)
}

// Whether a part is FNC1, in either position.
fn is_fnc1(part: Part) -> bool
    ensures { result ≡ is_fnc1 part }
{
    matches!(part, Part::Front(Header::Fnc1First | Header::Fnc1Second(_)))
}

// Appends the bytes of a part; `is_marked`: it comes after FNC1.
fn push_part(
    bytes: &mut Vec<u8>,
    is_marked: bool,
    part: Part,
    chunk: &[u8],
) -> Result<(), AllocError>
    ensures { OnOk result (bytes.new.items
        ≡ bytes.old.items ++ part_on is_marked part chunk.now) }
{
    match part {
        Part::Front(_) => Ok(()),
        Part::Bytes(Mode::Alphanumeric, _) if is_marked => push_undoubled(bytes, chunk),
        Part::Bytes(_, _) => bytes.extend_from_slice(chunk),
    }
}

// The separator of GS1 elements.
const SEPARATOR: u8 = 29;

// Appends alphanumeric characters that come after FNC1: `%` is a separator, and `%%` is `%`.
fn push_undoubled(bytes: &mut Vec<u8>, characters: &[u8]) -> Result<(), AllocError>
    ensures { OnOk result (bytes.new.items ≡ bytes.old.items ++ undoubled characters.now) }
{
    let mut rest = characters;
    while let [character, behind @ ..] = rest {
        rest = behind;
        let byte = match (*character, rest) {
            (b'%', [b'%', behind @ ..]) => {
                rest = behind;
                b'%'
            }
            (b'%', _) => SEPARATOR,
            (character, _) => character,
        };
        bytes.push(byte)?;
    }
    Ok(())
}
