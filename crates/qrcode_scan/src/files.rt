//! Reads PBM and PGM files, as pbm(5) and pgm(5) of netpbm define them.

ghost use Rattle.std.specs.Prelude.{◌≡◌, ◌==◌, ◌||◌, ◌*◌, ◌<◌, ◌≤◌, nat_lt, true, false, map, drop, length, IfOk, IfErr, IfSome, IfNone};
ghost use Rattle.std.specs.List.{prefix_len};
ghost use Rattle.qrcode_scan.specs.Files.{is_black_bit, is_plain, packed_marks, plain_marks, bits_file, figures_file, greys_file, IsBitsFile, IsBitsRefusal, IsFiguresFile, IsFiguresRefusal, IsGreysFile, IsGreysRefusal, IsSeenIn, IsUnscanned};
ghost use Rattle.qrcode_scan.specs.Heads.{after_space, digits_from, is_ended, sides_of, HasSides};

use crate::halves::half_block_pixels;
use crate::heads::{is_white, number};
use crate::pixels::{Pixels, Unscanned};
use std::alloc::{AllocError, Global};

/// Reads the pixels of a picture: of a PBM file (P1 or P4) or a raw PGM file (P5), known by its
/// first two bytes, and otherwise of a text of half blocks. A grey is dark below half of the
/// maximum. What follows the last pixel is ignored.
///
/// Errors: `NotPicture` if `bytes` are none of these; `NoSide` if there is no pixel, or more than
/// 65,535 along a side (in half blocks 4,096); `NoGrey` if the maximum grey is not from 1 to 255;
/// `NotPixel` if something that is neither a pixel nor white space comes before the last pixel;
/// `TooShort` if `bytes` end before the last pixel; `OutOfMemory` if memory runs out.
pub fn pixels_of(alloc: Global, bytes: &[u8]) -> Result<Pixels, Unscanned>
    ensures value { IfOk result (IsSeenIn bytes.now) }
    ensures causes { IfErr result (IsUnscanned bytes.now) }
{
    match bytes {
        [b'P', b'1', ..] => figures(alloc, bytes),
        [b'P', b'4', ..] => bits(alloc, bytes),
        [b'P', b'5', ..] => greys(alloc, bytes),
        _ => half_block_pixels(alloc, bytes),
    }
}

/// Reads the width and height in a header; returns what follows too. `None` if one of them is 0 or
/// above 65,535.
pub(crate) fn sides(file: &[u8]) -> Option<(usize, usize, &[u8])>
    requires { 2 ≤ length file.now }
    ensures value { IfSome result (λ head. (head.0, head.1, head.2.now) ≡ sides_of file.now) }
    ensures at_most { IfSome result (λ head. (head.0 ≤ 65535) × (head.1 ≤ 65535)) }
    ensures at_least { IfSome result (λ head. (1 ≤ head.0) × (1 ≤ head.1)) }
    ensures none { IfNone result (¬ HasSides file.now) }
{
    let (across, rest) = number(&file[2..])?;
    let (down, rest) = number(rest)?;
    if across == 0 || down == 0 {
        return None;
    }
    Some((across, down, rest))
}

/// Skips the white space at the end of a header; `None` if another byte is there.
pub(crate) fn raster(rest: &[u8]) -> Option<&[u8]>
    ensures value { IfSome result (λ bytes. bytes.now ≡ drop 1 rest.now) }
    ensures ended { IfSome result (λ _. is_ended rest.now ≡ true) }
    ensures none { IfNone result (is_ended rest.now ≡ false) }
{
    match rest {
        [first, bytes @ ..] if is_white(*first) => Some(bytes),
        [] => Some(rest),
        _ => None,
    }
}

// Reads a raw PBM file (P4).
#[tactic(auto, using(crate::proofs::ShownSquares::bits_length))]
fn bits(alloc: Global, file: &[u8]) -> Result<Pixels, Unscanned>
    requires { 2 ≤ length file.now }
    ensures value { IfOk result (λ pixels. IsBitsFile file.now × (pixels ≡ bits_file file.now)) }
    ensures causes { IfErr result (IsBitsRefusal file.now) }
{
    let (across, down, rest) = sides(file).ok_or(Unscanned::NoSide)?;
    let bytes = raster(rest).ok_or(Unscanned::NotPixel)?;
    if bytes.len() < (across + 7) / 8 * down {
        return Err(Unscanned::TooShort);
    }
    let marks = packed_marks(alloc, bytes, across, down)?;
    Ok(Pixels::new(across, down, marks))
}

// Unpacks `down` rows of `across` pixels, eight in a byte; each row begins a new byte.
fn packed_marks(
    alloc: Global,
    bytes: &[u8],
    across: usize,
    down: usize,
) -> Result<Vec<bool>, AllocError>
    requires across { (1 ≤ across) × (across ≤ 65535) }
    requires down { down ≤ 65535 }
    ensures { IfOk result (λ marks. marks.items ≡ packed_marks bytes.now across down) }
{
    let stride = (across + 7) / 8;
    let mut marks = Vec::with_capacity(alloc, across * down)?;
    let (mut x, mut y) = (0, 0);
    for _i in 0..across * down {
        marks.push(is_black_bit(bytes, stride, x, y))?;
        x += 1;
        if x == across {
            x = 0;
            y += 1;
        }
    }
    Ok(marks)
}

// Whether the pixel in column `x` and row `y` is black, in rows of `stride` bytes.
fn is_black_bit(bytes: &[u8], stride: usize, x: usize, y: usize) -> bool
    requires column { x < 65536 }
    requires row { y < 65536 }
    requires stride { stride < 65536 }
    ensures { result ≡ is_black_bit bytes.now stride x y }
{
    match bytes.get(y * stride + x / 8) {
        Some(byte) => (*byte >> (7 - x % 8)) % 2 == 1,
        None => false,
    }
}

// Reads a plain PBM file (P1).
fn figures(alloc: Global, file: &[u8]) -> Result<Pixels, Unscanned>
    requires { 2 ≤ length file.now }
    ensures value { IfOk result (λ pixels.
        IsFiguresFile file.now × (pixels ≡ figures_file file.now)) }
    ensures causes { IfErr result (IsFiguresRefusal file.now) }
{
    let (across, down, rest) = sides(file).ok_or(Unscanned::NoSide)?;
    let length = plain_length(rest);
    let mut marks = plain_marks(alloc, &rest[..length])?;
    if marks.len() < across * down {
        return Err(if length < rest.len() {
            Unscanned::NotPixel
        } else {
            Unscanned::TooShort
        });
    }
    marks.truncate(across * down);
    Ok(Pixels::new(across, down, marks))
}

// Counts the bytes before anything but 0, 1 and white space.
fn plain_length(bytes: &[u8]) -> usize
    ensures value { result ≡ prefix_len is_plain bytes.now }
    ensures at_most { result ≤ length bytes.now }
{
    for i in 0..bytes.len() {
        if !is_plain(bytes[i]) {
            return i;
        }
    }
    bytes.len()
}

// Whether a byte is 0, 1 or white space.
fn is_plain(byte: u8) -> bool
    ensures { result ≡ is_plain byte }
{
    is_figure(byte) || is_white(byte)
}

/// Whether a byte is 0 or 1.
pub(crate) fn is_figure(byte: u8) -> bool
    ensures { result ≡ (byte == 48 || byte == 49) }
{
    matches!(byte, b'0' | b'1')
}

// Returns whether each 0 or 1 is a 1, skipping other bytes.
fn plain_marks(alloc: Global, bytes: &[u8]) -> Result<Vec<bool>, AllocError>
    ensures { IfOk result (λ marks. marks.items ≡ plain_marks bytes.now) }
{
    let mut marks = Vec::with_capacity(alloc, bytes.len())?;
    for byte in bytes {
        if is_figure(*byte) {
            marks.push(*byte == b'1')?;
        }
    }
    Ok(marks)
}

// Reads a raw PGM file (P5).
fn greys(alloc: Global, file: &[u8]) -> Result<Pixels, Unscanned>
    requires { 2 ≤ length file.now }
    ensures value { IfOk result (λ pixels. IsGreysFile file.now × (pixels ≡ greys_file file.now)) }
    ensures causes { IfErr result (IsGreysRefusal file.now) }
{
    let (across, down, rest) = sides(file).ok_or(Unscanned::NoSide)?;
    let (greatest, rest) = greatest_grey(rest).ok_or(Unscanned::NoGrey)?;
    let bytes = raster(rest).ok_or(Unscanned::NotPixel)?;
    if bytes.len() < across * down {
        return Err(Unscanned::TooShort);
    }
    let marks = grey_marks(alloc, greatest, &bytes[..across * down])?;
    Ok(Pixels::new(across, down, marks))
}

// Reads the maximum grey, after width and height; returns what follows too. `None` if it is not
// from 1 to 255.
fn greatest_grey(rest: &[u8]) -> Option<(usize, &[u8])>
    ensures value { IfSome result (λ found.
        (found.0, found.1.now) ≡ digits_from 0 (after_space false rest.now)) }
    ensures inside { IfSome result (λ found. (1 ≤ found.0) × (found.0 ≤ 255)) }
    ensures none { IfNone result (let greatest = (digits_from 0 (after_space false rest.now)).0 in
        ¬ ((1 ≤ greatest) × (greatest ≤ 255))) }
{
    let (greatest, rest) = number(rest)?;
    if greatest == 0 || greatest > 255 {
        return None;
    }
    Some((greatest, rest))
}

// Returns which greys are dark: those below half of `greatest`.
fn grey_marks(alloc: Global, greatest: usize, bytes: &[u8]) -> Result<Vec<bool>, AllocError>
    ensures { IfOk result (λ marks. marks.items
        ≡ map (λ grey. nat_lt (2 * grey) greatest) bytes.now) }
{
    bytes
        .iter()
        .map(|grey| 2 * (*grey as usize) < greatest)
        .collect(alloc)
}
