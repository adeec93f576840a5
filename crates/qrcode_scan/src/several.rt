//! Splits PBM and PGM files with several pictures, one after another, as netpbm writes them.

ghost use Rattle.std.specs.Prelude.{◌≡◌, ◌≤◌, length};
ghost use Rattle.qrcode_scan.specs.Several.{behind_bits, behind_figures, behind_greys, behind_plain, behind_raster, grey_length, IsBehind, IsCut};

use crate::files::{is_figure, raster, sides};
use crate::heads::{after_space, is_white, number};

/// Returns what follows the first picture of a PBM or PGM file, without the white space and
/// comments before the next picture. It is empty if the picture is cut off or wrong, and for other
/// files, which have one picture.
pub fn behind_picture(file: &[u8]) -> &[u8]
    ensures value { IsBehind file.now result.now }
    ensures cut { IsCut file.now result.now }
{
    match file {
        [b'P', b'1', ..] => after_space(behind_figures(file)),
        [b'P', b'4', ..] => after_space(behind_bits(file)),
        [b'P', b'5', ..] => after_space(behind_greys(file)),
        _ => &[],
    }
}

// Returns what follows the picture of a plain PBM file (P1).
#[tactic(auto, using(crate::proofs::Split::no_sides))]
fn behind_figures(file: &[u8]) -> &[u8]
    requires { 2 ≤ length file.now }
    ensures { result.now ≡ behind_figures file.now }
{
    match sides(file) {
        Some((across, down, rest)) => behind_plain(rest, across * down),
        None => &[],
    }
}

// Returns what follows this many characters 0 and 1.
#[tactic(auto, unfolding(crate::specs::Several::behind_plain))]
fn behind_plain(bytes: &[u8], count: usize) -> &[u8]
    ensures { result.now ≡ behind_plain count bytes.now }
{
    let mut rest = bytes;
    let mut left = count;
    while let [first, more @ ..] = rest {
        if left == 0 {
            return rest;
        }
        if is_figure(*first) {
            left -= 1;
        } else if !is_white(*first) {
            return &[];
        }
        rest = more;
    }
    rest
}

// Returns what follows the picture of a raw PBM file (P4).
#[tactic(auto, using(crate::proofs::Split::no_sides))]
fn behind_bits(file: &[u8]) -> &[u8]
    requires { 2 ≤ length file.now }
    ensures { result.now ≡ behind_bits file.now }
{
    match sides(file) {
        Some((across, down, rest)) => behind_raster(rest, (across + 7) / 8 * down),
        None => &[],
    }
}

// Returns what follows the picture of a raw PGM file (P5).
#[tactic(auto, using(crate::proofs::Split::no_sides))]
fn behind_greys(file: &[u8]) -> &[u8]
    requires { 2 ≤ length file.now }
    ensures { result.now ≡ behind_greys file.now }
{
    let Some((across, down, rest)) = sides(file) else {
        return &[];
    };
    match number(rest) {
        Some((greatest, rest)) if greatest > 0 => {
            behind_raster(rest, across * down * grey_length(greatest))
        }
        _ => &[],
    }
}

// Returns how many bytes a grey has.
fn grey_length(greatest: usize) -> usize
    ensures value { result ≡ grey_length greatest }
    ensures at_most { result ≤ 2 }
{
    if greatest <= 255 { 1 } else { 2 }
}

// Returns what follows this many bytes of pixels, before which one white space ends the header.
fn behind_raster(rest: &[u8], count: usize) -> &[u8]
    ensures { result.now ≡ behind_raster count rest.now }
{
    match raster(rest) {
        Some(bytes) => bytes.get(count..).unwrap_or(&[]),
        None => &[],
    }
}
