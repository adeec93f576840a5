//! Reads the bits of the free places along the zigzag, with the mask taken off.

ghost use Rattle.std.specs.Prelude.{◌≡◌, ℕ, ◌+◌, ◌*◌, ◌%◌, ◌<◌, ◌≤◌, ◌++◌, false, length, take, slice_index_or, IsTrue, OnOk, IfOk, pos};
ghost use Rattle.qrcode_types.specs.Colors.{is_dark};
ghost use Rattle.qrcode_types.specs.Versions.{is_valid, side};
ghost use Rattle.qrcode_layout.specs.Masks.{turns, turned_if};
ghost use Rattle.qrcode_layout.specs.Stream.{stream};
ghost use Rattle.qrcode_symbol.specs.Filling.{row_of_step};
ghost use Rattle.qrcode_reader.specs.Streams.{patterned_canvas, bits_turned, bits_walked};

use crate::turned::{Turned, coordinate};
use qrcode_layout::masks::MaskPattern;
use qrcode_layout::walk::right_column;
use qrcode_symbol::canvas::{Canvas, Module};
use qrcode_types::types::{Color, EcLevel, Version};
use qrcode_types::versions::side;
use std::alloc::{AllocError, Global};

// Returns a canvas with just the functional patterns: what it leaves empty are the free places.
fn patterned(alloc: Global, version: Version) -> Result<Canvas, AllocError>
    requires { IsTrue (is_valid version) }
    ensures { IfOk result (λ canvas. canvas ≡ patterned_canvas version) }
{
    match Canvas::new(alloc, version, EcLevel::L) {
        Ok(mut canvas) => {
            canvas.draw_all_functional_patterns();
            Ok(canvas)
        }
        Err(_) => Err(AllocError),
    }
}

/// Returns the bit of a module, which the mask has flipped or not.
#[inline(always)]
pub fn bit_of(color: Color, is_turned: bool) -> bool
    ensures { result ≡ turned_if is_turned (is_dark color) }
{
    match color {
        Color::Dark => !is_turned,
        Color::Light => is_turned,
    }
}

// The most bits of a pair of columns. A buffer of this size needs no capacity check for each bit.
const ROOM: usize = 354;

// Writes the bit of the module in column `x` and row `y` after the first `count` bits, if the place
// is free, and returns the new number of bits.
#[inline(always)]
fn put_module(
    bits: &mut [bool; ROOM],
    count: usize,
    canvas: &Canvas,
    version: Version,
    modules: &[Color],
    is_turned: bool,
    x: usize,
    y: usize,
) -> usize
    requires at_most { count < 354 }
    requires valid { IsTrue (is_valid version) }
    requires patterns { canvas.now ≡ patterned_canvas version }
    requires square { length modules.now ≡ side version * side version }
    requires column { x < side version }
    requires row { y < side version }
    ensures at_most { result ≤ count + 1 }
    ensures value { take result bits.new
        ≡ take count bits.old ++ bits_turned version is_turned modules.now (x, y) }
{
    let column = coordinate(x);
    let row = coordinate(y);
    let Module::Empty = canvas.get(column, row) else {
        return count;
    };
    let color = modules[y * side(version) + x];
    bits[count] = bit_of(color, is_turned);
    count + 1
}

// Returns the row at a step through a pair of columns: pairs go upwards and downwards in turn.
#[inline(always)]
fn row_of_step(width: usize, pair: usize, step: usize) -> usize
    requires { step < width }
    ensures value { result ≡ row_of_step width pair step }
    ensures inside { result < width }
{
    if pair % 2 == 0 {
        width - 1 - step
    } else {
        step
    }
}

// Appends the bits of a pair of columns, the right module of each row first.
fn push_pair(
    bits: &mut Vec<bool>,
    canvas: &Canvas,
    version: Version,
    turned: &Turned,
    modules: &[Color],
    pair: usize,
) -> Result<(), AllocError>
    requires valid { IsTrue (is_valid version) }
    requires patterns { canvas.now ≡ patterned_canvas version }
    requires square { length modules.now ≡ side version * side version }
    requires turned { turned.now.height ≡ side version }
    requires pair { 2 * pair + 3 ≤ side version }
    requires walked { bits.old.items ≡ bits_walked version turned.now.mask modules.now
        (2 * side version * pair) }
    ensures { OnOk result (bits.new.items
        ≡ bits_walked version turned.now.mask modules.now (2 * side version * (pair + 1))) }
{
    let width = side(version);
    let right = right_column(version, width, pair);
    let left = right - 1;
    let right_turned = turned.column(right);
    let left_turned = turned.column(left);
    let mut found = [false; ROOM];
    let mut count = 0;
    for step in 0..width {
        let row = row_of_step(width, pair, step);
        let is_turned = right_turned[row];
        count = put_module(
            &mut found, count, canvas, version, modules, is_turned, right, row,
        );
        let is_turned = left_turned[row];
        count = put_module(
            &mut found, count, canvas, version, modules, is_turned, left, row,
        );
    }
    bits.extend_from_slice(&found[..count])?;
    Ok(())
}

/// Returns the bits of the free places, in the order of the zigzag, with `mask` taken off (ISO/IEC
/// 18004:2006, 6.7.3 and 6.8). `version` must exist, and `modules` must have its side.
///
/// Errors: only `AllocError`, if memory runs out.
pub fn stream(
    alloc: Global,
    version: Version,
    mask: MaskPattern,
    modules: &[Color],
) -> Result<Vec<bool>, AllocError>
    requires valid { IsTrue (is_valid version) }
    requires square { length modules.now ≡ side version * side version }
    ensures { IfOk result (λ bits. bits.items ≡ stream version mask modules.now) }
{
    let canvas = patterned(alloc, version)?;
    let width = side(version);
    let turned = Turned::new(mask, width);
    let mut bits = Vec::with_capacity(alloc, modules.len())?;
    for pair in 0..width / 2 {
        push_pair(&mut bits, &canvas, version, &turned, modules, pair)?;
    }
    Ok(bits)
}
