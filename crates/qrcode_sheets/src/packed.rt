//! Formats of printers and files with black and white pixels, eight to a byte.

ghost use Rattle.std.proofs.Common.{rules};
ghost use Rattle.std.specs.Prelude.{◌≡◌, ℕ, ◌+◌, ◌*◌, ◌/◌, ◌^◌, ◌<◌, ◌≤◌, List, ◌++◌, length, flat_map, slice_index_or, false, if◌then◌else◌, IfOk, OnOk, IsOkUnless};
ghost use Rattle.std.specs.List.{range_with_len};
ghost use Rattle.qrcode_types.specs.declared.types.QrError.TheVariants.{OutOfMemory};
ghost use Rattle.qrcode_types.specs.Colors.{is_dark};
ghost use Rattle.qrcode_sheets.specs.Files.{inked, black_bit, black_bits_from, black_bytes};
ghost use Rattle.qrcode_render.specs.Grid.{all_columns, all_rows, cell_row, each, pixels_of, repeated};
ghost use Rattle.qrcode_sheets.specs.Ink.{is_black};
ghost use Rattle.qrcode_sheets.specs.Printers.{packed_file};

use crate::pbm::Bit;
use qrcode_render::Pixel;
use qrcode_render::grid::Grid;
use qrcode_render::page::{Finish, Page};
use qrcode_render::rows::push_times;
use qrcode_types::types::{Color, QrResult};
use std::alloc::Global;
use std::marker::PhantomData;

/// A format with rows of black and white pixels. Rows are given as bytes of eight pixels each, the
/// first in the highest bit, 1 for black.
pub trait Packing: Copy {
    // The bytes before the rows, from the width and height in pixels.
    ghost before: { ℕ → ℕ → List ℕ };

    // The bytes that the format has for a row of these bytes.
    ghost row_of: { List ℕ → List ℕ };

    // The bytes after the rows.
    ghost behind: { List ℕ };

    /// Returns the bytes before the rows of a picture of `width` by `height` pixels.
    ///
    /// Errors: only `OutOfMemory`.
    fn head(alloc: Global, width: u32, height: u32) -> QrResult<Vec<u8>>
        ensures value { IfOk result (λ head. head.items ≡ before width height) }
        ensures memory { IsOkUnless result OutOfMemory };

    /// Returns the bytes that the format has for a row of `bytes`.
    ///
    /// Errors: only `OutOfMemory`.
    fn row(bytes: Vec<u8>) -> QrResult<Vec<u8>>
        ensures value { IfOk result (λ row. row.items ≡ row_of bytes.items) }
        ensures memory { IsOkUnless result OutOfMemory };

    /// Returns the bytes after the rows.
    fn tail() -> &'static [u8]
        ensures { result.now ≡ behind };
}

/// A pixel of the format `F`: black or white.
#[derive(Copy, Clone)]
pub struct Dot<F> {
    is_black: bool,
    of: PhantomData<F>,
}

impl<F> Dot<F> {
    /// Creates a black or white pixel.
    pub fn of(bit: Bit) -> Dot<F>
        ensures { result.is_black ≡ is_black bit }
    {
        Dot {
            is_black: bit.is_black(),
            of: PhantomData,
        }
    }

    /// Returns whether the pixel is black.
    pub(crate) fn is_black(self) -> bool
        ensures { result ≡ self.is_black }
    {
        self.is_black
    }
}

impl<F: Packing> Pixel for Dot<F> {
    type Image = Vec<u8>;

    type Canvas = Page<Dot<F>, PackedFile<F>>;

    ghost unit = { (8, 8) };

    ghost unit_positive = { Prim.search rules };

    ghost is_default_color = { λ c pixel. pixel.is_black ≡ is_dark c };

    fn default_unit_size() -> (u32, u32) {
        (8, 8)
    }

    fn default_color(color: Color) -> Dot<F> {
        Dot::of(Bit::default_color(color))
    }
}

/// Turns black and white pixels into a file of the format `F`.
#[derive(Copy, Clone)]
pub struct PackedFile<F> {
    of: PhantomData<F>,
}

impl<F: Packing> Finish<Dot<F>> for PackedFile<F> {
    type Image = Vec<u8>;

    ghost is_image = { λ b dark light file. file.items
        ≡ packed_file F.before F.row_of F.behind dark.is_black light.is_black b };

    fn image(alloc: Global, grid: &Grid, dark: Dot<F>, light: Dot<F>) -> QrResult<Vec<u8>> {
        packed_file::<F>(alloc, grid, dark.is_black, light.is_black)
    }
}

/// Returns the file of `grid`. Dark cells are black if `marked` is true, light ones if `other` is.
///
/// Errors: only `OutOfMemory`.
pub(crate) fn packed_file<F: Packing>(
    alloc: Global,
    grid: &Grid,
    marked: bool,
    other: bool,
) -> QrResult<Vec<u8>>
    ensures value { IfOk result (λ file. file.items
        ≡ packed_file F.before F.row_of F.behind marked other (pixels_of grid.now)) }
    ensures memory { IsOkUnless result OutOfMemory }
{
    let (width, height) = grid.pixels();
    let head = F::head(alloc, width, height)?;
    let file = packed_behind::<F>(head, grid, marked, other)?;
    Ok(file)
}

/// Returns the file that `packed_file` makes of `grid`, but with `head` before the rows.
///
/// Errors: only `OutOfMemory`.
pub(crate) fn packed_behind<F: Packing>(
    head: Vec<u8>,
    grid: &Grid,
    marked: bool,
    other: bool,
) -> QrResult<Vec<u8>>
    ensures value { IfOk result (λ file. file.items ≡ packed_file (λ _ _. head.items)
        F.row_of F.behind marked other (pixels_of grid.now)) }
    ensures memory { IsOkUnless result OutOfMemory }
{
    let alloc = *head.allocator();
    let (width, height) = grid.pixels();
    let mut file = head;
    file.reserve((width.div_ceil(8) as usize).saturating_mul(height as usize))?;
    let (columns, _) = grid.sides();
    let mut marks = vec![in alloc; false; columns]?;
    push_packed_rows::<F>(&mut file, grid, marked, other, &mut marks)?;
    file.extend_from_slice(F::tail())?;
    Ok(file)
}

// Appends the rows of pixels. Dark cells are black if `marked` is true, light ones if `other` is.
fn push_packed_rows<F: Packing>(
    file: &mut Vec<u8>,
    grid: &Grid,
    marked: bool,
    other: bool,
    marks: &mut [bool],
) -> QrResult<()>
    requires length { length marks.old ≡ all_columns grid.now }
    ensures appends { OnOk result (file.new.items ≡ file.old.items ++ flat_map (λ row.
        repeated grid.now.down (F.row_of (black_bytes (inked marked other
        (each grid.now.across (cell_row grid.now row)))))) (range_with_len 0 (all_rows grid.now))) }
    ensures memory { IsOkUnless result OutOfMemory }
{
    let alloc = *file.allocator();
    let (_, rows) = grid.sides();
    let (across, down) = grid.cell();
    for row in 0..rows {
        grid.mark_row(row, marks);
        let bytes = packed_row(alloc, marks, across, marked, other)?;
        let text = F::row(bytes)?;
        push_times(file, &text, down)?;
    }
    Ok(())
}

/// Packs a row of cells of `across` pixels each, eight pixels to a byte. `marks` says which cells
/// are dark; these are black if `marked` is true, the others if `other` is.
///
/// Errors: only `OutOfMemory`.
pub(crate) fn packed_row(
    alloc: Global,
    marks: &[bool],
    across: u32,
    marked: bool,
    other: bool,
) -> QrResult<Vec<u8>>
    requires at_least { 1 ≤ across }
    requires fits { length marks.now * across < 2 ^ 32 }
    ensures value { IfOk result (λ bytes.
        bytes.items ≡ black_bytes (inked marked other (each across marks.now))) }
    ensures memory { IsOkUnless result OutOfMemory }
{
    let count = (marks.len() * across as usize + 7) / 8;
    let mut bytes = Vec::with_capacity(alloc, count)?;
    for i in 0..count {
        bytes.push(packed_byte(marks, across, 8 * i, marked, other))?;
    }
    Ok(bytes)
}

// Returns eight pixels of a row from pixel `start` on, the first highest, with zeros after the end.
// Eight pixels of one cell are found at once.
fn packed_byte(marks: &[bool], across: u32, start: usize, marked: bool, other: bool) -> u8
    requires at_least { 1 ≤ across }
    requires at_most { start < 2 ^ 32 }
    ensures { result ≡ black_bits_from (inked marked other (each across marks.now)) start 8 }
{
    if (start + 7) / across as usize == start / across as usize {
        return 255 * black_bit(marks, across, start, marked, other);
    }
    let mut byte = 0u8;
    for i in 0..8 {
        byte = 2 * byte + black_bit(marks, across, start + i, marked, other);
    }
    byte
}

// Returns whether a cell is black: `mark` says whether it is dark.
fn ink(mark: bool, marked: bool, other: bool) -> bool
    ensures { result ≡ if mark then marked else other }
{
    if mark { marked } else { other }
}

// Returns 1 for black, 0 for white.
fn bit_of(black: bool) -> u8
    ensures { result ≡ if black then 1 else 0 }
{
    if black { 1 } else { 0 }
}

// Returns the bit of pixel `x` of a row: 1 for black, 0 for white and after the end.
fn black_bit(marks: &[bool], across: u32, x: usize, marked: bool, other: bool) -> u8
    requires at_least { 1 ≤ across }
    ensures value { result ≡ black_bit (inked marked other (each across marks.now)) x }
    ensures at_most { result ≤ 1 }
{
    let column = x / across as usize;
    if column < marks.len() {
        bit_of(ink(marks[column], marked, other))
    } else {
        0
    }
}
