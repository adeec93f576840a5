//! Draws text of half blocks: two rows of pixels in a line.

ghost use Rattle.std.proofs.Common.{rules};
ghost use Rattle.std.specs.Prelude.{◌≡◌, ◌+◌, ◌*◌, ◌^◌, ◌<◌, ◌++◌, false, length, string_bytes, IfOk, OnOk, IsOkUnless};
ghost use Rattle.qrcode_types.specs.declared.types.QrError.TheVariants.{OutOfMemory};
ghost use Rattle.qrcode_types.specs.Colors.{is_dark};
ghost use Rattle.qrcode_render.specs.Grid.{pixels_of};
ghost use Rattle.qrcode_render.specs.Half.{is_dark_half};
ghost use Rattle.qrcode_render.specs.Lines.{line_start};
ghost use Rattle.qrcode_render.specs.Texts.{half_blocks, column_text, columns_text, marks_text, dense_line, dense_text};

use crate::Pixel;
use crate::grid::Grid;
use crate::page::{Finish, Page};
use qrcode_types::types::{Color, QrResult};
use std::alloc::Global;

/// A pixel that is half a character high.
#[derive(Copy, Clone, PartialEq)]
pub enum Dense1x2 {
    /// A half in the colour of the text.
    Dark,
    /// A blank half, in the colour of the background.
    Light,
}

impl Dense1x2 {
    fn is_dark(self) -> bool
        ensures { result ≡ is_dark_half self }
    {
        self == Dense1x2::Dark
    }
}

impl Pixel for Dense1x2 {
    type Image = String;

    type Canvas = Canvas1x2;

    ghost unit = { (1, 1) };

    ghost unit_positive = { Prim.search rules };

    ghost is_default_color = { λ c pixel. is_dark_half pixel ≡ is_dark c };

    fn default_unit_size() -> (u32, u32) {
        (1, 1)
    }

    fn default_color(color: Color) -> Dense1x2 {
        color.select(Dense1x2::Dark, Dense1x2::Light)
    }
}

/// The canvas for half blocks. The picture has a line for every two rows, with newlines between
/// lines and none at the end. If the last row has no partner, the lower halves of its line are
/// blank, whatever the light pixel is.
pub type Canvas1x2 = Page<Dense1x2, HalfBlocks>;

/// Turns rows of pixels into half blocks.
#[derive(Copy, Clone)]
pub struct HalfBlocks;

impl Finish<Dense1x2> for HalfBlocks {
    ghost use Rattle.qrcode_render.specs.Half.{is_dark_half};

    type Image = String;

    ghost is_image = { λ b dark light image. string_bytes image
        ≡ dense_text (is_dark_half dark) (is_dark_half light) b };

    #[tactic(auto, unfolding(crate::specs::Texts::dense_text))]
    fn image(alloc: Global, grid: &Grid, dark: Dense1x2, light: Dense1x2) -> QrResult<String> {
        let (width, height) = grid.pixels();
        if width == 0 || height == 0 {
            return Ok(String::new(alloc));
        }
        let marked = dark.is_dark();
        let other = light.is_dark();
        lines_of(alloc, grid, marked, other)
    }
}

// The most bytes of a half block character.
const LONGEST_HALF: usize = 3;

// Returns the character whose upper and lower half are drawn if `upper` and `lower` are true.
fn half(upper: bool, lower: bool) -> &'static str
    ensures { result.now ≡ half_blocks upper lower }
{
    match (upper, lower) {
        (false, false) => " ",
        (false, true) => "\u{2584}",
        (true, false) => "\u{2580}",
        (true, true) => "\u{2588}",
    }
}

// Appends the characters of two rows of pixels, column by column. Dark pixels are drawn if `marked`
// is true, light ones if `other` is.
fn push_columns(
    text: &mut String,
    marked: bool,
    other: bool,
    upper: &[bool],
    lower: &[bool],
) -> QrResult<()>
    requires { length lower.now ≡ length upper.now }
    ensures appends { OnOk result (string_bytes text.new ≡ string_bytes text.old
        ++ columns_text (column_text marked other) upper.now lower.now) }
    ensures memory { IsOkUnless result OutOfMemory }
{
    for x in 0..upper.len() {
        let above = if upper[x] { marked } else { other };
        let below = if lower[x] { marked } else { other };
        text.push_str(half(above, below))?;
    }
    Ok(())
}

// Appends the characters of a last row alone, whose lower halves are blank.
fn push_last(text: &mut String, marked: bool, other: bool, marks: &[bool]) -> QrResult<()>
    ensures appends { OnOk result (string_bytes text.new ≡ string_bytes text.old
        ++ marks_text (half_blocks marked false) (half_blocks other false) marks.now) }
    ensures memory { IsOkUnless result OutOfMemory }
{
    for mark in marks {
        text.push_str(half(if *mark { marked } else { other }, false))?;
    }
    Ok(())
}

// Appends what begins line `i`: a newline, except before the first line.
fn push_start(text: &mut String, i: u32) -> QrResult<()>
    ensures appends { OnOk result
        (string_bytes text.new ≡ string_bytes text.old ++ line_start i) }
    ensures memory { IsOkUnless result OutOfMemory }
{
    if i > 0 {
        text.push('\n')?;
    }
    Ok(())
}

// Appends line `i`, of rows 2i and 2i + 1 or of a last row alone, after a newline unless it is the
// first.
fn push_line(text: &mut String, grid: &Grid, marked: bool, other: bool, i: u32) -> QrResult<()>
    requires inside { 2 * i < (pixels_of grid.now).down }
    requires at_most { 2 * i < 2 ^ 32 }
    ensures appends { OnOk result (string_bytes text.new ≡ string_bytes text.old
        ++ line_start i ++ dense_line marked other (pixels_of grid.now) i) }
    ensures memory { IsOkUnless result OutOfMemory }
{
    let alloc = *text.allocator();
    push_start(text, i)?;
    let (_, height) = grid.pixels();
    let upper = grid.pixel_row(alloc, 2 * i)?;
    if 2 * i + 1 == height {
        return push_last(text, marked, other, &upper);
    }
    let lower = grid.pixel_row(alloc, 2 * i + 1)?;
    push_columns(text, marked, other, &upper, &lower)
}

// Returns the lines of `grid`. Dark pixels are drawn if `marked` is true, light ones if `other` is.
fn lines_of(alloc: Global, grid: &Grid, marked: bool, other: bool) -> QrResult<String>
    requires { 0 < (pixels_of grid.now).across }
    ensures value { IfOk result (λ text.
        string_bytes text ≡ dense_text marked other (pixels_of grid.now)) }
    ensures memory { IsOkUnless result OutOfMemory }
{
    let (width, height) = grid.pixels();
    let count = height.div_ceil(2);
    let longest = LONGEST_HALF * width as usize + 1;
    let mut text = String::with_capacity(alloc, longest.saturating_mul(count as usize))?;
    for i in 0..count {
        push_line(&mut text, grid, marked, other, i)?;
    }
    Ok(text)
}
