//! Draws a symbol: as text, as SVG or PIC, as rows of pixels, or on a canvas of the caller's.
#![tactic(auto)]

ghost use Rattle.std.specs.Prelude.{◌≡◌, ℕ, ◌+◌, ◌-◌, ◌*◌, ◌^◌, ◌<◌, ◌≤◌, length, fold, IfOk, OnOk, IsOkUnless, IsTrue};
ghost use Rattle.qrcode_types.specs.declared.types.QrError.TheVariants.{OutOfMemory};
ghost use Rattle.qrcode_types.specs.declared.types.Color.{Color};
ghost use Rattle.std.specs.List.{range_with_len, slice_range};
ghost use Rattle.qrcode_render.specs.Drawn.{drawn, drawn_row, filled};
ghost use Rattle.qrcode_render.specs.GridOf.{grid_of};
ghost use Rattle.qrcode_render.specs.Layout.{layout};
ghost use Rattle.qrcode_render.specs.Setting.{Setting, IsSquare, setting_of, square_of, HasPixels, fits, drawing_of};

use crate::grid::Grid;
use qrcode_types::types::{Color, QrResult};
use std::alloc::Global;
use std::marker::Model;

pub mod backwards;
mod cells;
pub mod grid;
pub mod image;
pub mod laws;
pub mod page;
pub mod pic;
pub mod rows;
mod setters;
pub mod string;
pub mod strokes;
pub mod svg;
pub mod unicode;

/// A pixel type, which chooses the format of the picture. Its values stand for dark and light.
pub trait Pixel: Copy {
    /// The finished picture.
    type Image;

    /// The canvas that the picture is drawn on.
    type Canvas: Canvas<Pixel = Self, Image = Self::Image>;

    // A pixel is the default for a colour.
    ghost is_default_color: { Color → Self → Type 0 };

    // The default width and height of a module in pixels.
    ghost unit: { ℕ × ℕ };

    /// Returns the default width and height of a module in pixels, each at least 1.
    fn default_unit_size() -> (u32, u32)
        ensures across { result.0 ≡ unit.0 }
        ensures down { result.1 ≡ unit.1 };

    /// Returns the default pixel for `color`.
    fn default_color(color: Color) -> Self
        ensures { is_default_color color result };

    ghost unit_positive: { (1 ≤ unit.0) × (1 ≤ unit.1) };
}

/// A surface on which dark pixels are drawn. After `OutOfMemory` its content is unspecified, and it
/// may only be dropped.
pub trait Canvas: Drop {
    /// The type of its pixels.
    type Pixel;

    /// The finished picture.
    type Image;

    // The value of a drawing in contracts.
    ghost Drawing: { Type 0 };

    ghost shown: { Self → Drawing };

    // The width in pixels; `down` is the height.
    ghost across: { Self → ℕ };

    ghost down: { Self → ℕ };

    // The drawing of light pixels only, of a width and a height, a dark pixel and a light pixel.
    ghost start: { ℕ → ℕ → Self.Pixel → Self.Pixel → Drawing };

    ghost pixel_step: { ℕ → ℕ → Drawing → Drawing };

    ghost rect_step: { ℕ → ℕ → ℕ → ℕ → Drawing → Drawing };

    // An image is what a drawing is finished as.
    ghost is_end: { Drawing → Self.Image → Type 0 };

    // An image is the picture of a renderer's setting: what `drawing_of start rect_step` is
    // finished as, or the same in simpler terms.
    ghost is_picture: { Setting Self.Pixel → Self.Image → Type 0 };

    /// Creates a canvas of `width` by `height` light pixels.
    ///
    /// Errors: only `OutOfMemory`.
    fn new(
        alloc: Global,
        width: u32,
        height: u32,
        dark_pixel: Self::Pixel,
        light_pixel: Self::Pixel,
    ) -> QrResult<Self>
        ensures starts { IfOk result (λ canvas.
            shown canvas ≡ start width height dark_pixel light_pixel) }
        ensures across { IfOk result (λ canvas. across canvas ≡ width) }
        ensures down { IfOk result (λ canvas. down canvas ≡ height) }
        ensures memory { IsOkUnless result OutOfMemory };

    /// Makes the pixel in column `x` and row `y` dark, counted from 0 at the upper left. It must be
    /// inside.
    ///
    /// Errors: only `OutOfMemory`.
    fn draw_dark_pixel(&mut self, x: u32, y: u32) -> QrResult<()>
        requires inside_across { x < across self.old }
        requires inside_down { y < down self.old }
        ensures draws { OnOk result (shown self.new ≡ pixel_step x y (shown self.old)) }
        ensures across { OnOk result (across self.new ≡ across self.old) }
        ensures down { OnOk result (down self.new ≡ down self.old) }
        ensures memory { IsOkUnless result OutOfMemory };

    /// Makes a rectangle of `width` by `height` pixels dark, from column `left` and row `top` on.
    /// It must be inside.
    ///
    /// Errors: only `OutOfMemory`.
    fn draw_dark_rect(&mut self, left: u32, top: u32, width: u32, height: u32) -> QrResult<()>
        requires inside_across { left + width ≤ across self.old }
        requires inside_down { top + height ≤ down self.old }
        ensures draws { OnOk result
            (shown self.new ≡ rect_step left top width height (shown self.old)) }
        ensures across { OnOk result (across self.new ≡ across self.old) }
        ensures down { OnOk result (down self.new ≡ down self.old) }
        ensures memory { IsOkUnless result OutOfMemory };

    /// Draws the dark modules of `line`, a row of modules of `width` by `height` pixels each, from
    /// column `left` and row `top` on. All must be inside. A canvas that can draw a row at once
    /// overrides this.
    ///
    /// Errors: only `OutOfMemory`.
    fn draw_dark_modules(
        &mut self,
        line: &[Color],
        left: u32,
        top: u32,
        width: u32,
        height: u32,
    ) -> QrResult<()>
        requires inside_across { left + length line.now * width ≤ across self.old }
        requires inside_down { top + height ≤ down self.old }
        ensures draws { OnOk result (shown self.new
            ≡ drawn_row rect_step left top width height line.now (shown self.old)) }
        ensures across { OnOk result (across self.new ≡ across self.old) }
        ensures down { OnOk result (down self.new ≡ down self.old) }
        ensures memory { IsOkUnless result OutOfMemory }
    {
        let mut x = left;
        for color in line {
            match color {
                Color::Light => {}
                Color::Dark => self.draw_dark_rect(x, top, width, height)?,
            }
            x += width;
        }
        Ok(())
    }

    /// Finishes the drawing and returns the picture.
    ///
    /// Errors: only `OutOfMemory`.
    fn into_image(self) -> QrResult<Self::Image>
        ensures ends { IfOk result (is_end (shown self)) }
        ensures memory { IsOkUnless result OutOfMemory }

        // A renderer's drawing is finished as its picture.
        ensures picture { (s : Setting Self.Pixel) → IsSquare (square_of s)
            → shown self ≡ drawing_of start rect_step s → IfOk result (is_picture s) };

    /// Draws the dark modules of the square `content` row by row. It has `count` modules along a
    /// side and a quiet zone of `zone` modules around it; a module is `width` by `height` pixels.
    ///
    /// Errors: only `OutOfMemory`.
    fn draw_square(
        &mut self,
        content: &[Color],
        count: u32,
        zone: u32,
        width: u32,
        height: u32,
    ) -> QrResult<()>
        requires square { length content.now ≡ count * count }
        requires side_fits { count + 2 * zone < 2 ^ 32 }
        requires across { across self.old ≡ (count + 2 * zone) * width }
        requires down { down self.old ≡ (count + 2 * zone) * height }
        ensures draws { OnOk result (shown self.new ≡ drawn rect_step
            (layout count zone width height) content.now (shown self.old)) }
        ensures memory { IsOkUnless result OutOfMemory }
    {
        let left = zone * width;
        for row in 0..count {
            let start = row as usize * count as usize;
            let line = &content[start..start + count as usize];
            self.draw_dark_modules(line, left, (row + zone) * height, width, height)?;
        }
        Ok(())
    }

    /// Returns the picture of `modules`, drawn with `dark_pixel` and `light_pixel`. A canvas that
    /// can make it at once overrides this.
    ///
    /// Errors: only `OutOfMemory`.
    fn picture(
        alloc: Global,
        modules: &Modules,
        dark_pixel: Self::Pixel,
        light_pixel: Self::Pixel,
    ) -> QrResult<Self::Image>
        ensures picture { (whole : ℕ) → IfOk result
            (is_picture (setting_of modules.now dark_pixel light_pixel whole)) }
        ensures ends { (whole : ℕ) → IfOk result (is_end (drawing_of start rect_step
            (setting_of modules.now dark_pixel light_pixel whole))) }
        ensures memory { IsOkUnless result OutOfMemory }
    {
        let (width, height) = modules.pixels();
        let mut canvas = Self::new(alloc, width, height, dark_pixel, light_pixel)?;
        canvas.draw_square(
            modules.content,
            modules.count,
            modules.zone,
            modules.width,
            modules.height,
        )?;
        canvas.into_image()
    }

    ghost sides_fit: { (canvas : Self) → (across canvas < 2 ^ 32) × (down canvas < 2 ^ 32) };
}

/// Makes a rectangle of `width` by `height` pixels dark, pixel by pixel and row by row, from column
/// `left` and row `top` on. It must be inside.
///
/// Errors: only `OutOfMemory`.
#[tactic(auto, using(crate::proofs::Folds::fold_range_more))]
pub fn fill_rect<C: Canvas>(
    canvas: &mut C,
    left: u32,
    top: u32,
    width: u32,
    height: u32,
) -> QrResult<()>
    requires inside_across { left + width ≤ C.across canvas.old }
    requires inside_down { top + height ≤ C.down canvas.old }
    ensures draws { OnOk result (C.shown canvas.new
        ≡ filled C.pixel_step left top width height (C.shown canvas.old)) }
    ensures across { OnOk result (C.across canvas.new ≡ C.across canvas.old) }
    ensures down { OnOk result (C.down canvas.new ≡ C.down canvas.old) }
    ensures memory { IsOkUnless result OutOfMemory }
{
    for row in 0..height {
        fill_row(canvas, left, top + row, width)?;
    }
    Ok(())
}

// Makes `width` pixels of row `y` dark one by one, from column `left` on.
#[tactic(auto, using(crate::proofs::Folds::fold_range_more))]
fn fill_row<C: Canvas>(canvas: &mut C, left: u32, y: u32, width: u32) -> QrResult<()>
    requires inside_across { left + width ≤ C.across canvas.old }
    requires inside_down { y < C.down canvas.old }
    ensures draws { OnOk result (C.shown canvas.new
        ≡ fold (λ d x. C.pixel_step x y d) (C.shown canvas.old) (range_with_len left width)) }
    ensures across { OnOk result (C.across canvas.new ≡ C.across canvas.old) }
    ensures down { OnOk result (C.down canvas.new ≡ C.down canvas.old) }
    ensures memory { IsOkUnless result OutOfMemory }
{
    for column in 0..width {
        canvas.draw_dark_pixel(left + column, y)?;
    }
    Ok(())
}

/// The modules of a picture: a square in row order, its quiet zone, and the size of a module in
/// pixels. The sides of the picture, in modules and in pixels, are below 2^32.
#[derive(Drop)]
pub struct Modules<'a> {
    content: &'a [Color],
    count: u32,
    zone: u32,
    width: u32,
    height: u32,
}

impl<'a> Model for Modules<'a> {
    ghost use Rattle.std.specs.Prelude.{◌≡◌, ◌+◌, ◌*◌, ◌^◌, ◌<◌, ◌≤◌, length};
    ghost use Rattle.qrcode_render.specs.Setting.{Square};

    ghost Value = { Square };

    ghost view = { λ m. record {
      content = m.content.now;
      count = m.count;
      zone = m.zone;
      across = m.width;
      down = m.height;
    } };

    ghost invariant = { λ m. (length m.content.now ≡ m.count * m.count)
        × (1 ≤ m.width) × (1 ≤ m.height) × (m.count + 2 * m.zone < 2 ^ 32)
        × ((m.count + 2 * m.zone) * m.width < 2 ^ 32)
        × ((m.count + 2 * m.zone) * m.height < 2 ^ 32) };
}

impl<'a> Modules<'a> {
    /// Returns the modules in row order, without the quiet zone.
    pub fn content(&self) -> &[Color]
        ensures { result.now ≡ self.now.content }
    {
        self.content
    }

    /// Returns the modules of row `row`, counted from 0, without the quiet zone.
    pub fn row(&self, row: u32) -> &[Color]
        requires { row < self.now.count }
        ensures { result.now ≡ slice_range self.now.content
            (row * self.now.count) (row * self.now.count + self.now.count) }
    {
        let start = row as usize * self.count as usize;
        &self.content[start..start + self.count as usize]
    }

    /// Returns the number of modules along a side, and that of the quiet zone on each side.
    pub fn counts(&self) -> (u32, u32)
        ensures count { result.0 ≡ self.now.count }
        ensures zone { result.1 ≡ self.now.zone }
    {
        (self.count, self.zone)
    }

    /// Returns the width and height of a module in pixels.
    pub fn module_dimensions(&self) -> (u32, u32)
        ensures across { result.0 ≡ self.now.across }
        ensures down { result.1 ≡ self.now.down }
    {
        (self.width, self.height)
    }

    /// Returns the width and height of the picture in pixels, quiet zone included.
    pub fn pixels(&self) -> (u32, u32)
        ensures across { result.0 ≡ (self.now.count + 2 * self.now.zone) * self.now.across }
        ensures down { result.1 ≡ (self.now.count + 2 * self.now.zone) * self.now.down }
        ensures whole { IsSquare self.now }
    {
        let side = self.count + 2 * self.zone;
        (side * self.width, side * self.height)
    }

    // Returns the modules as a grid of cells.
    fn grid(&self) -> Grid<'a>
        ensures value { result ≡ grid_of self.now }
        ensures whole { IsSquare self.now }
    {
        Grid::new(
            self.content,
            self.count,
            self.count,
            self.zone,
            self.width,
            self.height,
        )
    }
}

/// Draws pictures of a symbol, in the colours and with the quiet zone and module size set on it.
#[derive(Drop)]
pub struct Renderer<'a, P> {
    content: &'a [Color],
    modules_count: u32,
    quiet_zone: u32,
    module_width: u32,
    module_height: u32,
    dark_color: P,
    light_color: P,
    whole_quiet_zone: u32,
}

impl<'a, P> Model for Renderer<'a, P> {
    ghost use Rattle.std.specs.Prelude.{◌≡◌, ◌*◌, ◌≤◌, length};
    ghost use Rattle.qrcode_render.specs.Setting.{Setting};

    ghost Value = { Setting P };

    ghost view = { λ r. record {
      content = r.content.now;
      count = r.modules_count;
      zone = r.quiet_zone;
      across = r.module_width;
      down = r.module_height;
      dark = r.dark_color;
      light = r.light_color;
      whole_zone = r.whole_quiet_zone;
    } };

    ghost invariant = { λ r. (length r.content.now ≡ r.modules_count * r.modules_count)
        × (1 ≤ r.module_width) × (1 ≤ r.module_height) };
}

impl<'a, P: Pixel> Renderer<'a, P> {
    /// Creates a renderer of `content`: modules in row order, `modules_count` along a side. The
    /// quiet zone of `quiet_zone` modules on each side is on; module size and colours are the pixel
    /// type's defaults.
    pub fn new(content: &'a [Color], modules_count: usize, quiet_zone: u32) -> Renderer<'a, P>
        requires square { length content.now ≡ modules_count * modules_count }
        requires at_most { modules_count < 2 ^ 32 }
        ensures content { result.content ≡ content.now }
        ensures count { result.count ≡ modules_count }
        ensures zone { result.zone ≡ quiet_zone }
        ensures whole_zone { result.whole_zone ≡ quiet_zone }
        ensures across { result.across ≡ P.unit.0 }
        ensures down { result.down ≡ P.unit.1 }
        ensures dark { P.is_default_color Color.Dark result.dark }
        ensures light { P.is_default_color Color.Light result.light }
    {
        let (module_width, module_height) = P::default_unit_size();
        Renderer {
            content,
            modules_count: modules_count as u32,
            quiet_zone,
            module_width,
            module_height,
            dark_color: P::default_color(Color::Dark),
            light_color: P::default_color(Color::Light),
            whole_quiet_zone: quiet_zone,
        }
    }

    /// Draws the picture. Each side has as many pixels as the modules along it, including the quiet
    /// zone if it is on, times those of a module. The picture must fit, as `fits` says.
    ///
    /// Errors: only `OutOfMemory`.
    pub fn build(&self, alloc: Global) -> QrResult<P::Image>
        requires { IsTrue (fits self.now) }
        ensures picture { IfOk result (P.Canvas.is_picture self.now) }
        ensures memory { IsOkUnless result OutOfMemory }

        // A symbol with modules gives a picture with pixels.
        ensures pixels { 1 ≤ self.now.count → HasPixels self.now }
        ensures whole { IsSquare (square_of self.now) }

        // On any canvas, the picture is what the drawing of the dark modules is finished as.
        ensures ends { IfOk result
            (P.Canvas.is_end (drawing_of P.Canvas.start P.Canvas.rect_step self.now)) }
    {
        let modules = Modules {
            content: self.content,
            count: self.modules_count,
            zone: self.quiet_zone,
            width: self.module_width,
            height: self.module_height,
        };
        P::Canvas::picture(alloc, &modules, self.dark_color, self.light_color)
    }

    /// Draws the picture, as `build` does.
    ///
    /// Errors: only `OutOfMemory`.
    pub fn to_image(&self, alloc: Global) -> QrResult<P::Image>
        requires { IsTrue (fits self.now) }
        ensures picture { IfOk result (P.Canvas.is_picture self.now) }
        ensures memory { IsOkUnless result OutOfMemory }
        ensures pixels { 1 ≤ self.now.count → HasPixels self.now }
        ensures whole { IsSquare (square_of self.now) }
        ensures ends { IfOk result
            (P.Canvas.is_end (drawing_of P.Canvas.start P.Canvas.rect_step self.now)) }
    {
        self.build(alloc)
    }
}
