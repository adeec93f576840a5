//! Draws PPM files: a header with the sides, and red, green and blue for each pixel.

ghost use Rattle.std.proofs.Common.{rules};
ghost use Rattle.std.specs.Prelude.{◌≡◌, [], ◌∷◌, IfOk};
ghost use Rattle.qrcode_types.specs.Colors.{select_of};
ghost use Rattle.qrcode_sheets.specs.Files.{ppm_file};

use qrcode_render::Pixel;
use qrcode_render::grid::Grid;
use qrcode_render::page::{Finish, Page};
use qrcode_render::rows::push_rows;
use qrcode_types::types::{Color as ModuleColor, QrResult};
use std::alloc::Global;

/// A pixel of a PPM file: red, green and blue, each from 0 to 255.
#[derive(Copy, Clone)]
pub struct Color(pub [u8; 3]);

impl Pixel for Color {
    type Image = Vec<u8>;

    type Canvas = Canvas;

    ghost unit = { (8, 8) };

    ghost unit_positive = { Prim.search rules };

    ghost is_default_color = { λ c pixel. pixel.0
        ≡ select_of c 0 255 ∷ select_of c 0 255 ∷ select_of c 0 255 ∷ [] };

    fn default_unit_size() -> (u32, u32) {
        (8, 8)
    }

    fn default_color(color: ModuleColor) -> Color {
        let grey = color.select(0, 255);
        Color([grey, grey, grey])
    }
}

/// The canvas for PPM files.
pub type Canvas = Page<Color, File>;

/// Turns coloured pixels into a PPM file.
#[derive(Copy, Clone)]
pub struct File;

impl Finish<Color> for File {
    type Image = Vec<u8>;

    ghost is_image = { λ b dark light file. file.items ≡ ppm_file dark.0 light.0 b };

    fn image(alloc: Global, grid: &Grid, dark: Color, light: Color) -> QrResult<Vec<u8>> {
        let (width, height) = grid.pixels();
        let mut file = format!(in alloc; "P6\n{width} {height}\n255\n")?.into_bytes();
        push_rows(&mut file, grid, &dark.0, &light.0, &[])?;
        Ok(file)
    }
}
