//! Draws PGM files: a header with the sides, and a byte of grey for each pixel.

ghost use Rattle.std.proofs.Common.{rules};
ghost use Rattle.std.specs.Prelude.{◌≡◌, IfOk};
ghost use Rattle.qrcode_types.specs.Colors.{select_of};
ghost use Rattle.qrcode_sheets.specs.Files.{pgm_file};

use qrcode_render::Pixel;
use qrcode_render::grid::Grid;
use qrcode_render::page::{Finish, Page};
use qrcode_render::rows::push_rows;
use qrcode_types::types::{Color, QrResult};
use std::alloc::Global;

/// A grey pixel of a PGM file, from 0 for black to 255 for white.
#[derive(Copy, Clone, PartialEq, Eq)]
pub struct Grey(pub u8);

impl Pixel for Grey {
    type Image = Vec<u8>;

    type Canvas = Canvas;

    ghost unit = { (8, 8) };

    ghost unit_positive = { Prim.search rules };

    ghost is_default_color = { λ c pixel. pixel.0 ≡ select_of c 0 255 };

    fn default_unit_size() -> (u32, u32) {
        (8, 8)
    }

    fn default_color(color: Color) -> Grey {
        Grey(color.select(0, 255))
    }
}

/// The canvas for PGM files.
pub type Canvas = Page<Grey, File>;

/// Turns grey pixels into a PGM file.
#[derive(Copy, Clone)]
pub struct File;

impl Finish<Grey> for File {
    type Image = Vec<u8>;

    ghost is_image = { λ b dark light file. file.items ≡ pgm_file dark.0 light.0 b };

    fn image(alloc: Global, grid: &Grid, dark: Grey, light: Grey) -> QrResult<Vec<u8>> {
        let (width, height) = grid.pixels();
        let mut file = format!(in alloc; "P5\n{width} {height}\n255\n")?.into_bytes();
        push_rows(&mut file, grid, &[dark.0], &[light.0], &[])?;
        Ok(file)
    }
}
