//! The canvas of the formats that are made of rows of pixels.

ghost use Rattle.std.specs.Prelude.{◌≡◌, ◌^◌, ◌<◌, IfOk, IsOkUnless};
ghost use Rattle.qrcode_types.specs.declared.types.QrError.TheVariants.{OutOfMemory};
ghost use Rattle.qrcode_render.specs.Bitmap.{Bitmap};
ghost use Rattle.qrcode_render.specs.Grid.{pixels_of};
ghost use Rattle.qrcode_render.specs.Raster.{Raster, light_raster, dark_pixel_step, dark_rect_step};
ghost use Rattle.qrcode_render.specs.Setting.{picture_of};

use crate::cells::Cells;
use crate::grid::Grid;
use crate::{Canvas, Modules};
use qrcode_types::types::QrResult;
use std::alloc::Global;
use std::marker::PhantomData;

/// Turns rows of pixels into an image.
pub trait Finish<P>: Drop {
    /// The finished image.
    type Image;

    // An image shows a bitmap, drawn with a dark and a light pixel.
    ghost is_image: { Bitmap → P → P → Self.Image → Type 0 };

    /// Returns the image of `grid`, drawn with the pixels `dark` and `light`.
    ///
    /// Errors: only `OutOfMemory`.
    fn image(alloc: Global, grid: &Grid, dark: P, light: P) -> QrResult<Self::Image>
        ensures value { IfOk result (is_image (pixels_of grid.now) dark light) }
        ensures memory { IsOkUnless result OutOfMemory };
}

/// A canvas of rows of pixels, with the pixels for dark and light. `E` turns it into an image.
#[derive(Drop)]
pub struct Page<P, E> {
    cells: Cells,
    dark: P,
    light: P,
    of: PhantomData<E>,
    ghost across_fits: { cells.across < 2 ^ 32 },
    ghost down_fits: { cells.down < 2 ^ 32 },
}

impl<P: Copy, E: Finish<P>> Canvas for Page<P, E> {
    type Pixel = P;

    type Image = E::Image;

    ghost Drawing = { Raster P };

    ghost shown = { λ page. record {
      bitmap = page.cells;
      dark = page.dark;
      light = page.light;
    } };

    ghost across = { λ page. page.cells.across };

    ghost down = { λ page. page.cells.down };

    ghost start = { light_raster };

    ghost pixel_step = { dark_pixel_step };

    ghost rect_step = { dark_rect_step };

    ghost is_end = { λ r. E.is_image r.bitmap r.dark r.light };

    ghost is_picture = { λ s. E.is_image (picture_of s) s.dark s.light };

    ghost sides_fit = { λ page. (page.across_fits, page.down_fits) };

    fn new(alloc: Global, width: u32, height: u32, dark: P, light: P) -> QrResult<Self> {
        let cells = Cells::new(alloc, width, height)?;
        Ok(Page {
            cells,
            dark,
            light,
            of: PhantomData,
        })
    }

    fn draw_dark_pixel(&mut self, x: u32, y: u32) -> QrResult<()> {
        self.cells.put(x, y);
        Ok(())
    }

    fn draw_dark_rect(&mut self, left: u32, top: u32, width: u32, height: u32) -> QrResult<()> {
        self.cells.put_rect(left, top, width, height);
        Ok(())
    }

    fn picture(alloc: Global, modules: &Modules, dark: P, light: P) -> QrResult<E::Image> {
        E::image(alloc, &modules.grid(), dark, light)
    }

    fn into_image(self) -> QrResult<E::Image> {
        let (cells, dark, light) = (&self.cells, self.dark, self.light);
        E::image(cells.alloc(), &cells.grid(), dark, light)
    }
}
