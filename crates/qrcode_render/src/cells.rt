//! Pixels of a picture that is being drawn, each dark or light.

ghost use Rattle.std.specs.Prelude.{◌≡◌, ◌+◌, ◌*◌, ◌^◌, ◌<◌, ◌≤◌, length, IfOk, IsOkUnless, fold, filter};
ghost use Rattle.std.specs.List.{range_with_len};
ghost use Rattle.qrcode_types.specs.declared.types.QrError.TheVariants.{OutOfMemory};
ghost use Rattle.qrcode_types.specs.Colors.{is_dark};
ghost use Rattle.qrcode_render.specs.Bitmap.{blank, marked, with_dark, with_dark_rect};
ghost use Rattle.qrcode_render.specs.Grid.{pixels_of};

use crate::grid::Grid;
use qrcode_types::types::{Color, QrResult};
use std::alloc::Global;
use std::marker::Model;

/// The pixels of a picture that is being drawn, in row order, each dark or light.
#[derive(Drop)]
pub struct Cells {
    width: u32,
    height: u32,
    cells: Vec<Color>,
}

impl Model for Cells {
    ghost use Rattle.std.specs.Prelude.{◌≡◌, ◌*◌, ◌^◌, ◌<◌, length, map};
    ghost use Rattle.qrcode_types.specs.Colors.{is_dark};
    ghost use Rattle.qrcode_render.specs.Bitmap.{Bitmap};

    ghost Value = { Bitmap };

    ghost view = { λ m. record {
      across = m.width;
      down = m.height;
      marks = map is_dark m.cells.items;
    } };

    ghost invariant = { λ m. (length m.cells.items ≡ m.width * m.height)
        × (m.width < 2 ^ 32) × (m.height < 2 ^ 32) };
}

impl Cells {
    /// Creates a picture of `width` by `height` light pixels.
    ///
    /// Errors: only `OutOfMemory`.
    pub fn new(alloc: Global, width: u32, height: u32) -> QrResult<Cells>
        ensures value { IfOk result (λ marks. marks ≡ blank width height) }
        ensures memory { IsOkUnless result OutOfMemory }
    {
        let mut cells = Vec::new(alloc);
        cells.resize(width as usize * height as usize, Color::Light)?;
        Ok(Cells {
            width,
            height,
            cells,
        })
    }

    /// Makes the pixel in column `x` and row `y` dark.
    pub fn put(&mut self, x: u32, y: u32)
        requires inside_across { x < self.old.across }
        requires inside_down { y < self.old.down }
        ensures { self.new ≡ with_dark x y self.old }
    {
        let place = y as usize * self.width as usize + x as usize;
        self.cells[place] = Color::Dark;
    }

    // Makes `width` pixels of row `y` dark, from column `left` on.
    #[tactic(auto, using(crate::proofs::Folds::fold_range_more))]
    fn put_run(&mut self, left: u32, y: u32, width: u32)
        requires inside_across { left + width ≤ self.old.across }
        requires inside_down { y < self.old.down }
        ensures { self.new ≡ record self.old {
          marks =
              fold (λ m x. marked self.old.across x y m) self.old.marks (range_with_len left width);
        } }
    {
        let _ = &self.width;
        for column in 0..width {
            self.put(left + column, y);
        }
    }

    /// Makes a rectangle of `width` by `height` pixels dark, from column `left` and row `top` on.
    #[tactic(auto, using(crate::proofs::Folds::fold_range_more))]
    pub fn put_rect(&mut self, left: u32, top: u32, width: u32, height: u32)
        requires inside_across { left + width ≤ self.old.across }
        requires inside_down { top + height ≤ self.old.down }
        ensures { self.new ≡ with_dark_rect left top width height self.old }
    {
        let _ = &self.height;
        for row in 0..height {
            self.put_run(left, top + row, width);
        }
    }

    /// Returns the allocator of the pixels.
    pub fn alloc(&self) -> Global {
        *self.cells.allocator()
    }

    /// Returns the pixels as a grid whose cells are one pixel each.
    pub fn grid(&self) -> Grid
        ensures { pixels_of result ≡ self.now }
    {
        Grid::new(&self.cells, self.width, self.height, 0, 1, 1)
    }
}
