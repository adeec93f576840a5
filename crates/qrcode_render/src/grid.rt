//! Grids of cells, each drawn as a rectangle of pixels.

ghost use Rattle.std.specs.Prelude.{◌≡◌, ◌+◌, ◌-◌, ◌*◌, ◌/◌, ◌%◌, ◌^◌, ◌<◌, ◌≤◌, false, true, length, map, slice_index_or, IfNone, IfOk, IfSome, IsOkUnless};
ghost use Rattle.qrcode_types.specs.declared.types.QrError.TheVariants.{OutOfMemory};
ghost use Rattle.std.specs.List.{range_with_len};
ghost use Rattle.qrcode_types.specs.Colors.{is_dark};
ghost use Rattle.qrcode_types.specs.declared.types.Color.TheVariants.{Light};
ghost use Rattle.qrcode_render.specs.Bitmap.{marked_line, row_of};
ghost use Rattle.qrcode_render.specs.Grid.{all_columns, all_rows, cell_row, pixels_of};

use qrcode_types::types::{Color, QrResult};
use std::alloc::Global;
use std::marker::Model;

fn is_dark(color: Color) -> bool
    ensures { result ≡ is_dark color }
{
    color == Color::Dark
}

// Writes into `marks`, from `start` on, whether each module of `line` is dark.
fn mark_line(marks: &mut [bool], start: usize, line: &[Color])
    requires { start + length line.now ≤ length marks.old }
    ensures { marks.new ≡ marked_line start line.now marks.old }
{
    for (i, color) in line.iter().enumerate() {
        marks[start + i] = is_dark(*color);
    }
}

// Writes the flag of each cell once for each of its `across` pixels.
fn widen(cells: &[bool], across: usize, marks: &mut [bool])
    requires at_least { 1 ≤ across }
    requires length { length marks.old ≡ length cells.now * across }
    ensures { marks.new ≡ map (λ x. slice_index_or cells.now (x / across) false)
        (range_with_len 0 (length cells.now * across)) }
{
    for x in 0..marks.len() {
        marks[x] = cells[x / across];
    }
}

/// A grid of dark and light cells in row order, with a border of light cells. All cells have the
/// same size in pixels.
#[derive(Drop)]
pub struct Grid<'a> {
    cells: &'a [Color],
    columns: usize,
    rows: usize,
    zone: usize,
    across: u32,
    down: u32,
}

impl<'a> Model for Grid<'a> {
    ghost use Rattle.std.specs.Prelude.{◌≡◌, ◌+◌, ◌*◌, ◌^◌, ◌<◌, ◌≤◌, length};
    ghost use Rattle.qrcode_render.specs.Grid.{Grid, all_columns, all_rows};

    ghost Value = { Grid };

    ghost view = { λ g. record {
      cells = g.cells.now;
      columns = g.columns;
      rows = g.rows;
      zone = g.zone;
      across = g.across;
      down = g.down;
    } };

    ghost invariant = { λ g. (length g.cells.now ≡ g.rows * g.columns)
        × (g.columns + 2 * g.zone < 2 ^ 32) × (g.rows + 2 * g.zone < 2 ^ 32)
        × (1 ≤ g.across) × (1 ≤ g.down)
        × ((g.columns + 2 * g.zone) * g.across < 2 ^ 32)
        × ((g.rows + 2 * g.zone) * g.down < 2 ^ 32) };
}

impl<'a> Grid<'a> {
    /// Creates a grid of `rows` rows of `columns` cells each, with a border of `zone` light cells
    /// on each side. A cell is `across` by `down` pixels, each at least 1. The sides, in cells and
    /// in pixels, must be below 2^32.
    pub fn new(
        cells: &'a [Color],
        columns: u32,
        rows: u32,
        zone: u32,
        across: u32,
        down: u32,
    ) -> Grid<'a>
        requires square { length cells.now ≡ rows * columns }
        requires columns_fit { columns + 2 * zone < 2 ^ 32 }
        requires rows_fit { rows + 2 * zone < 2 ^ 32 }
        requires across_at_least { 1 ≤ across }
        requires down_at_least { 1 ≤ down }
        requires across_fits { (columns + 2 * zone) * across < 2 ^ 32 }
        requires down_fits { (rows + 2 * zone) * down < 2 ^ 32 }
        ensures { result ≡ record {
          cells = cells.now;
          columns = columns;
          rows = rows;
          zone = zone;
          across = across;
          down = down;
        } }
    {
        Grid {
            cells,
            columns: columns as usize,
            rows: rows as usize,
            zone: zone as usize,
            across,
            down,
        }
    }

    /// Returns the number of columns and of rows, border included.
    pub fn sides(&self) -> (usize, usize)
        ensures columns { result.0 ≡ all_columns self.now }
        ensures rows { result.1 ≡ all_rows self.now }
        ensures fits { (result.0 < 2 ^ 32) × (result.1 < 2 ^ 32) }
    {
        (self.columns + 2 * self.zone, self.rows + 2 * self.zone)
    }

    /// Returns the width and height of a cell in pixels, each at least 1.
    pub fn cell(&self) -> (u32, u32)
        ensures across { result.0 ≡ self.now.across }
        ensures down { result.1 ≡ self.now.down }
        ensures at_least { (1 ≤ result.0) × (1 ≤ result.1) }
        ensures fits { all_columns self.now * result.0 < 2 ^ 32 }
    {
        (self.across, self.down)
    }

    /// Returns the width and height in pixels, border included.
    pub fn pixels(&self) -> (u32, u32)
        ensures across { result.0 ≡ all_columns self.now * self.now.across }
        ensures down { result.1 ≡ all_rows self.now * self.now.down }
        ensures at_least { (1 ≤ self.now.across) × (1 ≤ self.now.down) }
    {
        (
            (self.columns as u32 + 2 * self.zone as u32) * self.across,
            (self.rows as u32 + 2 * self.zone as u32) * self.down,
        )
    }

    /// Returns the number of cells, without the border.
    pub fn count(&self) -> usize
        ensures { result ≡ self.now.rows * self.now.columns }
    {
        self.cells.len()
    }

    /// Returns the column and the row, border included, of cell `i`, counted without the border;
    /// `None` if it is light.
    pub fn dark_place(&self, i: usize) -> Option<(u32, u32)>
        requires { i < self.now.rows * self.now.columns }
        ensures dark { IfSome result (λ _.
            is_dark (slice_index_or self.now.cells i Light) ≡ true) }
        ensures column { IfSome result (λ place.
            place.0 ≡ i % self.now.columns + self.now.zone) }
        ensures row { IfSome result (λ place. place.1 ≡ i / self.now.columns + self.now.zone) }
        ensures fits { IfSome result (λ place. place.0 + 1 < 2 ^ 32) }
        ensures light { IfNone result
            (is_dark (slice_index_or self.now.cells i Light) ≡ false) }
    {
        match self.cells[i] {
            Color::Light => None,
            Color::Dark => Some((
                (i % self.columns + self.zone) as u32,
                (i / self.columns + self.zone) as u32,
            )),
        }
    }

    /// Writes into `marks` which cells of row `row` are dark. The border is part of rows and
    /// columns.
    pub fn mark_row(&self, row: usize, marks: &mut [bool])
        requires inside { row < all_rows self.now }
        requires length { length marks.old ≡ all_columns self.now }
        ensures { marks.new ≡ cell_row self.now row }
    {
        marks.fill(false);
        if self.zone <= row && row < self.zone + self.rows {
            let start = (row - self.zone) * self.columns;
            mark_line(marks, self.zone, &self.cells[start..start + self.columns]);
        }
    }

    /// Returns which pixels of row `y` are dark, border included.
    ///
    /// Errors: only `OutOfMemory`.
    pub fn pixel_row(&self, alloc: Global, y: u32) -> QrResult<Vec<bool>>
        requires { y < all_rows self.now * self.now.down }
        ensures value { IfOk result (λ marks. marks.items ≡ row_of (pixels_of self.now) y) }
        ensures memory { IsOkUnless result OutOfMemory }
    {
        let (columns, _) = self.sides();
        let (across, down) = self.cell();
        let mut cells = vec![in alloc; false; columns]?;
        self.mark_row((y / down) as usize, &mut cells);
        if across == 1 {
            return Ok(cells);
        }
        let mut marks = vec![in alloc; false; columns * across as usize]?;
        widen(&cells, across as usize, &mut marks);
        Ok(marks)
    }
}
