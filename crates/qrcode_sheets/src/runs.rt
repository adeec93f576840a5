//! Finds the runs of dark cells in the rows of a grid.

ghost use Rattle.std.specs.Prelude.{◌≡◌, ℕ, ◌+◌, ◌*◌, ◌^◌, ◌<◌, ◌==◌, ◌&&◌, ◌||◌, IfOk, OnOk, IsOkUnless};
ghost use Rattle.qrcode_types.specs.declared.types.QrError.TheVariants.{OutOfMemory};
ghost use Rattle.qrcode_render.specs.Grid.{all_columns, all_rows, is_reached, pixels_of};
ghost use Rattle.qrcode_sheets.specs.Paths.{is_filled, AreRunsOf};

use qrcode_render::grid::Grid;
use qrcode_types::types::QrResult;
use std::alloc::Global;

/// Cells next to each other in a row: the first column, the row, and the number of cells.
#[derive(Copy, Clone)]
pub struct Run {
    pub left: u32,
    pub top: u32,
    pub width: u32,
}

/// Returns the runs of dark cells, row by row. Columns and rows count from 0, border included.
///
/// Errors: only `OutOfMemory`.
pub fn runs_of(alloc: Global, grid: &Grid) -> QrResult<Vec<Run>>
    ensures value { IfOk result (λ runs. AreRunsOf (all_columns grid.now) (all_rows grid.now)
        grid.now.across grid.now.down (pixels_of grid.now) runs.items) }
    ensures memory { IsOkUnless result OutOfMemory }
{
    let mut runs = Vec::new(alloc);
    for i in 0..grid.count() {
        add(&mut runs, grid, i)?;
    }
    Ok(runs)
}

// Adds cell `i` if it is dark, once those before it are added.
fn add(runs: &mut Vec<Run>, grid: &Grid, i: usize) -> QrResult<()>
    requires { i < grid.now.rows * grid.now.columns }
    ensures fills { OnOk result ((c r : ℕ)
        → is_filled runs.old.items c r ≡ is_reached grid.now i c r
        → is_filled runs.new.items c r ≡ is_reached grid.now (i + 1) c r) }
    ensures memory { IsOkUnless result OutOfMemory }
{
    match grid.dark_place(i) {
        None => Ok(()),
        Some((column, row)) => add_cell(runs, column, row),
    }
}

// Adds a cell: to the last run if it comes next in its row, or else as a new run.
fn add_cell(runs: &mut Vec<Run>, column: u32, row: u32) -> QrResult<()>
    requires { column + 1 < 2 ^ 32 }
    ensures fills { OnOk result ((c r : ℕ) → is_filled runs.new.items c r
        ≡ (is_filled runs.old.items c r || (column == c && row == r))) }
    ensures memory { IsOkUnless result OutOfMemory }
{
    let mut run = Run {
        left: column,
        top: row,
        width: 0,
    };
    if let Some(last) = runs.pop() {
        if last.top == row && last.left as u64 + last.width as u64 == column as u64 {
            run = last;
        } else {
            runs.push(last)?;
        }
    }
    run.width += 1;
    runs.push(run)?;
    Ok(())
}
