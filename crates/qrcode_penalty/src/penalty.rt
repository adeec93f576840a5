//! The penalty of a square.

ghost use Rattle.std.specs.Prelude.{◌≡◌, ℕ, ◌<◌, ◌^◌, Bool};
ghost use Rattle.qrcode_penalty.specs.Rows.{dark_in, inside, Shows};
ghost use Rattle.qrcode_penalty.specs.Penalty.{normal_penalty, micro_penalty};

use crate::columns::{column_finder_penalties, column_run_penalties, last_column};
use crate::row::PackedRow;
use crate::rows::{dark_count, light_count, row_and_block_penalties};
use crate::square::PackedSquare;

/// Returns the penalty of a Normal square (ISO/IEC 18004:2006, 6.8.3). The balance of dark modules
/// is counted as the Rust crate does, not in steps of 5 %.
pub fn normal_penalty<R: PackedRow>(square: &PackedSquare<'_, R>) -> u32
    ensures value { result ≡ normal_penalty square.now.width (dark_in square.now.rows) }
    ensures at_most { result < 2 ^ 24 }

    // So also for any `dark` that agrees with the rows inside the square.
    ensures shown { (dark : ℕ → ℕ → Bool) → Shows square.now.width square.now.rows dark
        → result ≡ normal_penalty square.now.width (inside square.now.width dark) }
{
    let width = square.width();
    let counted = row_and_block_penalties(square)
        + column_run_penalties(square)
        + column_finder_penalties(square);
    let balance = (200 * dark_count(square) / (width * width)).abs_diff(100);
    counted + balance
}

/// Returns the penalty of a Micro square (ISO/IEC 18004:2006, 6.8.3). Only its last row and its last
/// column count.
pub fn micro_penalty<R: PackedRow>(square: &PackedSquare<'_, R>) -> u32
    ensures value { result ≡ micro_penalty square.now.width (dark_in square.now.rows) }
    ensures at_most { result < 2 ^ 24 }

    // So also for any `dark` that agrees with the rows inside the square.
    ensures shown { (dark : ℕ → ℕ → Bool) → Shows square.now.width square.now.rows dark
        → result ≡ micro_penalty square.now.width (inside square.now.width dark) }
{
    let width = square.width();
    let row = light_count(square.row(width as usize - 1), width);
    let column = light_count(last_column(square), width);
    row + column + 15 * row.max(column)
}
