//! Counts the penalty of columns. All columns are counted at once, bit by bit in the words of the
//! rows.

ghost use Rattle.std.specs.Prelude.{◌≡◌, ℕ, ◌+◌, ◌-◌, ◌*◌, ◌/◌, ◌<◌, ◌≤◌, ◌^◌, bit_xor, false, not, slice_index_or};
ghost use Rattle.qrcode_penalty.specs.Rows.{FitsWidth, is_set, dark_in};
ghost use Rattle.qrcode_penalty.specs.Penalty.{count_if, is_run, run_penalty_at, finder_penalty_at, sum_below};
ghost use Rattle.qrcode_penalty.specs.Padding.{padded_row, four_rows};

use crate::row::PackedRow;
use crate::square::PackedSquare;

// Returns the columns where rows `y` and `y + 1` differ.
#[inline(always)]
fn changes<R: PackedRow>(square: &PackedSquare<'_, R>, y: usize) -> R
    requires { y + 1 < square.now.width }
    ensures value { R.bits result
        ≡ bit_xor (slice_index_or square.now.rows y 0) (slice_index_or square.now.rows (y + 1) 0) }
    ensures fits { FitsWidth square.now.width (R.bits result) }
{
    let _width = square.width();
    square.row(y).xor(square.row(y + 1))
}

// Returns the number of columns that are not in `mixed`.
#[inline(always)]
fn unmixed<R: PackedRow>(width: u32, mixed: R) -> u32
    requires room { width ≤ 189 }
    requires fits { FitsWidth width (R.bits mixed) }
    ensures value { result ≡ sum_below width (λ x. count_if (not (is_set (R.bits mixed) x)) 1) }
    ensures at_most { result ≤ 189 }
{
    width - mixed.count_ones()
}

// Returns the columns whose five modules from row `y` on are not all of one colour.
#[inline(always)]
fn mixed_from<R: PackedRow>(square: &PackedSquare<'_, R>, y: usize) -> R
    requires { y + 4 < square.now.width }
    ensures shown { (x : ℕ) → not (is_set (R.bits result) x)
        ≡ is_run (dark_in square.now.rows x) y 5 }
    ensures fits { FitsWidth square.now.width (R.bits result) }
{
    let _width = square.width();
    let inner = changes(square, y + 1)
        .or(changes(square, y + 2))
        .or(changes(square, y + 3));
    inner.or(changes(square, y))
}

// Returns row `k - 4` of the square; for a row before or after the square, an all-light one.
#[inline(always)]
fn padded_row<R: PackedRow>(square: &PackedSquare<'_, R>, k: usize) -> R
    ensures { R.bits result ≡ padded_row square.now.rows k }
{
    let width = square.width();
    if k >= 4 && k - 4 < width as usize {
        return square.row(k - 4);
    }
    R::first(0)
}

// Returns the columns with a dark module in one of the padded rows `k` to `k + 3`.
#[inline(always)]
fn four_rows<R: PackedRow>(square: &PackedSquare<'_, R>, k: usize) -> R
    requires { k < 2 ^ 32 }
    ensures { R.bits result ≡ four_rows square.now.rows k }
{
    let first = padded_row(square, k).or(padded_row(square, k + 1));
    let second = padded_row(square, k + 2).or(padded_row(square, k + 3));
    first.or(second)
}

// Returns the penalty of the finder forms that begin in row `y`, over all columns.
fn column_finders<R: PackedRow>(square: &PackedSquare<'_, R>, y: usize) -> u32
    requires { y + 6 < square.now.width }
    ensures value { result ≡ sum_below square.now.width
        (λ x. finder_penalty_at square.now.width (dark_in square.now.rows x) y) }
    ensures at_most { result ≤ 8000 }
{
    let _width = square.width();
    let upper = square.row(y).and(square.row(y + 2));
    let ends = upper.and(square.row(y + 4).and(square.row(y + 6)));
    let dark = ends.and(square.row(y + 3));
    let light = square.row(y + 1).or(square.row(y + 5));
    let forms = dark.without(light);
    if forms.is_zero() {
        return 0;
    }
    let crowded = four_rows(square, y).and(four_rows(square, y + 11));
    40 * forms.without(crowded).count_ones()
}

/// Returns the penalty of the runs in all columns. A run of n >= 5 modules costs n - 2, which is
/// the number of its modules without the first and the last. Five equal modules begin at n - 4 of
/// its rows; these and the two rows after each are n - 2.
pub(crate) fn column_run_penalties<R: PackedRow>(square: &PackedSquare<'_, R>) -> u32
    ensures value { result ≡ sum_below (square.now.width - 4)
        (λ y. sum_below square.now.width (λ x. run_penalty_at (dark_in square.now.rows x) y)) }
    ensures at_most { result ≤ 10000 * square.now.width }
{
    let width = square.width();
    // The columns where the five modules from the row before on are mixed, and those where the five
    // from each of the two rows before are.
    let mut last = R::first(width);
    let mut both = last;
    let mut total = 0;
    for y in 0..width as usize - 4 {
        let mixed = mixed_from(square, y);
        total += unmixed(width, both.and(mixed));
        both = last.and(mixed);
        last = mixed;
    }
    total + unmixed(width, both) + unmixed(width, last)
}

/// Returns the penalty of the finder forms in all columns, row by row of where they begin.
#[tactic(auto, using(crate::proofs::Sums::sum_step), unfolding(crate::specs::Penalty::sum_below))]
pub(crate) fn column_finder_penalties<R: PackedRow>(square: &PackedSquare<'_, R>) -> u32
    ensures value { let width = square.now.width in result ≡ sum_below (width - 6)
        (λ y. sum_below width (λ x. finder_penalty_at width (dark_in square.now.rows x) y)) }
    ensures at_most { result ≤ 10000 * square.now.width }
{
    let mut total = 0;
    for y in 0..square.width() as usize - 6 {
        total += column_finders(square, y);
    }
    total
}

/// Returns the last column as a row: bit y is the module in row y.
pub(crate) fn last_column<R: PackedRow>(square: &PackedSquare<'_, R>) -> R
    ensures { (y : ℕ) → y < square.now.width
        → is_set (R.bits result) y ≡ dark_in square.now.rows (square.now.width - 1) y }
{
    let width = square.width();
    let last = R::first(width).without(R::first(width - 1));
    let mut column = R::first(0);
    for y in 0..width as usize {
        column = column.down(1).or(square.row(y).and(last));
    }
    column
}
