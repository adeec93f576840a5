//! Counts the penalty of rows and of blocks.

ghost use Rattle.std.specs.Prelude.{◌≡◌, ℕ, ◌+◌, ◌-◌, ◌*◌, ◌<◌, ◌≤◌};
ghost use Rattle.qrcode_penalty.specs.Rows.{FitsWidth, is_set, dark_in};
ghost use Rattle.qrcode_penalty.specs.Penalty.{run_penalty, finder_penalty, line_penalty, block_penalty, block_penalty_at, light_count, sum_below, dark_count, dark_count_in};

use crate::pair::RowPair;
use crate::row::PackedRow;
use crate::square::PackedSquare;

// Returns the penalty of the runs in two rows. A run of n >= 5 modules costs n - 2, which is the
// number of its modules without the first and the last.
#[inline(always)]
fn run_penalties<R: PackedRow>(rows: R::Pair, width: u32) -> u32
    requires at_least { 7 ≤ width }
    requires room { width + 3 ≤ R.room }
    ensures value { result ≡ run_penalty width (is_set (R.Pair.upper rows))
        + run_penalty width (is_set (R.Pair.lower rows)) }
    ensures at_most { result ≤ 600 }
{
    let edges = rows.xor(rows.down(1));
    let pairs = edges.or(edges.down(1));
    // Five equal modules begin at n - 4 places of a run of n; these and the two places after each
    // are n - 2.
    let places = R::first(width - 4);
    let windows = places.beside(places).without(pairs.or(pairs.down(2)));
    let two = windows.or(windows.up(1));
    windows.or(two.up(1)).count_ones()
}

// Returns 40 for each finder form in two rows with four light modules on one side.
#[inline(always)]
fn finder_penalties<R: PackedRow>(rows: R::Pair, width: u32) -> u32
    requires room { width + 3 ≤ R.room }
    requires upper_fits { FitsWidth width (R.Pair.upper rows) }
    requires lower_fits { FitsWidth width (R.Pair.lower rows) }
    ensures value { result ≡ finder_penalty width (is_set (R.Pair.upper rows))
        + finder_penalty width (is_set (R.Pair.lower rows)) }
    ensures at_most { result ≤ 16000 }
{
    let edges = rows.xor(rows.down(1));
    let next = edges.down(1);
    // The colour changes from this column to the next, and again after it.
    let turns = edges.and(next);
    // Dark modules x for which x + 2, x + 3 and x + 4 are of one colour.
    let middles = rows.without(edges.or(next).down(2));
    let shapes = turns.and(turns.down(4)).and(middles);
    // Most rows of a small symbol have none.
    if shapes.is_zero() {
        return 0;
    }
    // `fours`: a dark module here or at one of the three places before.
    let twos = rows.or(rows.up(1));
    let fours = twos.or(twos.up(2));
    let crowded = fours.and(fours.down(11)).up(1);
    40 * shapes.without(crowded).count_ones()
}

// Returns the penalty of two rows as lines. They are next to each other in vectors, so counting two
// costs no more than counting one.
#[inline(always)]
fn two_row_penalties<R: PackedRow>(square: &PackedSquare<'_, R>, upper: usize, lower: usize) -> u32
    requires upper_inside { upper < square.now.width }
    requires lower_inside { lower < square.now.width }
    ensures value { result
        ≡ line_penalty square.now.width (λ x. dark_in square.now.rows x upper)
        + line_penalty square.now.width (λ x. dark_in square.now.rows x lower) }
    ensures at_most { result ≤ 20000 }
{
    let width = square.width();
    let rows = square.row(upper).beside(square.row(lower));
    run_penalties::<R>(rows, width) + finder_penalties::<R>(rows, width)
}

// Returns the penalty of the 2 by 2 blocks of one colour in a row and the next, for two such rows.
#[inline(always)]
fn two_block_penalties<R: PackedRow>(
    square: &PackedSquare<'_, R>,
    upper: usize,
    lower: usize,
) -> u32
    requires upper_inside { upper + 1 < square.now.width }
    requires lower_inside { lower + 1 < square.now.width }
    ensures value { let dark = dark_in square.now.rows in result
        ≡ sum_below (square.now.width - 1) (block_penalty_at dark upper)
        + sum_below (square.now.width - 1) (block_penalty_at dark lower) }
    ensures at_most { result ≤ 1200 }
{
    let width = square.width();
    let rows = square.row(upper).beside(square.row(lower));
    let next = square.row(upper + 1).beside(square.row(lower + 1));
    let edges = rows.xor(rows.down(1)).or(next.xor(next.down(1)));
    let mixed = rows.xor(next).or(edges);
    let places = R::first(width - 1);
    3 * places.beside(places).without(mixed).count_ones()
}

// Returns what is missing once `y` rows (an even number) are counted: the one or two last rows, and
// the blocks between them. A single row is counted twice and halved.
fn last_penalties<R: PackedRow>(square: &PackedSquare<'_, R>, y: usize) -> u32
    requires at_least { y < square.now.width }
    requires near { square.now.width ≤ y + 2 }
    ensures value { let dark = dark_in square.now.rows in let width = square.now.width in
        sum_below y (λ k. line_penalty width (λ x. dark x k))
        + sum_below y (λ k. sum_below (width - 1) (block_penalty_at dark k)) + result
        ≡ sum_below width (λ k. line_penalty width (λ x. dark x k)) + block_penalty width dark }
    ensures at_most { result ≤ 30000 }
{
    let width = square.width();
    if y + 1 == width as usize {
        return two_row_penalties(square, y, y) / 2;
    }
    two_row_penalties(square, y, y + 1) + two_block_penalties(square, y, y) / 2
}

/// Returns the penalty of all rows as lines, and of all 2 by 2 blocks of one colour. It takes two
/// rows at a time.
pub(crate) fn row_and_block_penalties<R: PackedRow>(square: &PackedSquare<'_, R>) -> u32
    ensures value { result ≡ sum_below square.now.width
        (λ y. line_penalty square.now.width (λ x. dark_in square.now.rows x y))
        + block_penalty square.now.width (dark_in square.now.rows) }
    ensures at_most { result ≤ 20000 * square.now.width }
{
    let pairs = (square.width() as usize - 1) / 2;
    let mut total = 0;
    for k in 0..pairs {
        total += two_row_penalties(square, 2 * k, 2 * k + 1);
        total += two_block_penalties(square, 2 * k, 2 * k + 1);
    }
    total + last_penalties(square, 2 * pairs)
}

// Returns the number of dark modules in row `y`.
#[inline(always)]
fn row_dark_count<R: PackedRow>(square: &PackedSquare<'_, R>, y: usize) -> u32
    requires { y < square.now.width }
    ensures value { result ≡ dark_count_in square.now.width (λ x. dark_in square.now.rows x y) }
    ensures at_most { result ≤ 192 }
{
    square.row(y).count_ones()
}

/// Returns the number of dark modules.
#[tactic(auto, using(crate::proofs::Sums::sum_step), unfolding(crate::specs::Penalty::sum_below, crate::specs::Penalty::dark_count))]
pub(crate) fn dark_count<R: PackedRow>(square: &PackedSquare<'_, R>) -> u32
    ensures value { result ≡ dark_count square.now.width (dark_in square.now.rows) }
    ensures at_most { result ≤ 192 * square.now.width }
{
    let mut total = 0;
    for y in 0..square.width() as usize {
        total += row_dark_count(square, y);
    }
    total
}

/// Returns the number of light modules in a line, without its first module.
pub(crate) fn light_count<R: PackedRow>(line: R, width: u32) -> u32
    requires at_least { 7 ≤ width }
    requires room { width + 3 ≤ R.room }
    ensures value { result ≡ light_count width (is_set (R.bits line)) }
    ensures at_most { result ≤ 192 }
{
    R::first(width - 1).without(line.down(1)).count_ones()
}
