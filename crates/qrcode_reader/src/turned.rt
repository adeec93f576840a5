//! Which modules a mask flips, by columns.

ghost use Rattle.std.specs.Prelude.{◌≡◌, ℕ, ◌%◌, ◌<◌, ◌≤◌, [], false, slice_index_or, pos};
ghost use Rattle.qrcode_layout.specs.Masks.{turns};

use qrcode_layout::masks::MaskPattern;

// The modules along a side of the largest square.
const LONGEST: usize = 177;

/// Returns a column or row as a signed number.
#[inline(always)]
pub(crate) fn coordinate(x: usize) -> i16
    requires { x < 1000 }
    ensures { result ≡ pos x }
{
    x as i16
}

// Returns which of the first `height` modules of column `x` the mask flips.
fn column(mask: MaskPattern, x: usize, height: usize) -> [bool; LONGEST]
    requires column { x < 1000 }
    requires at_most { height ≤ 177 }
    ensures { (y : ℕ) → y < height → slice_index_or result y false ≡ turns mask x y }
{
    let mut rows = [false; LONGEST];
    for y in 0..height {
        rows[y] = mask.turns(coordinate(x), coordinate(y));
    }
    rows
}

/// The modules that a mask flips, in its first six columns; every mask repeats after six.
#[derive(Drop)]
pub(crate) struct Turned {
    /// The mask.
    pub(crate) mask: MaskPattern,
    /// The number of rows.
    pub(crate) height: usize,
    columns: [[bool; LONGEST]; 6],
    pub(crate) ghost at_most: { height ≤ 177 },
    pub(crate) ghost value: { (x y : ℕ) → y < height
        → slice_index_or (slice_index_or columns (x % 6) []) y false ≡ turns mask x y },
}

impl Turned {
    /// Computes the columns of `mask`, with `height` rows.
    pub(crate) fn new(mask: MaskPattern, height: usize) -> Turned
        requires { height ≤ 177 }
        ensures mask { result.mask ≡ mask }
        ensures height { result.height ≡ height }
    {
        Turned {
            mask,
            height,
            columns: [
                column(mask, 0, height),
                column(mask, 1, height),
                column(mask, 2, height),
                column(mask, 3, height),
                column(mask, 4, height),
                column(mask, 5, height),
            ],
        }
    }

    /// Returns which modules of column `x` the mask flips, by row.
    #[inline(always)]
    pub(crate) fn column(&self, x: usize) -> &[bool; LONGEST]
        ensures { (y : ℕ) → y < self.now.height
            → slice_index_or result.now y false ≡ turns self.now.mask x y }
    {
        &self.columns[x % 6]
    }
}
