//! Finds out which modules of data and error correction an area covers, in their zigzag order.

ghost use Rattle.std.specs.Prelude.{◌≡◌, ◌-◌, ◌*◌, ◌<◌, ◌++◌, IsTrue, OnOk, IfOk};
ghost use Rattle.qrcode_types.specs.Versions.{is_valid, side};
ghost use Rattle.qrcode_layout.specs.Patterns.{is_functional_place};
ghost use Rattle.qrcode_layout.specs.Stream.{zigzag_place};
ghost use Rattle.qrcode_damage.specs.Areas.{covers, marks};
ghost use Rattle.qrcode_damage.specs.Counting.{mark_at};

use crate::areas::Area;
use qrcode_layout::walk::right_column;
use qrcode_symbol::canvas;
use qrcode_types::types::Version;
use qrcode_types::versions::side;
use std::alloc::{AllocError, Global};

// Returns the place at step `t` of the zigzag: column and row.
fn place(version: Version, t: usize) -> (usize, usize)
    requires valid { IsTrue (is_valid version) }
    requires inside { t < side version * (side version - 1) }
    ensures value { result ≡ zigzag_place version t }
    ensures column { result.0 < side version }
    ensures row { result.1 < side version }
{
    let width = side(version);
    let pair = t / (2 * width);
    let step = t % (2 * width);
    let column = right_column(version, width, pair) - step % 2;
    let row = if pair % 2 == 0 {
        width - 1 - step / 2
    } else {
        step / 2
    };
    (column, row)
}

/// Returns whether the module in column `x` and row `y` belongs to a function pattern, to the
/// format information or to the version information.
pub fn is_functional(version: Version, x: usize, y: usize) -> bool
    requires valid { IsTrue (is_valid version) }
    requires column { x < side version }
    requires row { y < side version }
    ensures { result ≡ is_functional_place version x y }
{
    canvas::is_functional(version, side(version) as i16, x as i16, y as i16)
}

// Appends whether the area covers a module, unless the module is functional.
fn push_mark(
    marks: &mut Vec<bool>,
    version: Version,
    area: &Area<'_>,
    x: usize,
    y: usize,
) -> Result<(), AllocError>
    requires valid { IsTrue (is_valid version) }
    requires column { x < side version }
    requires row { y < side version }
    ensures { OnOk result (marks.new.items
        ≡ marks.old.items ++ mark_at version (covers area.now) (x, y)) }
{
    if !is_functional(version, x, y) {
        marks.push(area.has(x, y))?;
    }
    Ok(())
}

/// Returns for each module of data or error correction, in zigzag order, whether the area covers
/// it.
///
/// Errors: only `AllocError`.
pub fn marks(alloc: Global, version: Version, area: &Area<'_>) -> Result<Vec<bool>, AllocError>
    requires { IsTrue (is_valid version) }
    ensures { IfOk result (λ found. found.items ≡ marks version (covers area.now)) }
{
    let width = side(version);
    let mut found = Vec::new(alloc);
    for t in 0..width * (width - 1) {
        let (x, y) = place(version, t);
        push_mark(&mut found, version, area, x, y)?;
    }
    Ok(found)
}
