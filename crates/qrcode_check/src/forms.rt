//! Penalties by other readings of the standard, whose words leave open what looks like a finder
//! pattern.

ghost use Rattle.std.specs.Prelude.{◌≡◌, ◌+◌, ◌*◌, ◌<◌, ◌≤◌, length, IsTrue, IfOk};
ghost use Rattle.qrcode_types.specs.Versions.{is_valid, side};
ghost use Rattle.qrcode_penalty.specs.Penalty.{is_finder_like};
ghost use Rattle.qrcode_check.specs.Forms.{are_light, counts_at, dark_on_line, forms, has_short_ends, is_light, line_forms, read_penalty, reading, row_forms, square_row};
ghost use Rattle.qrcode_check.specs.Masks.{stepped_penalty};

use qrcode_reader::{Position, seen};
use qrcode_types::types::{Color, Version};
use qrcode_types::versions::side;
use std::alloc::{AllocError, Global};

/// A reading of the standard's words on what looks like a finder pattern: dark, light, three dark,
/// light, dark, with four light places before or after it.
#[derive(Copy, Clone, PartialEq, Eq, Debug)]
pub struct FormReading {
    /// Whether places outside the symbol count as light.
    pub light_outside: bool,
    /// Whether the first and the last dark run may be longer than one module.
    pub long_runs: bool,
}

/// Makes a reading.
pub fn reading(light_outside: bool, long_runs: bool) -> FormReading
    ensures { result ≡ reading light_outside long_runs }
{
    FormReading {
        light_outside,
        long_runs,
    }
}

// Whether place `i` of a line is dark.
fn is_dark(line: &[Color], i: usize) -> bool
    ensures { result ≡ dark_on_line line.now i }
{
    matches!(line.get(i), Some(Color::Dark))
}

// Whether place `k`, counted from four places before the line, is light.
fn is_light(reading: FormReading, line: &[Color], k: usize) -> bool
    requires { length line.now ≤ 1000 }
    ensures { result ≡ is_light reading line.now k }
{
    if k < 4 || line.len() + 4 <= k {
        return reading.light_outside;
    }
    !is_dark(line, k - 4)
}

// Whether place `k`, counted so, and the next three are light.
fn are_light(reading: FormReading, line: &[Color], k: usize) -> bool
    requires short { length line.now ≤ 1000 }
    requires inside { k ≤ 2000 }
    ensures { result ≡ are_light reading line.now k }
{
    is_light(reading, line, k)
        && is_light(reading, line, k + 1)
        && is_light(reading, line, k + 2)
        && is_light(reading, line, k + 3)
}

// Whether a form begins at place `i`.
#[tactic(auto, unfolding(qrcode_penalty::specs::Penalty::is_finder_like))]
fn is_form(line: &[Color], i: usize) -> bool
    requires { i ≤ 1000 }
    ensures { result ≡ is_finder_like (dark_on_line line.now) i }
{
    is_dark(line, i)
        && !is_dark(line, i + 1)
        && is_dark(line, i + 2)
        && is_dark(line, i + 3)
        && is_dark(line, i + 4)
        && !is_dark(line, i + 5)
        && is_dark(line, i + 6)
}

// Whether the first and the last dark run of a form at place `i` have one module.
fn has_short_ends(line: &[Color], i: usize) -> bool
    requires { i ≤ 1000 }
    ensures { result ≡ has_short_ends line.now i }
{
    (i == 0 || !is_dark(line, i - 1)) && !is_dark(line, i + 7)
}

// Whether a form at place `i` counts.
fn counts_at(reading: FormReading, line: &[Color], i: usize) -> bool
    requires short { length line.now ≤ 1000 }
    requires inside { i ≤ 1000 }
    ensures { result ≡ counts_at reading line.now i }
{
    is_form(line, i)
        && (are_light(reading, line, i) || are_light(reading, line, i + 11))
        && (reading.long_runs || has_short_ends(line, i))
}

// The penalty of the forms in a line.
#[tactic(auto, using(qrcode_penalty::proofs::Sums::sum_step), unfolding(qrcode_penalty::specs::Penalty::sum_below, crate::specs::Forms::line_forms))]
fn line_forms(reading: FormReading, line: &[Color]) -> usize
    requires { length line.now ≤ 177 }
    ensures value { result ≡ line_forms reading line.now }
    ensures at_most { result ≤ 7080 }
{
    let mut penalty = 0;
    for i in 0..line.len().saturating_sub(6) {
        if counts_at(reading, line, i) {
            penalty += 40;
        }
    }
    penalty
}

// A row of a square.
fn row(width: usize, modules: &[Color], y: usize) -> &[Color]
    requires square { length modules.now ≡ width * width }
    requires width { width ≤ 177 }
    requires inside { y < width }
    ensures { result.now ≡ square_row width modules.now y }
{
    let (_, rest) = modules.split_at(y * width);
    rest.split_at(width).0
}

// The penalty of the forms in all rows.
#[tactic(auto, using(qrcode_penalty::proofs::Sums::sum_step), unfolding(qrcode_penalty::specs::Penalty::sum_below, crate::specs::Forms::row_forms))]
fn row_forms(reading: FormReading, width: usize, modules: &[Color]) -> usize
    requires square { length modules.now ≡ width * width }
    requires width { width ≤ 177 }
    ensures value { result ≡ row_forms reading width modules.now }
    ensures at_most { result ≤ 1253160 }
{
    let mut penalty = 0;
    for y in 0..width {
        penalty += line_forms(reading, row(width, modules, y));
    }
    penalty
}

/// Returns the standard's penalty by this reading. `stepped` is that by the reading of `QrCode`,
/// with the balance in steps.
///
/// Errors: only `AllocError`, if memory runs out.
pub fn read_penalty(
    alloc: Global,
    by: FormReading,
    version: Version,
    modules: &[Color],
    stepped: usize,
) -> Result<usize, AllocError>
    requires valid { IsTrue (is_valid version) }
    requires square { length modules.now ≡ side version * side version }
    requires stepped { stepped ≡ stepped_penalty version modules.now }
    requires at_most { stepped ≤ 1000000000 }
    ensures { IfOk result (λ penalty. penalty ≡ read_penalty by version modules.now) }
{
    if version.is_micro() {
        return Ok(stepped);
    }
    let own = reading(true, true);
    let width = side(version);
    let columns = seen(alloc, width, Position::Transposed, false, modules)?;
    let counted = row_forms(own, width, modules) + row_forms(own, width, &columns);
    let read = row_forms(by, width, modules) + row_forms(by, width, &columns);
    Ok(stepped.saturating_sub(counted) + read)
}
