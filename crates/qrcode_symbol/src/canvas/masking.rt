//! Chooses the mask. Packs the modules into rows once, tries each mask on the rows, and writes the
//! colours under the best one.

ghost use Rattle.std.specs.Prelude.{◌≡◌, ◌+◌, ◌*◌, ◌<◌, ◌≤◌, ◌^◌, length, IsTrue, IfOk, IsOkUnless};
ghost use Rattle.qrcode_types.specs.Versions.{has_level, side};
ghost use Rattle.qrcode_types.specs.declared.types.QrError.TheVariants.{OutOfMemory};
ghost use Rattle.qrcode_layout.specs.Masks.{mask_count};
ghost use Rattle.qrcode_symbol.specs.Masking.{nth_cost, IsFirstLeastCost, AreBestColors};

use super::Module;
use super::masked_rows::mask_rows;
use super::packing::{PackedModules, pack_rows};
use super::penalties::square_penalty;
use super::unpacking::unpack_rows;
use qrcode_layout::masks::{mask_count, nth_mask};
use qrcode_penalty::row::{PackedRow, Row128, Row192};
use qrcode_penalty::square::PackedSquare;
use qrcode_types::types::{Color, EcLevel, QrResult, Version};
use qrcode_types::versions::side;
use std::alloc::Global;

// Returns the penalty under the `k`-th mask; `masked` is scratch space.
fn nth_cost<R: PackedRow>(modules: &PackedModules<'_, R>, k: usize, masked: &mut [R]) -> u32
    requires mask_exists { k < mask_count modules.now.version }
    requires length { length masked.old ≡ modules.now.width }
    ensures value { result ≡ nth_cost modules.now.version modules.now.ec_level modules.now.width
        modules.now.dark.rows modules.now.free.rows k }
    ensures at_most { result < 2 ^ 24 }
{
    mask_rows(modules, nth_mask(modules.version, k), masked);
    let square = PackedSquare::new(masked, modules.width as u32);
    square_penalty(modules.version, &square)
}

// Returns the number of the first mask with the lowest penalty; `masked` is scratch space.
fn least_mask<R: PackedRow>(modules: &PackedModules<'_, R>, masked: &mut [R]) -> usize
    requires { length masked.old ≡ modules.now.width }
    ensures { IsFirstLeastCost
        (nth_cost modules.now.version modules.now.ec_level modules.now.width
        modules.now.dark.rows modules.now.free.rows)
        (mask_count modules.now.version) result }
{
    let mut best = 0;
    let mut least = u32::MAX;
    for k in 0..mask_count(modules.version) {
        let cost = nth_cost(modules, k, masked);
        if cost < least {
            best = k;
            least = cost;
        }
    }
    best
}

// Returns the colours under the first mask with the lowest penalty, with rows of type `R`. Frees
// the modules before it writes the colours.
fn best_by<R: PackedRow>(
    alloc: Global,
    version: Version,
    ec_level: EcLevel,
    modules: Vec<Module>,
) -> QrResult<Vec<Color>>
    requires exists { IsTrue (has_level version ec_level) }
    requires room { side version + 3 ≤ R.room }
    requires square { length modules.items ≡ side version * side version }
    ensures best { IfOk result (λ colors.
        AreBestColors version ec_level modules.items colors.items) }
    ensures memory { IsOkUnless result OutOfMemory }
{
    let width = side(version);
    let mut dark = vec![in alloc; R::first(0); width]?;
    let mut free = vec![in alloc; R::first(0); width]?;
    pack_rows(width, &modules, &mut dark, &mut free);
    drop(modules);
    let packed = PackedModules {
        version,
        ec_level,
        width,
        dark: PackedSquare::new(&dark, width as u32),
        free: PackedSquare::new(&free, width as u32),
    };
    let mut masked = vec![in alloc; R::first(0); width]?;
    let best = least_mask(&packed, &mut masked);
    mask_rows(&packed, nth_mask(version, best), &mut masked);
    let mut colors = Vec::with_capacity(alloc, width * width)?;
    unpack_rows(width, &masked, &mut colors)?;
    Ok(colors)
}

/// Returns the colours under the first mask with the lowest penalty, with its format word, in row
/// order. Frees the modules before it writes the colours.
pub(super) fn best_colors(
    alloc: Global,
    version: Version,
    ec_level: EcLevel,
    modules: Vec<Module>,
) -> QrResult<Vec<Color>>
    requires exists { IsTrue (has_level version ec_level) }
    requires square { length modules.items ≡ side version * side version }
    ensures best { IfOk result (λ colors.
        AreBestColors version ec_level modules.items colors.items) }
    ensures memory { IsOkUnless result OutOfMemory }
{
    let width = side(version);
    if width + 3 <= 64 {
        return best_by::<u64>(alloc, version, ec_level, modules);
    }
    if width + 3 <= 128 {
        return best_by::<Row128>(alloc, version, ec_level, modules);
    }
    best_by::<Row192>(alloc, version, ec_level, modules)
}
