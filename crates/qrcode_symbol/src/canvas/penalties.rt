//! The penalty of a finished symbol.

ghost use Rattle.std.specs.Prelude.{◌≡◌, ℕ, ◌*◌, ◌<◌, ◌^◌, Bool, length, map, IsTrue, IfOk};
ghost use Rattle.qrcode_types.specs.Versions.{is_valid, side};
ghost use Rattle.qrcode_penalty.specs.Rows.{inside, Shows};
ghost use Rattle.qrcode_symbol.specs.Penalties.{penalty, penalty_of};
ghost use Rattle.qrcode_symbol.specs.declared.canvas.Module.TheVariants.{Masked};

use super::Module;
use super::packing::pack_rows;
use qrcode_penalty::penalty::{micro_penalty, normal_penalty};
use qrcode_penalty::row::{PackedRow, Row192};
use qrcode_penalty::square::PackedSquare;
use qrcode_types::types::{Color, Version};
use qrcode_types::versions::side;
use std::alloc::{AllocError, Global};

/// Returns colours as modules that no mask reverses.
///
/// Errors: only `AllocError`, if memory runs out.
pub(super) fn finished(alloc: Global, colors: &[Color]) -> Result<Vec<Module>, AllocError>
    ensures { IfOk result (λ modules. modules.items ≡ map Masked colors.now) }
{
    colors.iter().map(|c| Module::Masked(*c)).collect(alloc)
}

/// Returns the penalty of a packed square of this version.
pub(super) fn square_penalty<R: PackedRow>(version: Version, square: &PackedSquare<'_, R>) -> u32
    requires { square.now.width ≡ side version }
    ensures shown { (dark : ℕ → ℕ → Bool) → Shows square.now.width square.now.rows dark
        → result ≡ penalty_of version (inside square.now.width dark) }
    ensures at_most { result < 2 ^ 24 }
{
    if version.is_micro() {
        return micro_penalty(square);
    }
    normal_penalty(square)
}

/// Returns the penalty of a symbol's colours, row by row (ISO/IEC 18004:2006, 6.8.3), by which its
/// mask is chosen.
///
/// Errors: only `AllocError`, if memory runs out.
pub fn penalty(alloc: Global, version: Version, colors: &[Color]) -> Result<u32, AllocError>
    requires valid { IsTrue (is_valid version) }
    requires square { length colors.now ≡ side version * side version }
    ensures value { IfOk result (λ number. number ≡ penalty version colors.now) }
    ensures at_most { IfOk result (λ number. number < 2 ^ 24) }
{
    let width = side(version);
    let modules = finished(alloc, colors)?;
    let mut dark = vec![in alloc; Row192::first(0); width]?;
    let mut free = vec![in alloc; Row192::first(0); width]?;
    pack_rows(width, &modules, &mut dark, &mut free);
    let square = PackedSquare::new(&dark, width as u32);
    Ok(square_penalty(version, &square))
}
