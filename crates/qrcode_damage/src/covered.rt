//! Makes an area of a symbol light.

ghost use Rattle.std.specs.Prelude.{◌≡◌, ◌≢◌, ◌*◌, ◌<◌, ℕ, Bool, List, length, IsTrue, IfOk, IfErr, OnOk, IsOkUnless};
ghost use Rattle.qrcode_types.specs.Versions.{is_valid, side};
ghost use Rattle.qrcode_types.specs.declared.types.Color.{Color};
ghost use Rattle.qrcode_symbol.specs.Reading.{ReadsBitsOnly};
ghost use Rattle.qrcode.specs.Reading.{EncodesBits, EncodesBytes, ReadsOnly};
ghost use Rattle.qrcode_damage.specs.Areas.{covers, MayShowAnything, AgreesOutside};
ghost use Rattle.qrcode_damage.specs.Covered.{light_if, IsLightInside};
ghost use Rattle.qrcode_damage.specs.Refusals.{IsExcess};
ghost use Rattle.qrcode_damage.specs.declared.excess.Excess.TheVariants.{OutOfMemory};

use crate::areas::Area;
use crate::excess::Excess;
use crate::reserve::reserve_of;
use qrcode::QrCode;
use qrcode_types::types::{Color, Version};
use qrcode_types::versions::side;
use std::alloc::{AllocError, Global};

// Returns light if the area covers the module, else its colour.
fn covered_color(area: &Area<'_>, x: usize, y: usize, color: Color) -> Color
    ensures { result ≡ light_if (covers area.now x y) color }
{
    if area.has(x, y) { Color::Light } else { color }
}

/// Copies the modules of a symbol, row by row, and makes those in `area` light, whether or not it
/// then still decodes. `with_area` checks that.
///
/// Errors: only `AllocError`.
pub fn lightened(
    alloc: Global,
    version: Version,
    modules: &[Color],
    area: &Area<'_>,
) -> Result<Vec<Color>, AllocError>
    requires valid { IsTrue (is_valid version) }
    requires square { length modules.now ≡ side version * side version }
    ensures agrees { IfOk result (λ colors. AgreesOutside version (covers area.now)
        modules.now colors.items) }
    ensures light { IfOk result (λ colors. IsLightInside version (covers area.now)
        colors.items) }
{
    let width = side(version);
    let mut colors = Vec::new(alloc);
    for i in 0..modules.len() {
        colors.push(covered_color(area, i % width, i / width, modules[i]))?;
    }
    Ok(colors)
}

/// Copies the modules of `code`, row by row, and makes those in `area` light, if the symbol decodes
/// whatever is then drawn there.
///
/// Errors: `Block`, `FirstFormat` or `LastFormat` if the area covers too much; `OutOfMemory` if
/// memory runs out.
pub fn with_area(alloc: Global, code: &QrCode, area: &Area<'_>) -> Result<Vec<Color>, Excess>
    ensures agrees { IfOk result (λ colors. AgreesOutside code.now.version (covers area.now)
        code.now.modules colors.items) }
    ensures light { IfOk result (λ colors. IsLightInside code.now.version (covers area.now)
        colors.items) }
    ensures may { OnOk result (MayShowAnything code.now.version code.now.level (covers area.now)) }
    ensures accepts { MayShowAnything code.now.version code.now.level (covers area.now)
        → IsOkUnless result OutOfMemory }
    ensures causes { IfErr result (λ error. error ≢ OutOfMemory
        → IsExcess code.now.version code.now.level (covers area.now) error) }

    // Whatever the area shows, a square that agrees outside it decodes to the bytes and no others.
    ensures read { IfOk result (λ colors. (bits : List Bool) (bytes : List ℕ) (other : List Color)
        → EncodesBytes code.now.version code.now.level bits bytes code.now.modules
        → AgreesOutside code.now.version (covers area.now) colors.items other
        → ReadsOnly other bytes) }

    // So it does to the bits, which may hold headers too.
    ensures read_bits { IfOk result (λ colors. (bits : List Bool) (other : List Color)
        → EncodesBits code.now.version code.now.level bits code.now.modules
        → AgreesOutside code.now.version (covers area.now) colors.items other
        → ReadsBitsOnly other code.now.version code.now.level bits) }
{
    // Its contract says that the modules are a square.
    let _width = code.width();
    match reserve_of(alloc, code, area)?.excess() {
        Some(excess) => Err(excess),
        None => Ok(lightened(alloc, code.version(), code.colors(), area)?),
    }
}
