//! Calls that tell the sizes and patterns of versions.

ghost use Rattle.std.specs.Prelude.{◌≡◌, ◌&&◌, nat_lt, false, None, IfSome};
ghost use Rattle.qrcode_types.specs.Versions.{side};
ghost use Rattle.qrcode_layout.specs.Patterns.{is_functional_place};
ghost use Rattle.goqlanis_buffers.specs.Names.{version_named};

use goqlanis_buffers::names::version_named;
use qrcode::canvas;

/// Returns how many modules a side of the version of this number has: 1 to 40 are Normal, 41 to 44
/// Micro. 0 if there is no such version.
#[unsafe(no_mangle)]
pub extern "C" fn goq_width(version: u32) -> u32
    ensures value { IfSome (version_named version) (λ v. result ≡ side v) }
    ensures none { version_named version ≡ None → result ≡ 0 }
{
    match version_named(version) {
        Some(version) => version.width() as u32,
        None => 0,
    }
}

/// Returns whether the module in column `x` and row `y` of the version of this number belongs to a
/// pattern or to format information. `false` if there is no such version or module.
#[unsafe(no_mangle)]
pub extern "C" fn goq_is_functional(version: u32, x: u32, y: u32) -> bool
    ensures place { IfSome (version_named version) (λ v. result
        ≡ nat_lt x (side v) && nat_lt y (side v) && is_functional_place v x y) }
    ensures none { version_named version ≡ None → result ≡ false }
{
    match version_named(version) {
        Some(version) => {
            let width = version.width();
            x < width as u32
                && y < width as u32
                && canvas::is_functional(version, width, x as i16, y as i16)
        }
        None => false,
    }
}
