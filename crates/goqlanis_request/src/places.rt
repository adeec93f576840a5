//! Where an area of modules is in a drawing.

ghost use Rattle.std.specs.Prelude.{◌≡◌, ◌↔◌, ◌+◌, ◌*◌, ◌^◌, ◌<◌, ◌≤◌, IsTrue, IfNone, IfSome};
ghost use Rattle.qrcode_types.specs.Versions.{side};
ghost use Rattle.qrcode_sheets.specs.Places.{HasPixels};
ghost use Rattle.goqlanis_request.specs.Places.{place_at, place_in, HasRoom};

use crate::drawing::{quiet_zone, unit};
use crate::request::Request;
use qrcode::QrCode;
use qrcode_damage::areas::Rectangle;
use qrcode_sheets::Region;

/// Returns where `area` less `margin` modules on each side is in the drawing, in the units that
/// overlays are placed in. Returns `None` if no module is left, or `area` is not inside the symbol.
pub fn place_in(request: &Request<'_>, code: &QrCode, area: Rectangle, margin: u8) -> Option<Region>
    ensures value { IfSome result (λ place.
        place ≡ place_in request.now code.now.version area margin) }
    ensures none { IfNone result (¬ HasRoom (side code.now.version) area margin) }
    ensures pixels { IfSome result HasPixels }
{
    let (zone, unit) = (quiet_zone(request, code), unit(request, code));
    place_at(code.width(), zone, unit, area, margin)
}

/// Returns where `area` less `margin` modules on each side is in a drawing of `side` by `side`
/// modules of `unit` pixels, with a quiet zone of `zone` modules. Returns `None` if no module is
/// left, or `area` is not inside the symbol.
pub fn place_at(side: usize, zone: u32, unit: u32, area: Rectangle, margin: u8) -> Option<Region>
    requires some { 1 ≤ unit }
    requires few { side + zone < 2 ^ 16 }
    requires fits { (side + zone) * unit < 2 ^ 32 }
    ensures value { IfSome result (λ place. place ≡ place_at zone unit area margin) }
    ensures room { IfSome result (λ _. HasRoom side area margin) }
    ensures none { IfNone result (¬ HasRoom side area margin) }
    ensures pixels { IfSome result HasPixels }
{
    let both = 2 * margin as usize;
    if !is_within(side, area.left, area.width) || !is_within(side, area.top, area.height) {
        return None;
    }
    if area.width <= both || area.height <= both {
        return None;
    }
    Some(Region {
        left: (zone + area.left as u32 + margin as u32) * unit,
        top: (zone + area.top as u32 + margin as u32) * unit,
        width: (area.width - both) as u32 * unit,
        height: (area.height - both) as u32 * unit,
    })
}

// Whether `count` modules from `start` on are within `side`.
fn is_within(side: usize, start: usize, count: usize) -> bool
    ensures { IsTrue result ↔ (start + count ≤ side) }
{
    count <= side && start <= side - count
}
