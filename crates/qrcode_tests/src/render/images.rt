//! Tests of images of pixels, and of which sizes fit.

ghost use Rattle.std.specs.Prelude.{◌≡◌, ◌*◌, ◌≤◌, length};

use crate::common::check_row;
use crate::render::drawings::{DIAGONAL, MICRO_2, NORMAL_1, modules};
use crate::render::pictures::Colors::{Both, Usual};
use crate::render::pictures::Size::{AtLeast, AtMost, Default, Of};
use crate::render::pictures::Zone::On;
use crate::render::pictures::{Pixels, Row, paints};
use qrcode_render::image::{Channels, Luma, LumaA, Rgb, Rgba};
use qrcode_render::{Pixel, Renderer, svg};
use qrcode_types::types::{Color, QrResult};
use std::alloc::Global;

#[rattlefmt::skip]
static GREYS: [Row<Luma, Pixels>; 4] = [
    Row(DIAGONAL, On(1), Usual, AtMost(10, 5), Pixels((8, 4), 32, &[
        255, 255, 255, 255, 255, 255, 255, 255,
        255, 255, 0, 0, 255, 255, 255, 255,
        255, 255, 255, 255, 0, 0, 255, 255,
        255, 255, 255, 255, 255, 255, 255, 255,
    ])),
    Row(DIAGONAL, On(1), Usual, AtLeast(7, 7), Pixels((8, 8), 64, &[255])),
    Row(DIAGONAL, On(1), Usual, AtLeast(10, 10), Pixels((12, 12), 144, &[
        255, 255, 255, 255, 255, 255, 255, 255, 255, 255, 255, 255,
        255, 255, 255, 255, 255, 255, 255, 255, 255, 255, 255, 255,
        255, 255, 255, 255, 255, 255, 255, 255, 255, 255, 255, 255,
        255, 255, 255, 0, 0, 0, 255, 255, 255, 255, 255, 255,
    ])),
    Row(NORMAL_1, On(4), Usual, Default, Pixels((232, 232), 53824, &[255])),
];

#[rattlefmt::skip]
static COLORS: [Row<Rgb, Pixels>; 2] = [
    Row(DIAGONAL, On(0), Both(Rgb([1, 2, 3]), Rgb([4, 5, 6])), Of(1, 1), Pixels((2, 2), 12, &[
        1, 2, 3, 4, 5, 6, 4, 5, 6, 1, 2, 3,
    ])),
    Row(MICRO_2, On(2), Usual, AtLeast(200, 200), Pixels((204, 204), 124_848, &[255])),
];

#[test]
fn pixels_are_painted(rt: HostRuntime) {
    paints(&rt, rt.alloc(), &GREYS);
    paints(&rt, rt.alloc(), &COLORS);
}

// Whether a pixel has exactly these channels.
fn has<P: Channels>(pixel: P, expected: &[u8]) -> bool {
    let mut are_same = P::count() == expected.len() && pixel.channels() == expected;
    for (i, byte) in expected.iter().enumerate() {
        are_same = are_same && i < P::count() && pixel.channel(i) == *byte;
    }
    are_same
}

#[test]
fn has_channels(rt: HostRuntime) {
    let dark = LumaA::default_color(Color::Dark);
    assert!(rt; dark == LumaA([0, 255]));
    assert!(rt; has(dark, &[0, 255]));
    assert!(rt; has(Luma([7]), &[7]));
    assert!(rt; has(Rgb::default_color(Color::Light), &[255, 255, 255]));
    assert!(rt; has(Rgba([1, 2, 3, 4]), &[1, 2, 3, 4]));
}

// The side of an all-dark square, its quiet zone, the width and height of a module in pixels, and
// whether the picture fits.
static FITTING: [(u8, u32, u32, u32, bool); 8] = [
    (1, 0, u32::MAX, u32::MAX, true),
    (1, 2147483647, 0, 1, true),
    (1, 2147483647, 1, 1, true),
    (1, 2147483647, 1, 2, false),
    (1, 2147483647, 2, 2, false),
    (1, 2147483648, 1, 1, false),
    (177, 0, 24265351, 1, true),
    (177, 0, 24265352, 1, false),
];

#[test]
fn fits_up_to_the_greatest_side(rt: HostRuntime) {
    for (i, (side, zone, width, height, fits)) in FITTING.iter().enumerate() {
        let side = usize::from(*side);
        let dark = Vec::from_elem(rt.alloc(), Color::Dark, side * side).expect(&rt, "memory");
        assert!(rt; dark.len() == side * side);
        let mut renderer = Renderer::<Luma>::new(&dark, side, *zone);
        renderer.module_dimensions(*width, *height);
        check_row(&rt, i, renderer.fits() == *fits);
    }
}

// Draws at least `pixels` across and down, in a quiet zone of `zone` modules: a caller that needs no
// proof.
fn framed(alloc: Global, symbol: &[Color], side: usize, zone: u32, pixels: u32) -> QrResult<String>
    requires square { length symbol.now ≡ side * side }
    requires at_least { 1 ≤ side }
    requires at_most { side ≤ 177 }
    requires zone { zone ≤ 4096 }
    requires pixels { pixels ≤ 4096 }
{
    Renderer::<svg::Color>::new(symbol, side, 4)
        .quiet_zone_modules(zone)
        .min_dimensions(pixels, pixels)
        .build(alloc)
}

#[test]
fn callers_need_no_proof(rt: HostRuntime) {
    let alloc = rt.alloc();
    let symbol = modules(alloc, MICRO_2.1).expect(&rt, "modules");
    assert!(rt; symbol.len() == 169);
    let text = framed(alloc, &symbol, 13, 10, 200).expect(&rt, "a text");
    assert!(rt; text.contains("viewBox=\"0 0 231 231\""));
}
