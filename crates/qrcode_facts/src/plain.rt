//! Calls like those in docs/CALLING.md and docs/DRAWING.md, in functions without contracts. All
//! data is fixed and fits, so each call fails only with `OutOfMemory`.

use qrcode::bits::Bits;
use qrcode::render::image::{ImageBuffer, Luma, Rgb};
use qrcode::render::svg;
use qrcode::types::QrResult;
use qrcode::{EcLevel, QrCode, Version};
use std::alloc::Global;

/// Encodes bits written manually, with an ECI designator before the bytes.
///
/// Errors: only `OutOfMemory`.
pub fn greek(alloc: Global) -> QrResult<QrCode> {
    let mut bits = Bits::new(alloc, Version::Normal(1));
    bits.push_eci_designator(9)?;
    bits.push_byte_data(b"\xca\xfe\xe4\xe9\xea\xe1\xf2 QR")?;
    bits.push_terminator(EcLevel::L)?;
    QrCode::with_bits(alloc, bits, EcLevel::L)
}

/// Draws dark red on light yellow, at least 200 pixels wide.
///
/// Errors: only `OutOfMemory`.
pub fn colors(alloc: Global) -> QrResult<ImageBuffer<Rgb>> {
    let code = QrCode::new(alloc, b"01234567")?;
    code.render()
        .dark_color(Rgb([128, 0, 0]))
        .light_color(Rgb([255, 255, 128]))
        .min_width(200)
        .build(alloc)
}

/// Draws modules of 4,096 pixels a side, without a quiet zone.
///
/// Errors: only `OutOfMemory`.
pub fn wide(alloc: Global) -> QrResult<ImageBuffer<Luma>> {
    let code = QrCode::new(alloc, b"01234567")?;
    code.render::<Luma>()
        .quiet_zone(false)
        .module_dimensions(4096, 4096)
        .build(alloc)
}

/// Draws SVG of at most 300 by 300 pixels, setting the colours after the size.
///
/// Errors: only `OutOfMemory`.
pub fn within(alloc: Global) -> QrResult<String> {
    let code = QrCode::new(alloc, b"01234567")?;
    code.render()
        .max_dimensions(300, 300)
        .dark_color(svg::Color("#008"))
        .light_color(svg::Color("none"))
        .build(alloc)
}
