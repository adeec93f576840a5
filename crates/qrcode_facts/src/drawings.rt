//! Six ways to draw a symbol: characters, pairs of characters, half blocks, SVG, PIC and PGM.

ghost use Rattle.std.specs.Prelude.{◌≡◌, string_bytes, IfOk, IsOkUnless};
ghost use Rattle.qrcode_types.specs.declared.types.QrError.TheVariants.{OutOfMemory};
ghost use Rattle.qrcode_facts.specs.Drawings.{char_text, pair_text, half_block_text, svg_text, pic_text, grey_map};

use qrcode::QrCode;
use qrcode::render::image::Luma;
use qrcode::render::string::Str;
use qrcode::render::unicode::Dense1x2;
use qrcode::render::{pic, svg};
use qrcode::types::QrResult;
use std::alloc::Global;

/// Draws `code` with one character per module: `█` for dark, a space for light.
///
/// Errors: only `OutOfMemory`.
pub fn as_chars(alloc: Global, code: &QrCode) -> QrResult<String>
    ensures drawing { IfOk result (λ text.
        string_bytes text ≡ char_text code.now.version code.now.modules) }
    ensures memory { IsOkUnless result OutOfMemory }
{
    code.render::<char>().build(alloc)
}

/// Draws `code` with two characters per module, so that it looks about square: `##` for dark, two
/// spaces for light.
///
/// Errors: only `OutOfMemory`.
pub fn as_pairs(alloc: Global, code: &QrCode) -> QrResult<String>
    ensures drawing { IfOk result (λ text.
        string_bytes text ≡ pair_text code.now.version code.now.modules) }
    ensures memory { IsOkUnless result OutOfMemory }
{
    let mut renderer = code.render();
    renderer.dark_color(Str("##"));
    renderer.light_color(Str("  "));
    renderer.build(alloc)
}

/// Draws `code` with one character per two modules, one above the other.
///
/// Errors: only `OutOfMemory`.
pub fn as_half_blocks(alloc: Global, code: &QrCode) -> QrResult<String>
    ensures drawing { IfOk result (λ text.
        string_bytes text ≡ half_block_text code.now.version code.now.modules) }
    ensures memory { IsOkUnless result OutOfMemory }
{
    code.render::<Dense1x2>().build(alloc)
}

/// Draws `code` as SVG, black on white, with 8 pixels per module.
///
/// Errors: only `OutOfMemory`.
pub fn as_svg(alloc: Global, code: &QrCode) -> QrResult<String>
    ensures drawing { IfOk result (λ text.
        string_bytes text ≡ svg_text 8 code.now.version code.now.modules) }
    ensures memory { IsOkUnless result OutOfMemory }
{
    code.render::<svg::Color>().build(alloc)
}

/// Draws `code` as PIC, one unit per module.
///
/// Errors: only `OutOfMemory`.
pub fn as_pic(alloc: Global, code: &QrCode) -> QrResult<String>
    ensures drawing { IfOk result (λ text.
        string_bytes text ≡ pic_text code.now.version code.now.modules) }
    ensures memory { IsOkUnless result OutOfMemory }
{
    code.render::<pic::Color>().module_size(1).build(alloc)
}

/// Draws `code` as a binary PGM file, with 8 pixels per module.
///
/// Errors: only `OutOfMemory`.
pub fn as_grey_map(alloc: Global, code: &QrCode) -> QrResult<Vec<u8>>
    ensures drawing { IfOk result (λ file.
        file.items ≡ grey_map code.now.version code.now.modules) }
    ensures memory { IsOkUnless result OutOfMemory }
{
    let image = code.render::<Luma>().build(alloc)?;
    let (width, height) = image.dimensions();
    let mut file = format!(in alloc; "P5\n{width} {height}\n255\n")?.into_bytes();
    file.extend_from_slice(&image.into_raw())?;
    Ok(file)
}
