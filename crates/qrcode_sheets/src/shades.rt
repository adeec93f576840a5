//! Draws PNG files in full colour: parts in their own colours, and a picture in the middle.

ghost use Rattle.std.specs.Prelude.{◌≡◌, ◌*◌, ◌<◌, [], length, map, slice_index_or, Some, IfOk, IsOkUnless};
ghost use Rattle.qrcode_types.specs.Colors.{select_of};
ghost use Rattle.qrcode_types.specs.declared.types.QrError.TheVariants.{OutOfMemory};
ghost use Rattle.qrcode_png.specs.Image.{image_of, rgba};
ghost use Rattle.qrcode_render.specs.Layout.{pixels_across};
ghost use Rattle.qrcode_sheets.specs.Layers.{module_bytes, module_shade, pixel_in, pixel_shades, painted};
ghost use Rattle.qrcode_sheets.specs.Sheets.{dark_shade, light_shade, shade_bytes, sheet_of};

use crate::layers::is_painted;
use crate::pasting::with_inset;
use crate::render::{per_metre, png_ink};
use crate::sheet::Sheet;
use qrcode_png::full_color;
use qrcode_types::types::{Color, QrError, QrResult};
use std::alloc::{AllocError, Global};

/// The maximum pixels along a side of a PNG file with colours of parts or a picture in the middle,
/// since each takes four bytes of memory.
pub const GREATEST_PAINTED: u32 = 8_192;

/// Draws a sheet as a PNG file, with colours of parts and its picture.
///
/// Errors: only `OutOfMemory`, if memory runs out, or if there would be no pixel or more than
/// `GREATEST_PAINTED` along a side; that is tested before memory for pixels is requested.
pub(crate) fn png_file(alloc: Global, sheet: &Sheet<'_, '_, '_>) -> QrResult<Vec<u8>>
    ensures shows { IfOk result (λ file.
        image_of file.items ≡ Some (painted (sheet_of sheet.now))) }
    ensures memory { IsOkUnless result OutOfMemory }
{
    let side = (sheet.width + 2 * sheet.zone) * sheet.scale;
    if side == 0 || side > GREATEST_PAINTED {
        return Err(QrError::OutOfMemory);
    }
    let pixels = pixels(alloc, sheet)?;
    let density = sheet.dpi.map(per_metre);
    Ok(full_color(alloc, &pixels, side, side, density)?)
}

// The pixels of a sheet, row by row.
fn pixels(alloc: Global, sheet: &Sheet<'_, '_, '_>) -> Result<Vec<[u8; 4]>, AllocError>
    ensures { IfOk result (λ pixels. map rgba pixels.items ≡ pixel_shades (sheet_of sheet.now)
        (pixels_across (sheet_of sheet.now).at * pixels_across (sheet_of sheet.now).at)) }
{
    let modules = module_colors(alloc, sheet)?;
    let side = (sheet.width as usize + 2 * sheet.zone as usize) * sheet.scale as usize;
    let mut pixels = Vec::with_capacity(alloc, side * side)?;
    for index in 0..side * side {
        let (x, y) = (index % side, index / side);
        let own = pixel(sheet, &modules, x, y);
        pixels.push(with_inset(sheet, x, y, own))?;
    }
    Ok(pixels)
}

// The pixel in column `x` and row `y`, from the colours of the modules alone.
fn pixel(sheet: &Sheet<'_, '_, '_>, modules: &[[u8; 4]], x: usize, y: usize) -> [u8; 4]
    requires { length modules.now ≡ length sheet.now.modules.now }
    ensures { result ≡ pixel_in (sheet_of sheet.now).at (λ i. slice_index_or modules.now i [])
        (shade_bytes (light_shade (sheet_of sheet.now))) x y }
{
    let (zone, width) = (sheet.zone as usize, sheet.width as usize);
    let (column, row) = (x / sheet.scale as usize, y / sheet.scale as usize);
    let is_across = zone <= column && column < zone + width;
    if is_across && zone <= row && row < zone + width {
        modules[(row - zone) * width + (column - zone)]
    } else {
        plain(sheet, Color::Light)
    }
}

// The colours of the modules, row by row.
fn module_colors(alloc: Global, sheet: &Sheet<'_, '_, '_>) -> Result<Vec<[u8; 4]>, AllocError>
    ensures { IfOk result (λ modules. modules.items ≡ module_bytes (sheet_of sheet.now)) }
{
    let mut modules = Vec::with_capacity(alloc, sheet.modules.len())?;
    for index in 0..sheet.modules.len() {
        modules.push(module_color(sheet, index))?;
    }
    Ok(modules)
}

// The colour of the module at `index`: the last of its parts' colours, or the plain one.
#[tactic(auto, using(std::proofs::lemmas::List::Sums::fold_more))]
fn module_color(sheet: &Sheet<'_, '_, '_>, index: usize) -> [u8; 4]
    requires { index < length sheet.now.modules.now }
    ensures { result ≡ shade_bytes (module_shade (sheet_of sheet.now) index) }
{
    let mut color = plain(sheet, sheet.modules[index]);
    for ink in sheet.parts {
        if is_painted(sheet, ink, index) {
            color = png_ink(ink.ink).0;
        }
    }
    color
}

// The plain colour of dark or light modules, exchanged if the sheet is inverted.
fn plain(sheet: &Sheet<'_, '_, '_>, tone: Color) -> [u8; 4]
    ensures { result ≡ shade_bytes (select_of tone (dark_shade (sheet_of sheet.now))
        (light_shade (sheet_of sheet.now))) }
{
    if (tone == Color::Dark) != sheet.is_inverted {
        png_ink(sheet.dark).0
    } else {
        png_ink(sheet.light).0
    }
}
