//! Draws labels for TSPL printers: a bitmap, in which 0 is black, on a label of its size.

ghost use Rattle.std.specs.Prelude.{◌≡◌, IfOk, IsOkUnless, IsTrue, map};
ghost use Rattle.qrcode_types.specs.declared.types.QrError.TheVariants.{OutOfMemory};
ghost use Rattle.qrcode_render.specs.Setting.{fits, picture_of};
ghost use Rattle.qrcode_sheets.specs.Printers.{tspl_file_at, tspl_head, tspl_head_at, tspl_row, tspl_tail};

use crate::packed::{self, Packing, packed_behind};
use qrcode_render::Renderer;
use qrcode_types::types::QrResult;
use std::alloc::Global;

/// A dot of a label printer. Black dots are printed.
pub type Dot = packed::Dot<Bitmap>;

/// The TSPL format.
#[derive(Copy, Clone)]
pub struct Bitmap;

impl Packing for Bitmap {
    ghost before = { tspl_head };

    ghost row_of = { tspl_row };

    ghost behind = { tspl_tail };

    fn head(alloc: Global, width: u32, height: u32) -> QrResult<Vec<u8>> {
        let bytes = (width as usize + 7) / 8;
        Ok(format!(in alloc;
            "SIZE {width} dot,{height} dot\r\nCLS\r\nBITMAP 0,0,{bytes},{height},0,"
        )?.into_bytes())
    }

    fn row(bytes: Vec<u8>) -> QrResult<Vec<u8>> {
        let mut row = Vec::with_capacity(*bytes.allocator(), bytes.len())?;
        for i in 0..bytes.len() {
            row.push(255 - bytes[i])?;
        }
        Ok(row)
    }

    fn tail() -> &'static [u8] {
        b"\r\nPRINT 1\r\n"
    }
}

/// Draws the label as `build` does, but with the picture `place.0` dots from the left and `place.1`
/// dots from the top. The label ends with the picture.
///
/// Errors: only `OutOfMemory`.
pub fn at_place(alloc: Global, renderer: &Renderer<Dot>, place: (u32, u32)) -> QrResult<Vec<u8>>
    requires fits { IsTrue (fits renderer.now) }
    ensures value { IfOk result (λ file. file.items ≡ tspl_file_at place renderer.now.dark.is_black
        renderer.now.light.is_black (picture_of renderer.now)) }
    ensures memory { IsOkUnless result OutOfMemory }
{
    let (dark, light) = renderer.colors();
    let grid = renderer.grid();
    let (width, height) = grid.pixels();
    let head = head_at(alloc, place, width, height)?;
    let label = packed_behind::<Bitmap>(head, &grid, dark.is_black(), light.is_black())?;
    Ok(label)
}

// Returns the commands before the rows of a picture of `width` by `height` pixels at `place`.
fn head_at(alloc: Global, place: (u32, u32), width: u32, height: u32) -> QrResult<Vec<u8>>
    ensures value { IfOk result (λ head. head.items ≡ tspl_head_at place width height) }
    ensures memory { IsOkUnless result OutOfMemory }
{
    let (x, y) = place;
    let bytes = (width as usize + 7) / 8;
    let right = x as u64 + width as u64;
    let end = y as u64 + height as u64;
    Ok(format!(in alloc;
        "SIZE {right} dot,{end} dot\r\nCLS\r\nBITMAP {x},{y},{bytes},{height},0,"
    )?.into_bytes())
}
