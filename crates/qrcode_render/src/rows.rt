//! Writes grids row by row: of each row of cells one row of pixels is built, the rest are copies.

ghost use Rattle.std.specs.Prelude.{◌≡◌, ◌++◌, IfOk, OnOk, IsOkUnless};
ghost use Rattle.qrcode_types.specs.declared.types.QrError.TheVariants.{OutOfMemory};
ghost use Rattle.qrcode_render.specs.Grid.{repeated, rows_text};
ghost use Rattle.qrcode_render.specs.Texts.{marks_text};

use crate::grid::Grid;
use qrcode_types::types::QrResult;
use std::alloc::Global;

/// Appends `text` `times` times.
///
/// Errors: only `OutOfMemory`.
pub fn push_times(raw: &mut Vec<u8>, text: &[u8], times: u32) -> QrResult<()>
    ensures appends { OnOk result (raw.new.items ≡ raw.old.items ++ repeated times text.now) }
    ensures memory { IsOkUnless result OutOfMemory }
{
    for _ in 0..times {
        raw.extend_from_slice(text)?;
    }
    Ok(())
}

// Returns `text` repeated `times` times.
fn times(alloc: Global, text: &[u8], times: u32) -> QrResult<Vec<u8>>
    ensures value { IfOk result (λ whole. whole.items ≡ repeated times text.now) }
    ensures memory { IsOkUnless result OutOfMemory }
{
    let mut whole = Vec::new(alloc);
    push_times(&mut whole, text, times)?;
    Ok(whole)
}

/// Appends `dark` for each `true` of `marks` and `light` for each `false`.
///
/// Errors: only `OutOfMemory`.
pub fn push_marks(raw: &mut Vec<u8>, dark: &[u8], light: &[u8], marks: &[bool]) -> QrResult<()>
    ensures appends { OnOk result
        (raw.new.items ≡ raw.old.items ++ marks_text dark.now light.now marks.now) }
    ensures memory { IsOkUnless result OutOfMemory }
{
    for mark in marks {
        let text = if *mark { dark } else { light };
        raw.extend_from_slice(text)?;
    }
    Ok(())
}

/// Appends the rows of pixels of `grid`, border included: `dark` or `light` for each pixel, and
/// `end` after each row.
///
/// Errors: only `OutOfMemory`.
pub fn push_rows(
    raw: &mut Vec<u8>,
    grid: &Grid,
    dark: &[u8],
    light: &[u8],
    end: &[u8],
) -> QrResult<()>
    ensures appends { OnOk result
        (raw.new.items ≡ raw.old.items ++ rows_text dark.now light.now end.now grid.now) }
    ensures memory { IsOkUnless result OutOfMemory }
{
    let alloc = *raw.allocator();
    let (across, down) = grid.cell();
    let (columns, rows) = grid.sides();
    let dark = times(alloc, dark, across)?;
    let light = times(alloc, light, across)?;
    let mut room = vec![in alloc; false; columns]?;
    let marks = room.as_mut_slice();
    let longest = columns
        .saturating_mul(dark.len().max(light.len()))
        .saturating_add(end.len());
    raw.reserve(longest.saturating_mul(rows).saturating_mul(down as usize))?;
    for row in 0..rows {
        grid.mark_row(row, marks);
        let mut line = Vec::new(alloc);
        push_marks(&mut line, &dark, &light, marks)?;
        line.extend_from_slice(end)?;
        push_times(raw, &line, down)?;
    }
    Ok(())
}
