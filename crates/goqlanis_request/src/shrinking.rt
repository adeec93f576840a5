//! Logos with more pixels than their place in a drawing.

ghost use Rattle.std.specs.Prelude.{◌<◌, IfOk, IfSome};

use qrcode_sheets::{Inset, Region};
use std::alloc::{AllocError, Global};
use std::ops::Range;

// What a pixel of a shrunk picture covers along one side, in parts of which a pixel of the picture
// has `unit`.
#[derive(Clone, Copy)]
struct Coverage {
    begin: u64,
    end: u64,
    unit: u64,
}

impl Coverage {
    // What pixel `place` of `count` covers of `whole` pixels.
    fn of(place: u16, count: u16, whole: u16) -> Coverage {
        let begin = (place as u64).saturating_mul(whole as u64);
        Coverage {
            begin,
            end: begin.saturating_add(whole as u64),
            unit: count as u64,
        }
    }

    // The pixels of which it covers something.
    fn pixels(&self) -> Range<u64> {
        let unit = self.unit.max(1);
        self.begin / unit..self.end.div_ceil(unit)
    }

    // How many parts it covers of pixel `place` of the picture.
    fn parts_of(&self, place: u64) -> u64 {
        let start = place.saturating_mul(self.unit);
        self.end
            .min(start.saturating_add(self.unit))
            .saturating_sub(self.begin.max(start))
    }
}

// Divides a sum of levels, rounded to the nearest.
fn mean(sum: u64, parts: u64) -> u8 {
    let level = sum.saturating_add(parts / 2).checked_div(parts);
    u8::try_from(level.unwrap_or(0)).unwrap_or(u8::MAX)
}

/// Returns the pixels of a picture that has more of them than its place, both across and down,
/// shrunk to those of the place: each is the mean of what it covers, by area and opacity. Returns
/// `None` for others.
///
/// Errors: only `AllocError`.
pub fn shrunk(alloc: Global, picture: Inset<'_>) -> Result<Option<Vec<[u8; 4]>>, AllocError>
    ensures across { IfOk result (λ small. IfSome small (λ _.
        picture.entry.place.width < picture.entry.across)) }
    ensures down { IfOk result (λ small. IfSome small (λ _.
        picture.entry.place.height < picture.entry.down)) }
{
    let Region { width, height, .. } = picture.place;
    if picture.across as u32 <= width || picture.down as u32 <= height {
        return Ok(None);
    }
    let (across, down) = (width as u16, height as u16);
    let mut shades = Vec::new(alloc);
    for row in 0..down {
        let rows = Coverage::of(row, down, picture.down);
        for column in 0..across {
            let columns = Coverage::of(column, across, picture.across);
            shades.push(shade_of(picture, columns, rows))?;
        }
    }
    Ok(Some(shades))
}

// Returns the mean of what a pixel covers, these columns and rows of the picture: the levels are
// weighted by opacity, and the opacity by area.
fn shade_of(picture: Inset<'_>, columns: Coverage, rows: Coverage) -> [u8; 4] {
    let (mut levels, mut opacity) = ([0u64; 3], 0u64);
    for row in rows.pixels() {
        let first = row.saturating_mul(picture.across as u64);
        for column in columns.pixels() {
            if let Some(shade) = picture.pixels.get(first.saturating_add(column) as usize) {
                let parts = rows.parts_of(row).saturating_mul(columns.parts_of(column));
                let share = parts.saturating_mul(shade[3] as u64);
                for i in 0..3usize {
                    let level = share.saturating_mul(shade[i] as u64);
                    levels[i] = levels[i].saturating_add(level);
                }
                opacity = opacity.saturating_add(share);
            }
        }
    }
    let [red, green, blue] = levels;
    let parts = (picture.across as u64).saturating_mul(picture.down as u64);
    [
        mean(red, opacity),
        mean(green, opacity),
        mean(blue, opacity),
        mean(opacity, parts),
    ]
}
