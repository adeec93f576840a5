//! Decides which colours count as dark.

ghost use Rattle.std.specs.Prelude.{◌≡◌, ◌+◌, ◌*◌, ◌≤◌, length, map, nat_lt, IfOk, IfErr};
ghost use Rattle.qrcode_scan.specs.Shades.{over_white, lightness_of, least_of, greatest_of, dark_of_shades, IsColoursRefusal};

use crate::pixels::{GREATEST_SIDE, Pixels, Unscanned};
use std::alloc::{AllocError, Global};

// The lightness of white.
const WHITE: usize = 65_025_000;

/// Returns the pixels of a picture of `across` by `down` colours, row by row, each of red, green,
/// blue and opacity. A colour, laid over white, is dark if it is darker than the middle between the
/// darkest and the lightest one.
///
/// Errors: `NoSide` if there are more than 65,535 along a side; `TooShort` if `colours` are not
/// `across * down`; `OutOfMemory` if memory runs out.
pub fn pixels_of_colours(
    alloc: Global,
    across: usize,
    down: usize,
    colours: &[[u8; 4]],
) -> Result<Pixels, Unscanned>
    ensures value { IfOk result (λ pixels. pixels ≡ record {
      across = across;
      down = down;
      marks = dark_of_shades (map lightness_of colours.now);
    }) }
    ensures length { IfOk result (λ _. length colours.now ≡ across * down) }
    ensures causes { IfErr result (IsColoursRefusal (length colours.now) across down) }
{
    if across > GREATEST_SIDE || down > GREATEST_SIDE {
        return Err(Unscanned::NoSide);
    }
    if colours.len() != across * down {
        return Err(Unscanned::TooShort);
    }
    let marks = darker(alloc, colours, middle_of(colours))?;
    Ok(Pixels::new(across, down, marks))
}

// Returns which colours have less than half of the lightness `limit`.
fn darker(alloc: Global, colours: &[[u8; 4]], limit: usize) -> Result<Vec<bool>, AllocError>
    ensures value { IfOk result (λ marks. marks.items
        ≡ map (λ colour. nat_lt (2 * lightness_of colour) limit) colours.now) }
    ensures length { IfOk result (λ marks. length marks.items ≡ length colours.now) }
{
    colours
        .iter()
        .map(|colour| 2 * lightness_of(colour) < limit)
        .collect(alloc)
}

// Returns the sum of the lightness of the darkest and of the lightest colour: twice the middle.
#[tactic(auto, unfolding(crate::specs::Shades::least_of, crate::specs::Shades::greatest_of))]
fn middle_of(colours: &[[u8; 4]]) -> usize
    ensures { let shades = map lightness_of colours.now in
        result ≡ least_of 65025000 shades + greatest_of 0 shades }
{
    let (mut least, mut greatest) = (WHITE, 0);
    for colour in colours {
        let shade = lightness_of(colour);
        least = least.min(shade);
        greatest = greatest.max(shade);
    }
    least + greatest
}

// Returns the lightness of a colour over white.
fn lightness_of(colour: &[u8; 4]) -> usize
    ensures value { result ≡ lightness_of colour.now }
    ensures at_most { result ≤ 65025000 }
{
    let [red, green, blue, opacity] = *colour;
    299 * over_white(red, opacity)
        + 587 * over_white(green, opacity)
        + 114 * over_white(blue, opacity)
}

// Lays a channel of a colour over white, by its opacity.
fn over_white(channel: u8, opacity: u8) -> usize
    ensures value { result ≡ over_white channel opacity }
    ensures at_most { result ≤ 65025 }
{
    usize::from(channel) * usize::from(opacity) + 255 * (255 - usize::from(opacity))
}
