//! Makes the calls of a canvas.

ghost use Rattle.std.specs.Prelude.{◌≡◌, IfOk, IsTrue};
ghost use Rattle.qrcode_types.specs.Versions.{has_level};
ghost use Rattle.qrcode_layout.specs.Masks.{exists_in};

use crate::digest::Digest;
use crate::words::Call;
use qrcode::canvas::{Canvas, MaskPattern};
use qrcode::types::{Color, QrError, QrResult, Version};
use qrcode_layout::masks::masks_of;
use qrcode_png::sums::crc;
use std::alloc::Global;

/// Makes the call that `asked.kind` names on a canvas of the version and level: for `new` an empty
/// one, for `masked` patterns under the mask of the index that is asked for, else patterns with the
/// data and error correction that are asked for, or fixed ones.
pub fn run(alloc: Global, asked: &Call<'_>) -> QrResult<Digest> {
    let (version, level) = (asked.version(), asked.level());
    if !version.is_valid() || !version.has_level(level) {
        return Err(QrError::InvalidVersion);
    }
    let mut canvas = Canvas::new(alloc, version, level)?;
    if asked.kind == "new" {
        return Ok(corners(&canvas));
    }
    canvas.draw_all_functional_patterns();
    match asked.kind {
        "masked" => canvas.apply_mask(mask_at(version, asked.number(0))?),
        _ if asked.given.is_empty() => canvas.draw_data(b"sixteen bytes in", b"ten others"),
        _ => canvas.draw_data(asked.data(), asked.data_at(1)),
    }
    match asked.kind {
        "masked" | "codewords" => rows_of(alloc, &canvas.to_bools(alloc)?, version.width()),
        "draws" => draws(canvas, version),
        "best-mask" => of_colors(canvas.apply_best_mask(alloc)?.into_colors(alloc)),
        "best-colors" => of_colors(canvas.best_colors(alloc)),
        "into-best-colors" => of_colors(canvas.into_best_colors(alloc)),
        "bools" => Ok(Digest::of(&canvas.to_bools(alloc)?)),
        "clone" => Ok(corners(&canvas).and(of_colors(canvas.clone()?.into_colors(alloc))?)),
        _ => of_colors(canvas.into_colors(alloc)),
    }
}

// Returns the mask of the version at an index.
fn mask_at(version: Version, index: u32) -> QrResult<MaskPattern>
    ensures exists { IfOk result (λ mask. IsTrue (exists_in version mask)) }
{
    match masks_of(version).get(index as usize) {
        Some(mask) if mask.exists_in(version) => Ok(*mask),
        _ => Err(QrError::InvalidVersion),
    }
}

// Returns the side of a square, and the CRC-32 of its rows, lines of `#` and `.`.
fn rows_of(alloc: Global, modules: &[bool], width: i16) -> QrResult<Digest> {
    let side = width.max(1) as usize;
    let mut text = Vec::new(alloc);
    for (at, is_dark) in modules.iter().enumerate() {
        if at > 0 && at % side == 0 {
            text.push(b'\n')?;
        }
        text.push(if *is_dark { b'#' } else { b'.' })?;
    }
    Ok(Digest::of_sum(side, crc(&text)))
}

// Returns the digest of the colours.
fn of_colors(colors: QrResult<Vec<Color>>) -> QrResult<Digest> {
    Ok(Digest::of(&colors?))
}

// Returns the digest of two corners and of two modules between them.
#[tactic(auto, using(crate::proofs::Sides::side_least))]
fn corners(canvas: &Canvas) -> Digest {
    Digest::of(&[
        canvas.get(0, 0).is_dark(),
        canvas.get(8, 8).is_dark(),
        canvas.get(-9, -4).is_dark(),
        canvas.get(-1, -1).is_dark(),
    ])
}

// Makes the calls that need no memory.
#[tactic(auto, using(crate::proofs::Sides::side_least))]
fn draws(canvas: Canvas, version: Version) -> QrResult<Digest>
    requires version { canvas.version ≡ version }
    requires level { IsTrue (has_level canvas.version canvas.level) }
{
    let mut canvas = canvas;
    let mask = MaskPattern::Diamonds;
    if !mask.exists_in(version) {
        return Err(QrError::InvalidVersion);
    }
    canvas.apply_mask(mask);
    canvas.put(0, 0, Color::Light);
    *canvas.get_mut(-1, -1) = canvas.get(1, 2);
    Ok(corners(&canvas))
}
