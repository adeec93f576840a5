//! Makes PNG files that the C library cannot make, and reads others.

use crate::digest::{Digest, or_error};
use crate::words::Call;
use qrcode::render::Renderer;
use qrcode::types::Color::{self as Module, Dark, Light};
use qrcode::types::{QrError, QrResult};
use qrcode_png::sums::crc;
use qrcode_png::{Color, PngError, grey, read, with_density};
use std::alloc::Global;

/// A square of three modules a side.
pub static THREE: [Module; 9] = [Dark, Light, Dark, Light, Light, Dark, Dark, Dark, Light];

/// Makes a PNG file of pixels (`grey`) or with a density (`dense`), and returns its length and
/// CRC-32; or reads one (`shown`), and returns its width and the CRC-32 of its pixels.
///
/// The numbers of `grey`: width, height, and a step (3 marks every third pixel). Those of `dense`:
/// width and height of a module in pixels, and pixels per metre.
pub fn run(alloc: Global, asked: &Call<'_>) -> QrResult<Digest> {
    match asked.kind {
        "grey" => of_file(&of_pixels(alloc, asked)?),
        "shown" => of_picture(alloc, asked.data()),
        _ => of_file(&of_modules(alloc, asked)?),
    }
}

/// Returns the length of a file and its CRC-32.
pub fn of_file(bytes: &[u8]) -> QrResult<Digest> {
    Ok(Digest::of_sum(bytes.len(), crc(bytes)))
}

// Reads `file`, and returns the width of its picture and the CRC-32 of its RGBA bytes.
fn of_picture(alloc: Global, file: &[u8]) -> QrResult<Digest> {
    let picture = or_error(read(alloc, file), PngError::OutOfMemory)?;
    let mut bytes = Vec::new(alloc);
    for pixel in &picture.pixels(alloc)? {
        bytes.extend_from_slice(pixel)?;
    }
    Ok(Digest::of_sum(picture.sides().0 as usize, crc(&bytes)))
}

// Makes a file of pixels: each `step`-th is marked.
fn of_pixels(alloc: Global, asked: &Call<'_>) -> QrResult<Vec<u8>> {
    let (Ok(across), Ok(down)) = (
        u16::try_from(asked.number(0)),
        u16::try_from(asked.number(1)),
    ) else {
        return Err(QrError::DataTooLong);
    };
    let step = asked.number(2) as usize;
    if across == 0 || down == 0 || step == 0 {
        return Err(QrError::DataTooLong);
    }
    let count = usize::from(down) * usize::from(across);
    let mut marks = Vec::with_capacity(alloc, count)?;
    for i in 0..count {
        marks.push(i % step == 0)?;
    }
    if marks.len() != count {
        return Err(QrError::InvalidCharacter);
    }
    Ok(grey(alloc, &marks, u32::from(across), u32::from(down))?)
}

// Makes the file of a square of modules without a quiet zone.
fn of_modules(alloc: Global, asked: &Call<'_>) -> QrResult<Vec<u8>> {
    let mut renderer = Renderer::<Color>::new(&THREE, 3, 0);
    renderer.module_dimensions(asked.number(0), asked.number(1));
    let dots = asked.number(2);
    if !renderer.fits() || dots > u32::MAX / 2 {
        return Err(QrError::DataTooLong);
    }
    with_density(alloc, &renderer, dots)
}
