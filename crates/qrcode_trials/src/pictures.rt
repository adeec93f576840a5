//! Draws pictures in each format.

ghost use Rattle.std.specs.Prelude.{◌≡◌, ◌*◌, ◌≤◌, length};

use crate::digest::Digest;
use crate::files::{THREE, of_file};
use crate::symbols::of_digits;
use crate::word::Word;
use crate::words::{Call, number};
use qrcode::render::image::{ImageBuffer, Luma, LumaA, Rgb, Rgba};
use qrcode::render::string::Str;
use qrcode::render::unicode::Dense1x2;
use qrcode::render::{Canvas, Pixel, Renderer, fill_rect, pic, svg};
use qrcode::types::{Color, QrError, QrResult, Version};
use qrcode_facts::label::Dot;
use qrcode_sheets::svg_path::{Path, PathElement};
use qrcode_sheets::{eps, escpos, pbm, pdf, pgm, ppm, tspl, xbm, zpl};
use std::alloc::Global;

/// Draws a picture in the format that `asked.kind` names, and returns its digest.
pub fn run(alloc: Global, asked: &Call<'_>) -> QrResult<Digest> {
    match asked.kind {
        "Luma" => pixels::<Luma>(alloc, asked),
        "LumaA" => pixels::<LumaA>(alloc, asked),
        "Rgb" => pixels::<Rgb>(alloc, asked),
        "Rgba" => pixels::<Rgba>(alloc, asked),
        "Dot" => bars(alloc, asked),
        "to-image" => image(alloc, asked),
        "pbm" => file::<pbm::Bit>(alloc, asked),
        "pgm" => file::<pgm::Grey>(alloc, asked),
        "ppm" => file::<ppm::Color>(alloc, asked),
        "pdf" => file::<pdf::Color>(alloc, asked),
        "zpl" => file::<zpl::Dot>(alloc, asked),
        "tspl" => file::<tspl::Dot>(alloc, asked),
        "escpos" => file::<escpos::Dot>(alloc, asked),
        "xbm" => file::<xbm::Dot>(alloc, asked),
        "png" => file::<qrcode_png::Color>(alloc, asked),
        "char" => text::<char>(alloc, asked),
        "Str" => text::<Str<'_>>(alloc, asked),
        "Word" => text::<Word>(alloc, asked),
        "Dense1x2" => text::<Dense1x2>(alloc, asked),
        "svg" => text::<svg::Color<'_>>(alloc, asked),
        "svg-path" => text::<Path<'_>>(alloc, asked),
        "svg-path-element" => text::<PathElement<'_>>(alloc, asked),
        "pic" => text::<pic::Color>(alloc, asked),
        _ => text::<eps::Color>(alloc, asked),
    }
}

// Draws a picture that is a string.
fn text<P: Pixel<Image = String>>(alloc: Global, asked: &Call<'_>) -> QrResult<Digest> {
    Ok(Digest::of(picture::<P>(alloc, asked)?.as_bytes()))
}

// Draws a picture that is the bytes of a file.
fn file<P: Pixel<Image = Vec<u8>>>(alloc: Global, asked: &Call<'_>) -> QrResult<Digest> {
    of_file(&picture::<P>(alloc, asked)?)
}

// Draws a picture that is an image buffer.
fn pixels<P: Pixel<Image = ImageBuffer<P>>>(alloc: Global, asked: &Call<'_>) -> QrResult<Digest> {
    Ok(Digest::of(&picture::<P>(alloc, asked)?.into_raw()))
}

// Draws a picture that is the bars of a label.
fn bars(alloc: Global, asked: &Call<'_>) -> QrResult<Digest> {
    let mut digest = Digest::of::<u8>(&[]);
    for bar in &picture::<Dot>(alloc, asked)? {
        digest = digest.and(Digest::of(&[bar.left, bar.top, bar.width, bar.height]));
    }
    Ok(digest)
}

// Draws no module (`none`), a square of one (`dark`), two (`diagonal`) or three a side (`three`), a
// wide symbol (`wide`), a chessboard (`board`), each call of the canvas (`calls`), a rectangle pixel
// by pixel (`rect`), or the symbol of digits in the version that is asked for.
fn picture<P: Pixel>(alloc: Global, asked: &Call<'_>) -> QrResult<P::Image> {
    match asked.version {
        "none" => built(alloc, &Renderer::<P>::new(&[], 0, 0)),
        "dark" => cells::<P>(alloc, &DARK, 1, asked),
        "diagonal" => cells::<P>(alloc, &DIAGONAL, 2, asked),
        "three" => cells::<P>(alloc, &THREE, 3, asked),
        "wide" => wide::<P>(alloc, number(asked.level)),
        "board" => board::<P>(alloc),
        "calls" => drawn::<P>(alloc),
        "rect" => filled::<P>(alloc),
        _ => built(alloc, &of_digits(alloc, asked.version())?.render::<P>()),
    }
}

// Squares of one module and of two a side.
static DARK: [Color; 1] = [Color::Dark];

static DIAGONAL: [Color; 4] = [Color::Dark, Color::Light, Color::Light, Color::Dark];

// Draws a square. The numbers, if there are any: width and height of a module in pixels, and the
// modules of the quiet zone.
fn cells<P: Pixel>(
    alloc: Global,
    modules: &[Color],
    side: usize,
    asked: &Call<'_>,
) -> QrResult<P::Image>
    requires square { length modules.now ≡ side * side }
    requires at_most { side ≤ 3 }
{
    let mut renderer = Renderer::<P>::new(modules, side, asked.number(2));
    if !asked.given.is_empty() {
        renderer.module_dimensions(asked.number(0), asked.number(1));
    }
    built(alloc, &renderer)
}

// Draws the picture of a renderer, if it fits.
fn built<P: Pixel>(alloc: Global, renderer: &Renderer<P>) -> QrResult<P::Image> {
    if !renderer.fits() {
        return Err(QrError::DataTooLong);
    }
    renderer.build(alloc)
}

// Draws a symbol of Normal 40 in a quiet zone of five modules, `size` pixels a module.
fn wide<P: Pixel>(alloc: Global, size: u32) -> QrResult<P::Image> {
    let colors = of_digits(alloc, Version::Normal(40))?.into_colors();
    if colors.len() != 177 * 177 {
        return Err(QrError::InvalidVersion);
    }
    let mut renderer = Renderer::<P>::new(&colors, 177, 5);
    renderer.module_size(size);
    built(alloc, &renderer)
}

// The fields along a side of a chessboard of which a PDF file has more than a megabyte.
const FIELDS: usize = 420;

// Draws a chessboard, one pixel a field.
fn board<P: Pixel>(alloc: Global) -> QrResult<P::Image> {
    let mut colors = Vec::new(alloc);
    for i in 0..FIELDS * FIELDS {
        let is_dark = (i / FIELDS + i) % 2 == 0;
        colors.push(if is_dark { Color::Dark } else { Color::Light })?;
    }
    if colors.len() != FIELDS * FIELDS {
        return Err(QrError::InvalidVersion);
    }
    let mut renderer = Renderer::<P>::new(&colors, FIELDS, 0);
    renderer.module_size(1);
    built(alloc, &renderer)
}

// Draws grey pixels by `to_image`.
fn image(alloc: Global, asked: &Call<'_>) -> QrResult<Digest> {
    let code = of_digits(alloc, asked.version())?;
    let renderer = code.render::<Luma>();
    if !renderer.fits() {
        return Err(QrError::DataTooLong);
    }
    Ok(Digest::of(&renderer.to_image(alloc)?.into_raw()))
}

// Fills a rectangle of two by two pixels.
fn filled<P: Pixel>(alloc: Global) -> QrResult<P::Image> {
    let dark = P::default_color(Color::Dark);
    let light = P::default_color(Color::Light);
    let mut canvas = P::Canvas::new(alloc, 9, 9, dark, light)?;
    fill_rect(&mut canvas, 2, 3, 2, 2)?;
    canvas.into_image()
}

// A row of modules.
static LINE: [Color; 4] = [Color::Dark, Color::Light, Color::Dark, Color::Dark];

// Makes each call of a canvas of nine by nine pixels.
fn drawn<P: Pixel>(alloc: Global) -> QrResult<P::Image> {
    let dark = P::default_color(Color::Dark);
    let light = P::default_color(Color::Light);
    let mut canvas = P::Canvas::new(alloc, 9, 9, dark, light)?;
    canvas.draw_dark_pixel(0, 0)?;
    canvas.draw_dark_rect(1, 1, 3, 2)?;
    canvas.draw_dark_modules(&LINE, 1, 4, 2, 2)?;
    fill_rect(&mut canvas, 6, 6, 2, 3)?;
    canvas.into_image()
}
