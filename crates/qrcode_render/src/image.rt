//! Images as rows of pixels, each of one or more bytes.

ghost use Rattle.std.proofs.Common.{rules};
ghost use Rattle.std.specs.Prelude.{◌≡◌, ℕ, ◌+◌, ◌*◌, ◌<◌, List, [], ◌∷◌, ◌++◌, length, slice_index_or, IfOk, OnOk, IsOkUnless};
ghost use Rattle.qrcode_types.specs.declared.types.QrError.TheVariants.{OutOfMemory};
ghost use Rattle.qrcode_types.specs.Colors.{select_of};
ghost use Rattle.qrcode_types.specs.declared.types.Color.{Color};
ghost use Rattle.qrcode_render.specs.Texts.{marks_text};

use crate::Pixel;
use crate::grid::Grid;
use crate::page::{Finish, Page};
use crate::rows::push_rows;
use qrcode_types::types::{Color, QrResult};
use std::alloc::Global;
use std::marker::PhantomData;

/// A grey value, from 0 for black to 255 for white.
#[derive(Copy, Clone, PartialEq, Eq)]
pub struct Luma(pub [u8; 1]);

/// A grey value, from 0 for black to 255 for white, and its opacity, from 0 for none to 255.
#[derive(Copy, Clone, PartialEq, Eq)]
pub struct LumaA(pub [u8; 2]);

/// Red, green and blue, each from 0 to 255.
#[derive(Copy, Clone, PartialEq, Eq)]
pub struct Rgb(pub [u8; 3]);

/// Red, green, blue and opacity, each from 0 to 255.
#[derive(Copy, Clone, PartialEq, Eq)]
pub struct Rgba(pub [u8; 4]);

/// A pixel of one or more bytes.
pub trait Channels: Copy {
    ghost bytes: { Self → List ℕ };

    // The default bytes for a colour.
    ghost default_bytes: { Color → List ℕ };

    ghost channel_count: { ℕ };

    /// Returns the default pixel for `color`: black for dark, white for light, opaque.
    fn of_color(color: Color) -> Self
        ensures { bytes result ≡ default_bytes color };

    /// Returns the number of bytes of a pixel.
    fn count() -> usize
        ensures { result ≡ channel_count };

    /// Returns byte `i` of the pixel, counted from 0; it must be below `count`.
    fn channel(self, i: usize) -> u8
        requires { i < channel_count }
        ensures { result ≡ slice_index_or (bytes self) i 0 }
    {
        self.channels()[i]
    }

    /// Returns the bytes of the pixel.
    fn channels(&self) -> &[u8]
        ensures value { result.now ≡ bytes self.now }
        ensures length { length result.now ≡ channel_count };
}

impl Channels for Luma {
    ghost bytes = { λ pixel. pixel.0 };

    ghost default_bytes = { λ c. select_of c 0 255 ∷ [] };

    ghost channel_count = { 1 };

    fn count() -> usize {
        1
    }

    fn of_color(color: Color) -> Luma {
        Luma([color.select(0, 255)])
    }

    fn channels(&self) -> &[u8] {
        &self.0
    }
}

impl Channels for LumaA {
    ghost bytes = { λ pixel. pixel.0 };

    ghost default_bytes = { λ c. select_of c 0 255 ∷ 255 ∷ [] };

    ghost channel_count = { 2 };

    fn count() -> usize {
        2
    }

    fn of_color(color: Color) -> LumaA {
        LumaA([color.select(0, 255), 255])
    }

    fn channels(&self) -> &[u8] {
        &self.0
    }
}

impl Channels for Rgb {
    ghost bytes = { λ pixel. pixel.0 };

    ghost default_bytes = { λ c. select_of c 0 255 ∷ select_of c 0 255 ∷ select_of c 0 255 ∷ [] };

    ghost channel_count = { 3 };

    fn count() -> usize {
        3
    }

    fn of_color(color: Color) -> Rgb {
        let grey = color.select(0, 255);
        Rgb([grey, grey, grey])
    }

    fn channels(&self) -> &[u8] {
        &self.0
    }
}

impl Channels for Rgba {
    ghost bytes = { λ pixel. pixel.0 };

    ghost default_bytes = { λ c.
        select_of c 0 255 ∷ select_of c 0 255 ∷ select_of c 0 255 ∷ 255 ∷ [] };

    ghost channel_count = { 4 };

    fn count() -> usize {
        4
    }

    fn of_color(color: Color) -> Rgba {
        let grey = color.select(0, 255);
        Rgba([grey, grey, grey, 255])
    }

    fn channels(&self) -> &[u8] {
        &self.0
    }
}

impl<P: Channels> Pixel for P {
    type Image = ImageBuffer<P>;

    type Canvas = Canvas<P>;

    ghost unit = { (8, 8) };

    ghost unit_positive = { Prim.search rules };

    ghost is_default_color = { λ c pixel. P.bytes pixel ≡ P.default_bytes c };

    fn default_unit_size() -> (u32, u32) {
        (8, 8)
    }

    fn default_color(color: Color) -> P {
        P::of_color(color)
    }
}

/// An image: the bytes of its pixels in row order, without padding between rows.
#[derive(Drop)]
pub struct ImageBuffer<P> {
    width: u32,
    height: u32,
    raw: Vec<u8>,
    of: PhantomData<P>,
}

impl<P> ImageBuffer<P> {
    /// Returns the width and height in pixels.
    pub fn dimensions(&self) -> (u32, u32)
        ensures across { result.0 ≡ self.now.width }
        ensures down { result.1 ≡ self.now.height }
    {
        (self.width, self.height)
    }

    /// Returns the bytes of the pixels, row by row.
    pub fn into_raw(self) -> Vec<u8>
        ensures { result ≡ self.raw }
    {
        self.raw
    }
}

/// The canvas that pixels of these types are drawn on.
pub type Canvas<P> = Page<P, Rows>;

/// Turns rows of pixels into an `ImageBuffer`.
#[derive(Copy, Clone)]
pub struct Rows;

impl<P: Channels> Finish<P> for Rows {
    ghost use Rattle.qrcode_render.specs.Shown.{IsBufferOf};

    type Image = ImageBuffer<P>;

    ghost is_image = { λ b dark light. IsBufferOf (P.bytes dark) (P.bytes light) b };

    fn image(alloc: Global, grid: &Grid, dark: P, light: P) -> QrResult<ImageBuffer<P>> {
        let (width, height) = grid.pixels();
        let mut raw = Vec::new(alloc);
        push_rows(&mut raw, grid, dark.channels(), light.channels(), &[])?;
        Ok(ImageBuffer {
            width,
            height,
            raw,
            of: PhantomData,
        })
    }
}
