//! The canvas of vector formats that have a text for each dark rectangle, between a head and a
//! tail.

ghost use Rattle.std.specs.Prelude.{◌≡◌, ℕ, ◌^◌, ◌<◌, List, ◌++◌, string_bytes, IfOk, OnOk, IsOkUnless};
ghost use Rattle.qrcode_types.specs.declared.types.QrError.TheVariants.{OutOfMemory};
ghost use Rattle.qrcode_render.specs.Drawn.{drawn};
ghost use Rattle.qrcode_render.specs.Setting.{square_layout, drawing_of};

use crate::{Canvas, Modules};
use qrcode_types::types::QrResult;
use std::alloc::Global;
use std::marker::PhantomData;

/// The texts of a vector format. Pixels `P` are its colours.
pub trait Strokes<P>: Drop {
    // The text before the first rectangle, from the width, the height, the dark and the light
    // pixel; `end` is the text after the last one.
    ghost start: { ℕ → ℕ → P → P → List ℕ };

    ghost end: { List ℕ };

    // A text followed by a rectangle, from its first column, its first row, its width and its
    // height.
    ghost rect: { ℕ → ℕ → ℕ → ℕ → List ℕ → List ℕ };

    /// Returns the text before the first rectangle of a picture of `width` by `height` pixels.
    ///
    /// Errors: only `OutOfMemory`.
    fn head(alloc: Global, width: u32, height: u32, dark: P, light: P) -> QrResult<String>
        ensures value { IfOk result (λ text. string_bytes text ≡ start width height dark light) }
        ensures memory { IsOkUnless result OutOfMemory };

    /// Returns the text after the last rectangle.
    fn tail() -> &'static str
        ensures { result.now ≡ end };

    /// Appends a rectangle of `width` by `height` pixels, from column `left` and row `top` on.
    ///
    /// Errors: only `OutOfMemory`.
    fn push_rect(text: &mut String, left: u32, top: u32, width: u32, height: u32) -> QrResult<()>
        ensures appends { OnOk result
            (string_bytes text.new ≡ rect left top width height (string_bytes text.old)) }
        ensures memory { IsOkUnless result OutOfMemory };
}

/// The canvas of a vector format: its text so far.
#[derive(Drop)]
pub struct Plot<P, S> {
    width: u32,
    height: u32,
    text: String,
    of: PhantomData<(P, S)>,
    ghost width_fits: { width < 2 ^ 32 },
    ghost height_fits: { height < 2 ^ 32 },
}

impl<P: Copy, S: Strokes<P>> Plot<P, S> {
    /// Returns `head`, followed by the rectangles of the dark modules.
    ///
    /// Errors: only `OutOfMemory`.
    pub fn after(head: String, modules: &Modules) -> QrResult<String>
        ensures value { IfOk result (λ text. string_bytes text ≡ drawn S.rect
            (square_layout modules.now) modules.now.content (string_bytes head)) }
        ensures memory { IsOkUnless result OutOfMemory }
    {
        let (width, height) = modules.pixels();
        let mut plot = Self {
            width,
            height,
            text: head,
            of: PhantomData,
        };
        plot.draw_square(
            modules.content,
            modules.count,
            modules.zone,
            modules.width,
            modules.height,
        )?;
        Ok(plot.text)
    }
}

impl<P: Copy, S: Strokes<P>> Canvas for Plot<P, S> {
    type Pixel = P;

    type Image = String;

    ghost Drawing = { List ℕ };

    ghost shown = { λ plot. string_bytes plot.text };

    ghost across = { λ plot. plot.width };

    ghost down = { λ plot. plot.height };

    ghost start = { S.start };

    ghost pixel_step = { λ x y. S.rect x y 1 1 };

    ghost rect_step = { S.rect };

    ghost is_end = { λ text image. string_bytes image ≡ text ++ S.end };

    ghost is_picture = { λ s image. string_bytes image ≡ drawing_of S.start S.rect s ++ S.end };

    ghost sides_fit = { λ plot. (plot.width_fits, plot.height_fits) };

    fn new(alloc: Global, width: u32, height: u32, dark: P, light: P) -> QrResult<Self> {
        let head = S::head(alloc, width, height, dark, light)?;
        Ok(Plot {
            width,
            height,
            text: head,
            of: PhantomData,
        })
    }

    fn draw_dark_pixel(&mut self, x: u32, y: u32) -> QrResult<()> {
        S::push_rect(&mut self.text, x, y, 1, 1)
    }

    fn draw_dark_rect(&mut self, left: u32, top: u32, width: u32, height: u32) -> QrResult<()> {
        S::push_rect(&mut self.text, left, top, width, height)
    }

    fn into_image(self) -> QrResult<String> {
        let mut text = self.text;
        text.push_str(S::tail())?;
        Ok(text)
    }
}
