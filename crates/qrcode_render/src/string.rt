//! Draws lines of text, with a character or a short text for each pixel.

ghost use Rattle.std.proofs.Common.{rules};
ghost use Rattle.std.specs.Prelude.{◌≡◌, ℕ, ◌<◌, List, [], ◌∷◌, ◌++◌, length, encode_utf8, string_bytes, IfOk, OnOk, IsOkUnless};
ghost use Rattle.qrcode_types.specs.declared.types.Color.{Color};
ghost use Rattle.qrcode_types.specs.declared.types.QrError.TheVariants.{OutOfMemory};
ghost use Rattle.qrcode_types.specs.Colors.{select_of};
ghost use Rattle.qrcode_render.specs.Grid.{pixels_of};
ghost use Rattle.qrcode_render.specs.Texts.{text_of};

use crate::Pixel;
use crate::grid::Grid;
use crate::page::{Finish, Page};
use crate::rows::push_rows;
use qrcode_types::types::{Color, QrResult};
use std::alloc::Global;

/// A pixel that is drawn as a text, such as a `char`.
pub trait Element: Copy {
    ghost text: { Self → List ℕ };

    // An element is the default for a colour.
    ghost is_default: { Color → Self → Type 0 };

    /// Returns the default element for `color`.
    fn default_color(color: Color) -> Self
        ensures { is_default color result };

    /// Returns the length of the text in bytes.
    fn strlen(self) -> usize
        ensures { result ≡ length (text self) };

    /// Appends the text to `string`. After `OutOfMemory` the content of `string` is unspecified.
    ///
    /// Errors: only `OutOfMemory`.
    fn append_to_string(self, string: &mut String) -> QrResult<()>
        ensures appends { OnOk result
            (string_bytes string.new ≡ string_bytes string.old ++ text self) }
        ensures memory { IsOkUnless result OutOfMemory };
}

impl Element for char {
    ghost text = { encode_utf8 };

    ghost is_default = { λ c element. element ≡ select_of c 0x2588 32 };

    fn default_color(color: Color) -> char {
        color.select('\u{2588}', ' ')
    }

    fn strlen(self) -> usize {
        self.len_utf8()
    }

    fn append_to_string(self, string: &mut String) -> QrResult<()> {
        string.push(self)?;
        Ok(())
    }
}

/// A pixel that is drawn as a text of any length.
#[derive(Copy, Clone, PartialEq, Eq)]
pub struct Str<'a>(pub &'a str);

impl<'a> Element for Str<'a> {
    ghost text = { λ element. element.0.now };

    ghost is_default = { λ c element. element.0.now
        ≡ select_of c (0xe2 ∷ 0x96 ∷ 0x88 ∷ []) (32 ∷ []) };

    fn default_color(color: Color) -> Str<'a> {
        Str(color.select("\u{2588}", " "))
    }

    fn strlen(self) -> usize {
        self.0.len()
    }

    fn append_to_string(self, string: &mut String) -> QrResult<()> {
        string.push_str(self.0)?;
        Ok(())
    }
}

impl Pixel for char {
    type Image = String;

    type Canvas = Canvas<char>;

    ghost unit = { (1, 1) };

    ghost unit_positive = { Prim.search rules };

    ghost is_default_color = { λ c pixel. pixel ≡ select_of c 0x2588 32 };

    fn default_unit_size() -> (u32, u32) {
        (1, 1)
    }

    fn default_color(color: Color) -> char {
        <char as Element>::default_color(color)
    }
}

impl<'a> Pixel for Str<'a> {
    type Image = String;

    type Canvas = Canvas<Str<'a>>;

    ghost unit = { (1, 1) };

    ghost unit_positive = { Prim.search rules };

    ghost is_default_color = { λ c pixel. pixel.0.now
        ≡ select_of c (0xe2 ∷ 0x96 ∷ 0x88 ∷ []) (32 ∷ []) };

    fn default_unit_size() -> (u32, u32)
        ensures across { result.0 ≡ 1 }
        ensures down { result.1 ≡ 1 }
    {
        (1, 1)
    }

    fn default_color(color: Color) -> Str<'a> {
        <Str as Element>::default_color(color)
    }
}

/// The canvas for text. The picture has a line for each row, with newlines between lines and none
/// at the end; without a column it is empty.
pub type Canvas<P> = Page<P, Lines>;

/// Turns rows of pixels into lines of text.
#[derive(Copy, Clone)]
pub struct Lines;

impl<P: Element> Finish<P> for Lines {
    type Image = String;

    ghost is_image = { λ b dark light image. string_bytes image
        ≡ text_of (P.text dark) (P.text light) b };

    #[tactic(auto, unfolding(crate::specs::Texts::text_of))]
    fn image(alloc: Global, grid: &Grid, dark: P, light: P) -> QrResult<String> {
        let (width, height) = grid.pixels();
        if width == 0 || height == 0 {
            return Ok(String::new(alloc));
        }
        let dark_text = element_text(alloc, dark)?;
        let light_text = element_text(alloc, light)?;
        lines_of(alloc, grid, &dark_text, &light_text)
    }
}

// Returns the text of an element.
fn element_text<P: Element>(alloc: Global, element: P) -> QrResult<String>
    ensures value { IfOk result (λ text. string_bytes text ≡ P.text element) }
    ensures memory { IsOkUnless result OutOfMemory }
{
    let mut text = String::with_capacity(alloc, element.strlen())?;
    element.append_to_string(&mut text)?;
    Ok(text)
}

// Returns the lines of `grid`, with `dark` or `light` for each pixel.
fn lines_of(alloc: Global, grid: &Grid, dark: &str, light: &str) -> QrResult<String>
    requires across { 0 < (pixels_of grid.now).across }
    requires down { 0 < (pixels_of grid.now).down }
    ensures value { IfOk result (λ text.
        string_bytes text ≡ text_of dark.now light.now (pixels_of grid.now)) }
    ensures memory { IsOkUnless result OutOfMemory }
{
    let mut raw = Vec::new(alloc);
    push_rows(&mut raw, grid, dark.as_bytes(), light.as_bytes(), b"\n")?;
    raw.pop();

    // Lines of UTF-8 texts are UTF-8.
    Ok(unsafe { String::from_utf8_unchecked(raw) })
}
