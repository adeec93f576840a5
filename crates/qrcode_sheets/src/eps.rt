//! Draws Encapsulated PostScript. A pixel is a point, 1/72 of an inch, unless set by
//! `with_extras`.

ghost use Rattle.std.proofs.Common.{rules};
ghost use Rattle.std.specs.Prelude.{◌≡◌, ◌<◌, ◌≤◌, ◌^◌, string_bytes, IfOk, IsOkUnless, IsTrue};
ghost use Rattle.qrcode_types.specs.declared.types.QrError.TheVariants.{OutOfMemory};
ghost use Rattle.qrcode_types.specs.Colors.{select_of};
ghost use Rattle.qrcode_render.specs.Drawn.{drawn};
ghost use Rattle.qrcode_sheets.specs.Eps.{begun_points, eps_boxes, eps_end, eps_file, eps_front, eps_paint, eps_rect, eps_sized_start, eps_start, is_grey};
ghost use Rattle.qrcode_sheets.specs.Paths.{thousandths};
ghost use Rattle.qrcode_render.specs.Setting.{fits, layout_of};

use qrcode_render::backwards::Backwards;
use qrcode_render::strokes::{Plot, Strokes};
use qrcode_render::{Pixel, Renderer};
use qrcode_types::types::{Color as ModuleColor, QrResult};
use std::alloc::Global;

/// A colour of PostScript: red, green and blue.
#[derive(Copy, Clone, PartialEq, Eq)]
pub struct Color {
    /// Red, from 0 to 255.
    pub red: u8,
    /// Green, from 0 to 255.
    pub green: u8,
    /// Blue, from 0 to 255.
    pub blue: u8,
}

impl Color {
    // Whether red, green and blue are equal.
    fn is_grey(self) -> bool
        ensures { result ≡ is_grey self }
    {
        self.red == self.green && self.green == self.blue
    }
}

impl Pixel for Color {
    type Image = String;

    type Canvas = Canvas;

    ghost unit = { (8, 8) };

    ghost unit_positive = { Prim.search rules };

    ghost is_default_color = { λ c pixel. (pixel.red ≡ select_of c 0 255)
        × (pixel.green ≡ select_of c 0 255) × (pixel.blue ≡ select_of c 0 255) };

    fn default_unit_size() -> (u32, u32) {
        (8, 8)
    }

    fn default_color(color: ModuleColor) -> Color {
        let grey = color.select(0, 255);
        Color {
            red: grey,
            green: grey,
            blue: grey,
        }
    }
}

/// The canvas for EPS: a box for each dark rectangle.
pub type Canvas = Plot<Color, FilledRectangles>;

/// The texts of the EPS format.
#[derive(Copy, Clone)]
pub struct FilledRectangles;

impl Strokes<Color> for FilledRectangles {
    ghost start = { eps_start };

    ghost end = { eps_end };

    ghost rect = { eps_rect };

    fn head(alloc: Global, width: u32, height: u32, dark: Color, light: Color) -> QrResult<String> {
        let (ground, ink) = (paint(alloc, light)?, paint(alloc, dark)?);
        Ok(format!(in alloc;
            "%!PS-Adobe-3.0 EPSF-3.0\n%%BoundingBox: 0 0 {width} {height}\n%%LanguageLevel: 2\n\
             %%EndComments\n{ground}0 0 {width} {height} rectfill\n\
             0 {height} translate 1 -1 scale\n{ink}"
        )?)
    }

    fn tail() -> &'static str {
        "showpage\n%%EOF\n"
    }

    fn push_rect(text: &mut String, left: u32, top: u32, width: u32, height: u32) -> QrResult<()> {
        let mut line = Backwards::new();
        line.word(" rectfill\n");
        line.number(height as u64);
        line.word(" ");
        line.number(width as u64);
        line.word(" ");
        line.number(top as u64);
        line.word(" ");
        line.number(left as u64);
        line.append_to(text)
    }
}

/// Draws the picture as `build` does, but with `dots` pixels to an inch, if any are given, and with
/// PostScript over the modules. Its unit is a pixel, and its origin the upper left corner.
///
/// Errors: only `OutOfMemory`.
pub fn with_extras(
    alloc: Global,
    renderer: &Renderer<Color>,
    dots: Option<u32>,
    over: &[u8],
) -> QrResult<Vec<u8>>
    requires { IsTrue (fits renderer.now) }
    ensures value { IfOk result (λ file. file.items ≡ eps_file dots (layout_of renderer.now)
        renderer.now.content renderer.now.dark renderer.now.light over.now) }
    ensures memory { IsOkUnless result OutOfMemory }
{
    let (dark, light) = renderer.colors();
    let modules = renderer.modules();
    let head = front(alloc, modules.pixels(), dots, dark, light)?;
    let mut file = Canvas::after(head, &modules)?.into_bytes();
    file.extend_from_slice(over)?;
    file.extend_from_slice(FilledRectangles::tail().as_bytes())?;
    Ok(file)
}

/// Returns PostScript, for `with_extras`, that fills the dark modules in the dark colour.
///
/// Errors: only `OutOfMemory`.
pub fn layer(alloc: Global, renderer: &Renderer<Color>) -> QrResult<Vec<u8>>
    requires { IsTrue (fits renderer.now) }
    ensures value { IfOk result (λ text. text.items ≡ drawn eps_rect (layout_of renderer.now)
        renderer.now.content (eps_paint renderer.now.dark)) }
    ensures memory { IsOkUnless result OutOfMemory }
{
    let (dark, _) = renderer.colors();
    let ink = paint(alloc, dark)?;
    Ok(Canvas::after(ink, &renderer.modules())?.into_bytes())
}

// Returns the text before the first dark rectangle, for sides in pixels, with `dots` pixels to an
// inch if any are given.
fn front(
    alloc: Global,
    sides: (u32, u32),
    dots: Option<u32>,
    dark: Color,
    light: Color,
) -> QrResult<String>
    ensures value { IfOk result (λ text.
        string_bytes text ≡ eps_front dots sides.0 sides.1 dark light) }
    ensures memory { IsOkUnless result OutOfMemory }
{
    match dots {
        Some(dots) if dots > 0 => sized_head(alloc, sides, dots, dark, light),
        _ => FilledRectangles::head(alloc, sides.0, sides.1, dark, light),
    }
}

// Returns the text before the first dark rectangle, for sides in pixels and `dots` pixels to an
// inch.
fn sized_head(
    alloc: Global,
    sides: (u32, u32),
    dots: u32,
    dark: Color,
    light: Color,
) -> QrResult<String>
    requires { 1 ≤ dots }
    ensures value { IfOk result (λ text.
        string_bytes text ≡ eps_sized_start dots sides.0 sides.1 dark light) }
    ensures memory { IsOkUnless result OutOfMemory }
{
    let (width, height) = sides;
    let head = sized_boxes(alloc, sides, dots)?;
    let (ground, ink) = (paint(alloc, light)?, paint(alloc, dark)?);
    Ok(format!(in alloc;
        "{head}%%LanguageLevel: 2\n%%EndComments\n72 {dots} div dup scale\n\
         {ground}0 0 {width} {height} rectfill\n0 {height} translate 1 -1 scale\n{ink}"
    )?)
}

// Returns PostScript that sets a colour; a grey is set as one.
fn paint(alloc: Global, color: Color) -> QrResult<String>
    ensures value { IfOk result (λ text. string_bytes text ≡ eps_paint color) }
    ensures memory { IsOkUnless result OutOfMemory }
{
    let Color { red, green, blue } = color;
    if color.is_grey() {
        return Ok(format!(in alloc; "{red} 255 div setgray\n")?);
    }
    Ok(format!(in alloc; "{red} 255 div {green} 255 div {blue} 255 div setrgbcolor\n")?)
}

// Returns the lines that state the size of a picture, for sides in pixels.
fn sized_boxes(alloc: Global, sides: (u32, u32), dots: u32) -> QrResult<String>
    requires { 1 ≤ dots }
    ensures value { IfOk result (λ text. string_bytes text ≡ eps_boxes dots sides.0 sides.1) }
    ensures memory { IsOkUnless result OutOfMemory }
{
    let (wide, high) = (sides.0 as u64, sides.1 as u64);
    let (across, down) = (begun_points(dots, wide), begun_points(dots, high));
    let wide = thousandths(alloc, begun_points(dots, 1000 * wide))?;
    let high = thousandths(alloc, begun_points(dots, 1000 * high))?;
    Ok(format!(in alloc;
        "%!PS-Adobe-3.0 EPSF-3.0\n%%BoundingBox: 0 0 {across} {down}\n\
         %%HiResBoundingBox: 0 0 {wide} {high}\n"
    )?)
}

// Returns `n` thousandths, as a number with three decimals.
fn thousandths(alloc: Global, n: u64) -> QrResult<String>
    ensures value { IfOk result (λ text. string_bytes text ≡ thousandths n) }
    ensures memory { IsOkUnless result OutOfMemory }
{
    let (hundreds, tens, ones) = (n / 100 % 10, n / 10 % 10, n % 10);
    Ok(format!(in alloc; "{}.{hundreds}{tens}{ones}", n / 1000)?)
}

// Returns the length of `pixels` pixels in points, rounded up.
fn begun_points(dots: u32, pixels: u64) -> u64
    requires at_least { 1 ≤ dots }
    requires few { pixels < 2 ^ 48 }
    ensures { result ≡ begun_points dots pixels }
{
    (72 * pixels + u64::from(dots) - 1) / u64::from(dots)
}
