//! Draws SVG with one path, whose subpaths are the runs of dark modules in each row.

ghost use Rattle.std.proofs.Common.{rules};
ghost use Rattle.std.specs.Prelude.{◌≡◌, ◌*◌, ◌++◌, [], encode_utf8, codes, string_bytes, IfOk, OnOk, IsOkUnless, IsTrue};
ghost use Rattle.qrcode_types.specs.declared.types.QrError.TheVariants.{OutOfMemory};
ghost use Rattle.qrcode_types.specs.Colors.{select_of};
ghost use Rattle.qrcode_render.specs.Grid.{all_columns, all_rows, pixels_of};
ghost use Rattle.qrcode_render.specs.Setting.{fits, picture_of, side_of};
ghost use Rattle.qrcode_sheets.specs.Paths.{attribute, between, box_end, box_text, frame_of, frame_text, path_front, path_ground, plain_frame, side_text, size_text, xml_head, IsPathIn, IsPathOf};

use crate::paths::push_runs;
use crate::runs::{Run, runs_of};
use qrcode_render::grid::Grid;
use qrcode_render::page::{Finish, Page};
use qrcode_render::{Pixel, Renderer};
use qrcode_types::types::{Color as ModuleColor, QrResult};
use std::alloc::Global;
use std::fmt::Write;

/// A colour of an SVG file with one path. Quotation marks, `<`, `>` and `&` in it are escaped.
#[derive(Copy, Clone, Default, PartialEq, Eq, PartialOrd, Ord, Hash)]
pub struct Path<'a>(pub &'a str);

/// A colour of an SVG element with one path, without the XML declaration, for use in an HTML page.
/// Quotation marks, `<`, `>` and `&` in it are escaped.
#[derive(Copy, Clone, Default, PartialEq, Eq, PartialOrd, Ord, Hash)]
pub struct PathElement<'a>(pub &'a str);

impl<'a> Pixel for Path<'a> {
    type Image = String;

    type Canvas = Page<Path<'a>, WithHead>;

    ghost unit = { (8, 8) };

    ghost unit_positive = { Prim.search rules };

    ghost is_default_color = { λ c pixel. pixel.0.now ≡ select_of c (codes "#000") (codes "#fff") };

    fn default_unit_size() -> (u32, u32)
        ensures across { result.0 ≡ 8 }
        ensures down { result.1 ≡ 8 }
    {
        (8, 8)
    }

    fn default_color(color: ModuleColor) -> Path<'a> {
        Path(color.select("#000", "#fff"))
    }
}

impl<'a> Pixel for PathElement<'a> {
    type Image = String;

    type Canvas = Page<PathElement<'a>, WithoutHead>;

    ghost unit = { (8, 8) };

    ghost unit_positive = { Prim.search rules };

    ghost is_default_color = { λ c pixel. pixel.0.now ≡ select_of c (codes "#000") (codes "#fff") };

    fn default_unit_size() -> (u32, u32)
        ensures across { result.0 ≡ 8 }
        ensures down { result.1 ≡ 8 }
    {
        (8, 8)
    }

    fn default_color(color: ModuleColor) -> PathElement<'a> {
        PathElement(color.select("#000", "#fff"))
    }
}

/// Turns rows of pixels into an SVG file with one path.
#[derive(Copy, Clone)]
pub struct WithHead;

/// Turns rows of pixels into an SVG element with one path, without the XML declaration.
#[derive(Copy, Clone)]
pub struct WithoutHead;

impl<'a> Finish<Path<'a>> for WithHead {
    type Image = String;

    ghost is_image = { λ b dark light text.
        IsPathOf xml_head plain_frame dark.0.now light.0.now b (string_bytes text) };

    fn image(alloc: Global, grid: &Grid, dark: Path<'a>, light: Path<'a>) -> QrResult<String> {
        let text = String::from_str(alloc, "<?xml version=\"1.0\" standalone=\"yes\"?>")?;
        with_element(text, grid, dark.0, light.0)
    }
}

impl<'a> Finish<PathElement<'a>> for WithoutHead {
    type Image = String;

    ghost is_image = { λ b dark light text.
        IsPathOf [] plain_frame dark.0.now light.0.now b (string_bytes text) };

    fn image(
        alloc: Global,
        grid: &Grid,
        dark: PathElement<'a>,
        light: PathElement<'a>,
    ) -> QrResult<String> {
        with_element(String::new(alloc), grid, dark.0, light.0)
    }
}

/// The width and height of an SVG element.
#[derive(Copy, Clone)]
pub enum Size {
    /// As many CSS pixels as the picture has pixels.
    Pixels,
    /// None: the element fills what contains it, and keeps its shape.
    Free,
    /// In millimetres, with this many pixels to an inch. 0 counts as 1.
    Dots(u32),
}

/// The attributes and texts of an SVG element. Empty texts are left out; in others quotation marks,
/// `<`, `>` and `&` are escaped.
#[derive(Clone, Copy)]
pub struct Frame<'a> {
    /// The `id` attribute.
    pub id: &'a str,
    /// The `class` attribute.
    pub class: &'a str,
    /// The `<title>`, which screen readers read out and browsers show as a tooltip.
    pub title: &'a str,
    /// The `<desc>`: what the picture shows, for screen readers.
    pub description: &'a str,
    /// The width and height of the element.
    pub size: Size,
}

impl<'a> Frame<'a> {
    /// Returns a frame without texts, in which a pixel of the picture is a CSS pixel.
    pub fn plain() -> Frame<'a>
        ensures { frame_of result ≡ plain_frame }
    {
        Frame {
            id: "",
            class: "",
            title: "",
            description: "",
            size: Size::Pixels,
        }
    }
}

/// Draws the picture as `build` does, but with the texts and the size of `frame`, and with elements
/// over the path. A module is one unit of the `viewBox`.
///
/// Errors: only `OutOfMemory`.
pub fn framed(
    alloc: Global,
    renderer: &Renderer<Path<'_>>,
    frame: &Frame<'_>,
    over: &[u8],
) -> QrResult<Vec<u8>>
    requires fits { IsTrue (fits renderer.now) }
    ensures shows { IfOk result (λ file. IsPathIn (side_of renderer.now) (side_of renderer.now)
        xml_head (frame_of frame.now) renderer.now.dark.0.now renderer.now.light.0.now
        (picture_of renderer.now) over.now file.items) }
    ensures memory { IsOkUnless result OutOfMemory }
{
    let (dark, light) = renderer.colors();
    let grid = renderer.grid();
    let runs = runs_of(alloc, &grid)?;
    let text = String::from_str(alloc, "<?xml version=\"1.0\" standalone=\"yes\"?>")?;
    let mut file = front(text, frame, &grid, &runs, (dark.0, light.0))?.into_bytes();
    file.extend_from_slice(over)?;
    file.extend_from_slice(b"</svg>")?;
    Ok(file)
}

// Returns `text` followed by the element, without elements over the path.
fn with_element(text: String, grid: &Grid, dark: &str, light: &str) -> QrResult<String>
    ensures value { IfOk result (λ whole. IsPathOf (string_bytes text) plain_frame dark.now light.now
        (pixels_of grid.now) (string_bytes whole)) }
    ensures memory { IsOkUnless result OutOfMemory }
{
    let runs = runs_of(*text.allocator(), grid)?;
    let mut whole = front(text, &Frame::plain(), grid, &runs, (dark, light))?;
    whole.push_str("</svg>")?;
    Ok(whole)
}

// Returns `text` followed by the element up to its end tag, in a dark and a light colour.
fn front(
    text: String,
    frame: &Frame<'_>,
    grid: &Grid,
    runs: &[Run],
    colors: (&str, &str),
) -> QrResult<String>
    ensures value { IfOk result (λ whole. string_bytes whole ≡ string_bytes text ++ path_front
        (frame_of frame.now) (all_columns grid.now * grid.now.across)
        (all_rows grid.now * grid.now.down) (all_columns grid.now) (all_rows grid.now)
        (attribute colors.entry.0.now) (attribute colors.entry.1.now) runs.now) }
    ensures memory { IsOkUnless result OutOfMemory }
{
    let (dark, light) = colors;
    let mut text = text;
    let (columns, rows) = grid.sides();
    push_frame(&mut text, frame, grid)?;
    push_ground(&mut text, columns, rows)?;
    push_attribute(&mut text, light)?;
    text.push_str("\"/><path fill=\"")?;
    push_attribute(&mut text, dark)?;
    text.push_str("\" stroke=\"none\" d=\"")?;
    push_runs(&mut text, runs)?;
    text.push_str("\"/>")?;
    Ok(text)
}

// Appends the start tag, the title and the description.
fn push_frame(text: &mut String, frame: &Frame<'_>, grid: &Grid) -> QrResult<()>
    ensures appends { OnOk result (string_bytes text.new ≡ string_bytes text.old
        ++ frame_text (frame_of frame.now) (all_columns grid.now * grid.now.across)
        (all_rows grid.now * grid.now.down) (all_columns grid.now) (all_rows grid.now)) }
    ensures memory { IsOkUnless result OutOfMemory }
{
    let (width, height) = grid.pixels();
    let (columns, rows) = grid.sides();
    text.push_str("<svg xmlns=\"http://www.w3.org/2000/svg\" version=\"1.1\"")?;
    push_between(text, " id=\"", frame.id, "\"")?;
    push_between(text, " class=\"", frame.class, "\"")?;
    push_size(text, frame.size, width, height)?;
    push_box(text, frame.size, columns, rows)?;
    push_between(text, "<title>", frame.title, "</title>")?;
    push_between(text, "<desc>", frame.description, "</desc>")?;
    Ok(())
}

// Appends `value`, escaped, between `before` and `after`, or nothing if it is empty.
fn push_between(text: &mut String, before: &str, value: &str, after: &str) -> QrResult<()>
    ensures appends { OnOk result (string_bytes text.new
        ≡ string_bytes text.old ++ between before.now value.now after.now) }
    ensures memory { IsOkUnless result OutOfMemory }
{
    if value.is_empty() {
        return Ok(());
    }
    text.push_str(before)?;
    push_attribute(text, value)?;
    text.push_str(after)?;
    Ok(())
}

// Appends the attributes of width and height, unless the size is `Free`.
fn push_size(text: &mut String, size: Size, width: u32, height: u32) -> QrResult<()>
    ensures appends { OnOk result (string_bytes text.new
        ≡ string_bytes text.old ++ size_text size width height) }
    ensures memory { IsOkUnless result OutOfMemory }
{
    if matches!(size, Size::Free) {
        return Ok(());
    }
    text.push_str(" width=\"")?;
    push_side(text, size, width)?;
    text.push_str("\" height=\"")?;
    push_side(text, size, height)?;
    text.push_str("\"")?;
    Ok(())
}

// Appends the length of a side of `pixels` pixels.
fn push_side(text: &mut String, size: Size, pixels: u32) -> QrResult<()>
    ensures appends { OnOk result (string_bytes text.new
        ≡ string_bytes text.old ++ side_text size pixels) }
    ensures memory { IsOkUnless result OutOfMemory }
{
    match size {
        Size::Dots(dots) => {
            let side = u64::from(pixels) * 25400 / u64::from(dots.max(1));
            let (hundreds, tens, ones) = (side / 100 % 10, side / 10 % 10, side % 10);
            write!(text, "{}.{hundreds}{tens}{ones}mm", side / 1000)?;
        }
        _ => write!(text, "{pixels}")?,
    }
    Ok(())
}

// Appends the `viewBox`, in cells. The picture is stretched to the element's width and height, or
// keeps its shape if these are not set.
fn push_box(text: &mut String, size: Size, columns: usize, rows: usize) -> QrResult<()>
    ensures appends { OnOk result (string_bytes text.new
        ≡ string_bytes text.old ++ box_text size columns rows) }
    ensures memory { IsOkUnless result OutOfMemory }
{
    let end = box_end(size);
    write!(text, " viewBox=\"0 0 {columns} {rows}{end}")?;
    Ok(())
}

// Returns what follows the numbers of the `viewBox`.
fn box_end(size: Size) -> &'static str
    ensures { result.now ≡ box_end size }
{
    match size {
        Size::Free => "\" shape-rendering=\"crispEdges\">",
        _ => "\" preserveAspectRatio=\"none\" shape-rendering=\"crispEdges\">",
    }
}

// Appends the light background, up to its colour.
fn push_ground(text: &mut String, columns: usize, rows: usize) -> QrResult<()>
    ensures appends { OnOk result (string_bytes text.new
        ≡ string_bytes text.old ++ path_ground columns rows) }
    ensures memory { IsOkUnless result OutOfMemory }
{
    write!(text, "<rect width=\"{columns}\" height=\"{rows}\" fill=\"")?;
    Ok(())
}

// Appends a character of an attribute's value, escaped.
fn push_character(text: &mut String, character: char) -> QrResult<()>
    ensures appends { OnOk result (string_bytes text.new
        ≡ string_bytes text.old ++ attribute (encode_utf8 character)) }
    ensures memory { IsOkUnless result OutOfMemory }
{
    if character == '"' {
        text.push_str("&quot;")?;
    } else if character == '<' {
        text.push_str("&lt;")?;
    } else if character == '>' {
        text.push_str("&gt;")?;
    } else if character == '&' {
        text.push_str("&amp;")?;
    } else {
        text.push(character)?;
    }
    Ok(())
}

// Appends an attribute's value, escaped.
fn push_attribute(text: &mut String, value: &str) -> QrResult<()>
    ensures appends { OnOk result
        (string_bytes text.new ≡ string_bytes text.old ++ attribute value.now) }
    ensures memory { IsOkUnless result OutOfMemory }
{
    for character in value.chars() {
        push_character(text, character)?;
    }
    Ok(())
}
