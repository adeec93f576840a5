//! Draws SVG with a rectangle for each dark module.

ghost use Rattle.std.proofs.Common.{rules};
ghost use Rattle.std.specs.Prelude.{◌≡◌, codes, string_bytes, OnOk, IsOkUnless};
ghost use Rattle.qrcode_types.specs.declared.types.QrError.TheVariants.{OutOfMemory};
ghost use Rattle.qrcode_types.specs.Colors.{select_of};
ghost use Rattle.qrcode_render.specs.Svg.{svg_start, svg_rect, svg_end};

use crate::Pixel;
use crate::backwards::Backwards;
use crate::strokes::{Plot, Strokes};
use qrcode_types::types::{Color as ModuleColor, QrResult};
use std::alloc::Global;

/// A colour of SVG. It is written as it is, without escapes.
#[derive(Copy, Clone, Default, PartialEq, Eq, PartialOrd, Ord, Hash)]
pub struct Color<'a>(pub &'a str);

impl<'a> Pixel for Color<'a> {
    type Image = String;

    type Canvas = Canvas<'a>;

    ghost unit = { (8, 8) };

    ghost unit_positive = { Prim.search rules };

    ghost is_default_color = { λ c pixel. pixel.0.now ≡ select_of c (codes "#000") (codes "#fff") };

    fn default_unit_size() -> (u32, u32)
        ensures across { result.0 ≡ 8 }
        ensures down { result.1 ≡ 8 }
    {
        (8, 8)
    }

    fn default_color(color: ModuleColor) -> Color<'a> {
        Color(color.select("#000", "#fff"))
    }
}

/// The canvas for SVG: a path of the dark rectangles on a light background.
pub type Canvas<'a> = Plot<Color<'a>, Paths>;

/// The texts of the SVG format.
#[derive(Copy, Clone)]
pub struct Paths;

impl<'a> Strokes<Color<'a>> for Paths {
    ghost start = { λ w h dark light. svg_start w h dark.0.now light.0.now };

    ghost end = { svg_end };

    ghost rect = { svg_rect };

    fn head(
        alloc: Global,
        width: u32,
        height: u32,
        dark: Color<'a>,
        light: Color<'a>,
    ) -> QrResult<String> {
        let (dark, light) = (dark.0, light.0);
        Ok(format!(in alloc;
            "<?xml version=\"1.0\" standalone=\"yes\"?>\
             <svg xmlns=\"http://www.w3.org/2000/svg\" version=\"1.1\" width=\"{width}\" \
             height=\"{height}\" viewBox=\"0 0 {width} {height}\" shape-rendering=\"crispEdges\">\
             <rect x=\"0\" y=\"0\" width=\"{width}\" height=\"{height}\" fill=\"{light}\"/>\
             <path fill=\"{dark}\" d=\""
        )?)
    }

    fn tail() -> &'static str
        ensures { result.now ≡ svg_end }
    {
        "\"/></svg>"
    }

    fn push_rect(text: &mut String, left: u32, top: u32, width: u32, height: u32) -> QrResult<()>
        ensures appends { OnOk result
            (string_bytes text.new ≡ svg_rect left top width height (string_bytes text.old)) }
        ensures memory { IsOkUnless result OutOfMemory }
    {
        let mut subpath = Backwards::new();
        subpath.number(top as u64);
        subpath.word("V");
        subpath.number(left as u64);
        subpath.word("H");
        subpath.number(height as u64);
        subpath.word("v");
        subpath.number(width as u64);
        subpath.word("h");
        subpath.number(top as u64);
        subpath.word(" ");
        subpath.number(left as u64);
        subpath.word("M");
        subpath.append_to(text)
    }
}
