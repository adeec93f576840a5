//! Draws PIC, for troff, with a box for each dark module.

ghost use Rattle.std.proofs.Common.{rules};
ghost use Rattle.qrcode_render.specs.Pic.{pic_start, pic_rect, pic_end};

use crate::Pixel;
use crate::backwards::Backwards;
use crate::strokes::{Plot, Strokes};
use qrcode_types::types::QrResult;
use std::alloc::Global;

/// The only colour of PIC: dark modules are filled boxes, and light ones are not drawn.
#[derive(Copy, Clone, Default, PartialEq, Eq, PartialOrd, Ord, Hash)]
pub struct Color;

impl Pixel for Color {
    type Image = String;

    type Canvas = Canvas;

    ghost unit = { (8, 8) };

    ghost unit_positive = { Prim.search rules };

    ghost is_default_color = { λ _ _. Unit {0} };

    fn default_unit_size() -> (u32, u32) {
        (8, 8)
    }

    fn default_color(_color: qrcode_types::types::Color) -> Color {
        Color
    }
}

/// The canvas for PIC: a box for each dark rectangle.
pub type Canvas = Plot<Color, Boxes>;

/// The texts of the PIC format.
#[derive(Copy, Clone)]
pub struct Boxes;

impl Strokes<Color> for Boxes {
    ghost start = { λ w h dark light. pic_start w h };

    ghost end = { pic_end };

    ghost rect = { pic_rect };

    fn head(alloc: Global, width: u32, height: u32, _: Color, _: Color) -> QrResult<String> {
        Ok(format!(in alloc;
            "maxpswid={width};maxpsht={height};movewid=0;moveht=1;boxwid=1;boxht=1\n\
             define p {{ box wid $3 ht $4 fill 1 with .nw at $1,-$2 }}\n\
             box wid maxpswid ht maxpsht with .nw at 0,0\n"
        )?)
    }

    fn tail() -> &'static str {
        ""
    }

    fn push_rect(text: &mut String, left: u32, top: u32, width: u32, height: u32) -> QrResult<()> {
        let mut line = Backwards::new();
        line.word(")\n");
        line.number(height as u64);
        line.word(",");
        line.number(width as u64);
        line.word(",");
        line.number(top as u64);
        line.word(",");
        line.number(left as u64);
        line.word("p(");
        line.append_to(text)
    }
}
