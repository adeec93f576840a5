//! A user-defined element: one word for dark modules, another for light ones.

ghost use Rattle.std.proofs.Common.{rules};

use qrcode::render::string::Element;
use qrcode::render::{Pixel, string};
use qrcode::types::{Color, QrResult};

/// The word `ink` for a dark module, `-` for a light one.
#[derive(Clone, Copy)]
pub struct Word(pub bool);

impl Element for Word {
    ghost use Rattle.std.specs.Prelude.{◌≡◌, codes, if◌then◌else◌};
    ghost use Rattle.qrcode_types.specs.Colors.{is_dark};

    ghost text = { λ word. if word.0 then codes "ink" else codes "-" };

    ghost is_default = { λ c word. word.0 ≡ is_dark c };

    fn default_color(color: Color) -> Word {
        Word(color == Color::Dark)
    }

    fn strlen(self) -> usize {
        if self.0 { 3 } else { 1 }
    }

    fn append_to_string(self, string: &mut String) -> QrResult<()> {
        if self.0 {
            string.push_str("ink")?;
        } else {
            string.push_str("-")?;
        }
        Ok(())
    }
}

impl Pixel for Word {
    ghost use Rattle.std.specs.Prelude.{◌≡◌};
    ghost use Rattle.qrcode_types.specs.Colors.{is_dark};

    type Image = String;

    type Canvas = string::Canvas<Word>;

    ghost unit = { (2, 1) };

    ghost unit_positive = { Prim.search rules };

    ghost is_default_color = { λ c word. word.0 ≡ is_dark c };

    fn default_unit_size() -> (u32, u32) {
        (2, 1)
    }

    fn default_color(color: Color) -> Word {
        <Word as Element>::default_color(color)
    }
}
