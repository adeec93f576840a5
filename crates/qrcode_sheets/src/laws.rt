//! A theorem about pixels, as the contract of a function that does nothing.

ghost use Rattle.std.specs.Prelude.{◌≡◌, ◌↔◌, IsTrue};
ghost use Rattle.qrcode_sheets.specs.declared.eps.Color as eps;
ghost use Rattle.qrcode_sheets.specs.declared.pbm.Bit.{Bit};
ghost use Rattle.qrcode_sheets.specs.declared.pgm.Grey.{Grey};
ghost use Rattle.qrcode_sheets.specs.declared.svg_path.Path.{Path};
ghost use Rattle.qrcode_sheets.specs.declared.svg_path.PathElement.{PathElement};

use crate::eps;
use crate::pbm::Bit;
use crate::pgm::Grey;
use crate::svg_path::{Path, PathElement};

/// Theorem: two pixels are equal by `==` exactly when they are the same, or, for those that are
/// texts, when these have the same bytes.
pub fn equality<'a>()
    ensures bits { (a b : Bit) → IsTrue (⟦<Bit as PartialEq>⟧.eq a b) ↔ (a ≡ b) }
    ensures greys { (a b : Grey) → IsTrue (⟦<Grey as PartialEq>⟧.eq a b) ↔ (a ≡ b) }
    ensures eps { (a b : eps.Color) → IsTrue (⟦<eps::Color as PartialEq>⟧.eq a b) ↔ (a ≡ b) }
    ensures paths { (a b : Path) → IsTrue (⟦<Path<'a> as PartialEq>⟧.eq a b) ↔ (a.0.now ≡ b.0.now) }
    ensures elements { (a b : PathElement) → IsTrue (⟦<PathElement<'a> as PartialEq>⟧.eq a b)
        ↔ (a.0.now ≡ b.0.now) }
{}
