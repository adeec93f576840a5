//! Theorems that no other call states, as contracts of functions that do nothing.

ghost use Rattle.std.specs.Prelude.{◌≡◌, ◌≢◌, ◌↔◌, ℕ, List, IsTrue};
ghost use Rattle.qrcode_sheets.specs.Drawn.{IsSheetFile};
ghost use Rattle.qrcode_sheets.specs.Sheets.{Sheet};
ghost use Rattle.qrcode_sheets.specs.declared.formats.Format.{Format};
ghost use Rattle.qrcode_sheets.specs.declared.formats.Format.TheVariants.{Pdf, Png, SvgPath, Zpl};
ghost use Rattle.goqlanis_buffers.specs.Drawings.{IsPictureIn};
ghost use Rattle.goqlanis_buffers.specs.declared.answers.Refusal.{Refusal};
ghost use Rattle.goqlanis_buffers.specs.declared.pictures.Drawing.{Drawing};

use crate::answers::Refusal;

/// Theorem: two errors are equal by `==` exactly if they are the same.
pub fn equality()
    ensures { (a b : Refusal) → IsTrue (⟦<Refusal as PartialEq>⟧.eq a b) ↔ (a ≡ b) }
{}

/// Theorem: a drawing has only one picture in each format, except PNG, PDF, ZPL and SVG of one
/// path, which are defined by what they show; and so has what C asks for. So its length is the
/// same whichever call draws it.
#[tactic(auto, using(crate::proofs::OnePicture::one_picture))]
pub fn pictures()
    ensures one { (f : Format) (t : Sheet) (a b : List ℕ) → f ≢ Png → f ≢ SvgPath → f ≢ Pdf
        → f ≢ Zpl → IsSheetFile f t a → IsSheetFile f t b → a ≡ b }
    ensures in_c { (f : Format) (modules : List ℕ) (width : ℕ) (d : Drawing) (a b : List ℕ)
        → f ≢ Png → f ≢ SvgPath → f ≢ Pdf → f ≢ Zpl → IsPictureIn f modules width d a
        → IsPictureIn f modules width d b → a ≡ b }
{}
