//! Theorems that belong to no call, as contracts of functions that do nothing.

ghost use Rattle.std.specs.Prelude.{◌≡◌, ◌↔◌, IsTrue};
ghost use Rattle.qrcode_sheets.specs.declared.formats.Colours.{Colours};
ghost use Rattle.qrcode_sheets.specs.declared.formats.Density.{Density};
ghost use Rattle.qrcode_sheets.specs.declared.formats.Format.{Format};
ghost use Rattle.qrcode_sheets.specs.declared.formats.LogoForm.{LogoForm};

use crate::formats::{Colours, Density, Format, LogoForm};

/// Theorem: two values are equal by `==` exactly when they are the same.
pub fn equality()
    ensures formats { (a b : Format) → IsTrue (⟦<Format as PartialEq>⟧.eq a b) ↔ (a ≡ b) }
    ensures colours { (a b : Colours) → IsTrue (⟦<Colours as PartialEq>⟧.eq a b) ↔ (a ≡ b) }
    ensures density { (a b : Density) → IsTrue (⟦<Density as PartialEq>⟧.eq a b) ↔ (a ≡ b) }
    ensures middle { (a b : LogoForm) → IsTrue (⟦<LogoForm as PartialEq>⟧.eq a b) ↔ (a ≡ b) }
{}
