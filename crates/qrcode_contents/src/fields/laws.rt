//! Theorems about `==` on the types of `fields`.

ghost use Rattle.std.specs.Prelude.{◌≡◌, ◌↔◌, IsTrue};
ghost use Rattle.qrcode_contents.specs.declared.fields.errors.Cause.{Cause};
ghost use Rattle.qrcode_contents.specs.declared.fields.errors.ContentError.{ContentError};
ghost use Rattle.qrcode_contents.specs.declared.fields.errors.Field.{Field};
ghost use Rattle.qrcode_contents.specs.declared.fields.escapes.Escapes.{Escapes};
ghost use Rattle.qrcode_contents.specs.declared.fields.links.LinkPart.{LinkPart};

use crate::fields::errors::{Cause, ContentError, Field};
use crate::fields::escapes::Escapes;
use crate::fields::links::LinkPart;

/// Theorem: two values of these types are equal by `==` exactly if they are the same.
pub fn equality()
    ensures fields { (a b : Field) → IsTrue (⟦<Field as PartialEq>⟧.eq a b) ↔ (a ≡ b) }
    ensures reasons { (a b : Cause) → IsTrue (⟦<Cause as PartialEq>⟧.eq a b) ↔ (a ≡ b) }
    ensures escapes { (a b : Escapes) → IsTrue (⟦<Escapes as PartialEq>⟧.eq a b) ↔ (a ≡ b) }
    ensures parts { (a b : LinkPart) → IsTrue (⟦<LinkPart as PartialEq>⟧.eq a b) ↔ (a ≡ b) }
{}

/// Theorem: two errors are equal by `==` exactly if they are the same.
pub fn error_equality()
    ensures { (a b : ContentError) → IsTrue (⟦<ContentError as PartialEq>⟧.eq a b) ↔ (a ≡ b) }
{
    equality();
}
