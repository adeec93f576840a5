//! Theorems about the types of this crate, as contracts of a function that does nothing.

ghost use Rattle.std.specs.Prelude.{◌≡◌, ◌↔◌, IsTrue};
ghost use Rattle.qrcode_reader.specs.declared.refusals.Unread.{Unread};
ghost use Rattle.qrcode_reader.specs.declared.refusals.UnreadText.{UnreadText};
ghost use Rattle.qrcode_reader.specs.declared.positions.Position.{Position};
ghost use Rattle.qrcode_reader.specs.declared.correct.Damaged.{Damaged};
ghost use Rattle.qrcode_reader.specs.declared.correction.WrongCodeword.{WrongCodeword};
ghost use Rattle.qrcode_reader.specs.declared.spell.headers.Header.{Header};
ghost use Rattle.qrcode_reader.specs.declared.spell.parts.Part.{Part};
ghost use Rattle.qrcode_reader.specs.declared.spell.refusals.Unspelled.{Unspelled};
ghost use Rattle.qrcode_reader.specs.declared.spell.refusals.Unshown.{Unshown};

use crate::correct::Damaged;
use crate::correction::WrongCodeword;
use crate::positions::Position;
use crate::refusals::{Unread, UnreadText};
use crate::spell::{Header, Part, Unshown, Unspelled};

/// Theorem: two values are equal by `==` exactly when they are the same.
pub fn equality()
    ensures refusals { (a b : Unread) → IsTrue (⟦<Unread as PartialEq>⟧.eq a b) ↔ (a ≡ b) }
    ensures texts { (a b : UnreadText)
        → IsTrue (⟦<UnreadText as PartialEq>⟧.eq a b) ↔ (a ≡ b) }
    ensures positions { (a b : Position)
        → IsTrue (⟦<Position as PartialEq>⟧.eq a b) ↔ (a ≡ b) }
    ensures damaged { (a b : Damaged) → IsTrue (⟦<Damaged as PartialEq>⟧.eq a b) ↔ (a ≡ b) }
    ensures codewords { (a b : WrongCodeword)
        → IsTrue (⟦<WrongCodeword as PartialEq>⟧.eq a b) ↔ (a ≡ b) }
    ensures headers { (a b : Header) → IsTrue (⟦<Header as PartialEq>⟧.eq a b) ↔ (a ≡ b) }
    ensures parts { (a b : Part) → IsTrue (⟦<Part as PartialEq>⟧.eq a b) ↔ (a ≡ b) }
    ensures unspelled { (a b : Unspelled) → IsTrue (⟦<Unspelled as PartialEq>⟧.eq a b) ↔ (a ≡ b) }
    ensures unshown { (a b : Unshown) → IsTrue (⟦<Unshown as PartialEq>⟧.eq a b) ↔ (a ≡ b) }
{}
