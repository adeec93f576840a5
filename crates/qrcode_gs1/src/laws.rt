//! Theorems about types that belong to no call: the contract of a function that does nothing.

ghost use Rattle.std.specs.Prelude.{◌≡◌, ◌↔◌, IsTrue};
ghost use Rattle.qrcode_gs1.specs.Items.{item};
ghost use Rattle.qrcode_gs1.specs.declared.elements.Element.{Element};
ghost use Rattle.qrcode_gs1.specs.declared.errors.Cause.{Cause};
ghost use Rattle.qrcode_gs1.specs.declared.errors.Gs1Error.{Gs1Error};

use crate::elements::Element;
use crate::errors::{Cause, Gs1Error};

/// Theorem: two values are equal by `==` exactly if they are the same; two elements, if their
/// identifiers and values are.
pub fn equality()
    ensures reasons { (a b : Cause) → IsTrue (⟦<Cause as PartialEq>⟧.eq a b) ↔ (a ≡ b) }
    ensures errors { (a b : Gs1Error) → IsTrue (⟦<Gs1Error as PartialEq>⟧.eq a b) ↔ (a ≡ b) }
    ensures elements { (a b : Element)
        → IsTrue (⟦<Element<'static> as PartialEq>⟧.eq a b) ↔ (item a ≡ item b) }
{}
