//! Theorems about the types, as the contract of a function that does nothing.

ghost use Rattle.std.specs.Prelude.{◌≡◌, ◌↔◌, IsTrue};
ghost use Rattle.qrcode_append.specs.declared.choice.Versions.{Versions};
ghost use Rattle.qrcode_append.specs.declared.errors.JoinError.{JoinError};

use crate::choice::Versions;
use crate::errors::JoinError;

/// Theorem: `==` is true exactly for identical values.
pub fn equality()
    ensures errors { (a b : JoinError) → IsTrue (⟦<JoinError as PartialEq>⟧.eq a b) ↔ (a ≡ b) }
    ensures versions { (a b : Versions) → IsTrue (⟦<Versions as PartialEq>⟧.eq a b) ↔ (a ≡ b) }
{}
