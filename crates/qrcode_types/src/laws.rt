//! Theorems about the types; each is the contract of a function that does nothing.

ghost use Rattle.std.specs.Prelude.{◌≡◌, ◌↔◌, IsTrue};
ghost use Rattle.qrcode_types.specs.declared.types.QrError.{QrError};
ghost use Rattle.qrcode_types.specs.declared.types.Color.{Color};
ghost use Rattle.qrcode_types.specs.declared.types.Version.{Version};
ghost use Rattle.qrcode_types.specs.declared.types.Mode.{Mode};

use crate::types::{Color, Mode, QrError, Version};
use std::hash::Hash;

/// Theorem: two values are equal by `==` exactly if they are the same. For levels, see
/// `EcLevel::number`.
pub fn equality()
    ensures errors { (a b : QrError) → IsTrue (⟦<QrError as PartialEq>⟧.eq a b) ↔ (a ≡ b) }
    ensures colors { (a b : Color) → IsTrue (⟦<Color as PartialEq>⟧.eq a b) ↔ (a ≡ b) }
    ensures versions { (a b : Version) → IsTrue (⟦<Version as PartialEq>⟧.eq a b) ↔ (a ≡ b) }
    ensures modes { (a b : Mode) → IsTrue (⟦<Mode as PartialEq>⟧.eq a b) ↔ (a ≡ b) }
{}

/// Theorem: two colours feed a hasher the same input exactly if they are the same.
pub fn hashes()
    ensures { (a b : Color)
        → (⟦<Color as Hash>⟧.hash_input a ≡ ⟦<Color as Hash>⟧.hash_input b) ↔ (a ≡ b) }
{}
