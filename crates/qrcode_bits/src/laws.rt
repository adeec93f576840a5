//! Theorems about the types, as the contract of a function that does nothing.

ghost use Rattle.std.specs.Prelude.{◌≡◌, ◌↔◌, IsTrue};
ghost use Rattle.qrcode_bits.specs.declared.bits.manner.Manner.{Manner};
ghost use Rattle.qrcode_bits.specs.declared.optimize.Segment.{Segment};
ghost use Rattle.qrcode_bits.specs.declared.optimize.mode_sets.Modes.{Modes};

use crate::bits::Manner;
use crate::optimize::{Modes, Segment};

/// Theorem: `==` is true exactly for identical values.
pub fn equality()
    ensures segments { (a b : Segment) → IsTrue (⟦<Segment as PartialEq>⟧.eq a b) ↔ (a ≡ b) }
    ensures mode_sets { (a b : Modes) → IsTrue (⟦<Modes as PartialEq>⟧.eq a b) ↔ (a ≡ b) }
    ensures manners { (a b : Manner) → IsTrue (⟦<Manner as PartialEq>⟧.eq a b) ↔ (a ≡ b) }
{}
