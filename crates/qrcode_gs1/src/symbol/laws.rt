//! Theorems about types that belong to no call: the contract of a function that does nothing.

ghost use Rattle.std.specs.Prelude.{◌≡◌, ◌↔◌, IsTrue};
ghost use Rattle.qrcode_gs1.specs.declared.symbol.Fnc1.{Fnc1};
ghost use Rattle.qrcode_gs1.specs.declared.symbol.errors.SymbolError.{SymbolError};

use crate::symbol::Fnc1;
use crate::symbol::errors::SymbolError;

/// Theorem: two values are equal by `==` exactly if they are the same.
pub fn equality()
    ensures positions { (a b : Fnc1) → IsTrue (⟦<Fnc1 as PartialEq>⟧.eq a b) ↔ (a ≡ b) }
    ensures errors { (a b : SymbolError)
        → IsTrue (⟦<SymbolError as PartialEq>⟧.eq a b) ↔ (a ≡ b) }
{}
