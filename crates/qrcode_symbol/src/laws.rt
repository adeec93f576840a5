//! A theorem about modules; it is the contract of a function that does nothing.

ghost use Rattle.std.specs.Prelude.{◌≡◌, ◌↔◌, IsTrue};
ghost use Rattle.qrcode_symbol.specs.declared.canvas.Module.{Module};

use crate::canvas::Module;

/// Theorem: two modules are equal by `==` exactly if they are the same.
pub fn equality()
    ensures { (a b : Module) → IsTrue (⟦<Module as PartialEq>⟧.eq a b) ↔ (a ≡ b) }
{}
