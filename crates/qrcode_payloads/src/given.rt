//! Where the texts of fields come from.

ghost use Rattle.std.specs.Prelude.{◌≡◌, ℕ, List};
ghost use Rattle.qrcode_contents.specs.declared.fields.errors.Field.{Field};

use qrcode_contents::fields::errors::Field;

/// A source of fields: the options of a program, or the texts of a C caller.
pub trait FieldSource {
    ghost fields: { Self → Field → List ℕ };

    /// Returns the text of `field`; empty if none is given.
    fn text(&self, field: Field) -> &str
        ensures { result.now ≡ fields self.now field };
}
