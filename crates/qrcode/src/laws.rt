//! Theorems about decoding, as contracts of functions that do nothing.

ghost use Rattle.qrcode.specs.Reading.{BitsAreReadOneWay, BytesAreReadOneWay};
ghost use Rattle.qrcode.specs.Texts.{TextsAreShown};

/// Theorem: no square of modules, symbol or not, can be decoded in two ways. Its version, level,
/// bits and bytes are the same in every decoding.
pub fn reading()
    ensures bits { BitsAreReadOneWay }
    ensures bytes { BytesAreReadOneWay }
{}

/// Theorem: if readers show the bits of a symbol as a text, and as no other, they show exactly this
/// text for each square within the promised damage.
pub fn texts()
    ensures { TextsAreShown }
{}
