//! Theorems about the character sets, as contracts of functions that do nothing.

ghost use Rattle.qrcode_charsets.specs.Charsets.{CharactersAreApart, TextsAreWrittenOneWay, BytesAreReadOneWay};
ghost use Rattle.qrcode_charsets.specs.Eci.{BytesAreUnderOneWay, WrittenTextsAreUnder};

/// Theorem: in each set of one byte, no two bytes have the same character.
pub fn characters()
    ensures { CharactersAreApart }
{}

/// Theorem: in each set a text is written as one list of bytes, and these are the bytes of no other
/// text.
pub fn texts()
    ensures written { TextsAreWrittenOneWay }
    ensures read { BytesAreReadOneWay }
{}

/// Theorem: the bytes of a text in a set are this text, and no other, under the ECI designator of
/// the set.
pub fn designators()
    ensures written { WrittenTextsAreUnder }
    ensures read { BytesAreUnderOneWay }
{}
