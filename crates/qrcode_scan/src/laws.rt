//! Theorems about `Unscanned` and texts, and a worked example, as the contracts of functions that do nothing.

ghost use Rattle.std.specs.Prelude.{◌≡◌, ◌↔◌, ◌∷◌, [], map, IsTrue};
ghost use Rattle.std.specs.List.{range_with_len};
ghost use Rattle.qrcode_types.specs.Bits.{number_bits};
ghost use Rattle.qrcode_scan.specs.Texts.{CodesAreShownOneWay, WrittenTextsAreShown};
ghost use Rattle.qrcode_scan.specs.Wholes.{finder_dark};
ghost use Rattle.qrcode_scan.specs.declared.pixels.Unscanned.{Unscanned};

use crate::pixels::Unscanned;

/// Theorem: two values are equal by `==` exactly when they are the same.
pub fn equality()
    ensures { (a b : Unscanned) → IsTrue (⟦<Unscanned as PartialEq>⟧.eq a b) ↔ (a ≡ b) }
{}

/// Theorem: what is read of a text that `qrcode_charsets` wrote in any of its sets is shown as this
/// text, even if the symbol is damaged within the promise; and what is read is shown as one text at
/// most.
pub fn texts()
    ensures written { WrittenTextsAreShown }
    ensures only { CodesAreShownOneWay }
{}

/// Example: the rows of a finder pattern, 1 for dark: 1111111, 1000001, 1011101 three times, and
/// the first two again.
pub fn finder_pattern()
    ensures { map (λ j. map (λ i. finder_dark i j) (range_with_len 0 7)) (range_with_len 0 7)
        ≡ map (number_bits 7) (127 ∷ 65 ∷ 93 ∷ 93 ∷ 93 ∷ 65 ∷ 127 ∷ []) }
{}
