//! Worked rows for symbols: places, error correction, penalties, printed symbols and damage.

ghost use Rattle.std.specs.Prelude.{◌≡◌, pos, false, [], ◌∷◌, ◌++◌, map, length};
ghost use Rattle.std.specs.List.{range_with_len};
ghost use Rattle.qrcode_types.specs.declared.types.Version.TheVariants.{Normal, Micro};
ghost use Rattle.qrcode_types.specs.declared.types.EcLevel.TheVariants.{L, M};
ghost use Rattle.qrcode_ec.specs.Codes.{Vanishes};
ghost use Rattle.qrcode_layout.specs.Stream.{free_places};
ghost use Rattle.qrcode_layout.specs.declared.masks.MaskPattern.TheVariants.{VerticalLines, LargeCheckerboard};
ghost use Rattle.qrcode_penalty.specs.Penalty.{normal_penalty};
ghost use Rattle.qrcode_symbol.specs.Symbol.{IsSymbol, IsDamaged};
ghost use Rattle.qrcode_symbol.specs.Penalties.{penalty, remasked, IsFirstLeast};
ghost use Rattle.qrcode_symbol.specs.Reading.{ReadsBits};
ghost use Rattle.qrcode_facts.specs.Printed.{masks, micro_masks};
ghost use Rattle.qrcode_facts.specs.Data.{normal_bits, micro_bits, hello_data};
ghost use Rattle.qrcode_facts.specs.Squares.{normal_square, micro_square, damaged_square, too_damaged_square, wrong_format_square};

/// The number of data modules in Normal 1 and in the four Micro versions.
pub fn free_places()
    ensures normal { length (free_places (Normal (pos 1))) ≡ 208 }
    ensures micro { map (λ n. length (free_places (Micro (pos n)))) (range_with_len 1 4)
        ≡ 36 ∷ 80 ∷ 132 ∷ 192 ∷ [] }
{}

/// Published blocks: data and then error correction, which together vanish.
#[tactic(auto, using(crate::proofs::CodeRows::ten, crate::proofs::CodeRows::thirteen))]
pub fn corrections()
    ensures ten { Vanishes
        (hello_data ++ (0x11 ∷ 0xEC ∷ 0x11
        ∷ 0xC4 ∷ 0x23 ∷ 0x27 ∷ 0x77 ∷ 0xEB ∷ 0xD7 ∷ 0xE7 ∷ 0xE2 ∷ 0x5D ∷ 0x17 ∷ [])) 10 }
    ensures thirteen { Vanishes
        (hello_data ++ (0xA8 ∷ 0x48 ∷ 0x16 ∷ 0x52 ∷ 0xD9 ∷ 0x36 ∷ 0x9C ∷ 0x00 ∷ 0x2E ∷ 0x0F
        ∷ 0xB4 ∷ 0x7A ∷ 0x10 ∷ [])) 13 }
{}

/// The penalties of an all-light square, and of the printed symbols under each mask.
pub fn penalties()
    ensures light { normal_penalty 21 (λ x y. false) ≡ 2098 }
    ensures normal { map (λ k. penalty (Normal (pos 1))
        (remasked (Normal (pos 1)) M VerticalLines k normal_square)) masks
        ≡ 1058 ∷ 1097 ∷ 1040 ∷ 1054 ∷ 1137 ∷ 1202 ∷ 1102 ∷ 1046 ∷ [] }
    ensures micro { map (λ k. penalty (Micro (pos 2))
        (remasked (Micro (pos 2)) L LargeCheckerboard k micro_square)) micro_masks
        ≡ 132 ∷ 68 ∷ 68 ∷ 136 ∷ [] }
{}

/// The printed symbol of `01234567` in Normal 1 is the symbol of its bits under the first mask of
/// lowest penalty, and decodes to these bits.
#[tactic(auto, using(crate::proofs::SymbolRows::normal_symbol, crate::proofs::LeastRows::normal, crate::proofs::SymbolRows::normal_read))]
pub fn normal_symbol()
    ensures symbol { IsSymbol (Normal (pos 1)) M normal_bits VerticalLines normal_square }
    ensures first_least { IsFirstLeast (Normal (pos 1)) M VerticalLines normal_square }
    ensures read { ReadsBits normal_square (Normal (pos 1)) M normal_bits }
{}

/// A square that differs from that symbol in five codewords, three bits of each copy of the format
/// word and all finder patterns still counts as that symbol damaged, and decodes to the same bits.
#[tactic(auto, using(crate::proofs::DamageRows::damaged, crate::proofs::DamageRows::read))]
pub fn damaged_symbol()
    ensures damaged { IsDamaged (Normal (pos 1)) M VerticalLines normal_square damaged_square }
    ensures read { ReadsBits damaged_square (Normal (pos 1)) M normal_bits }
{}

/// With a sixth wrong codeword, one more than half of the error correction codewords, the damage is
/// too large.
#[tactic(auto, using(crate::proofs::DamageRows::too_damaged))]
pub fn too_damaged_symbol()
    ensures { ¬ IsDamaged (Normal (pos 1)) M VerticalLines normal_square too_damaged_square }
{}

/// So it is with a fourth wrong bit in a copy of the format word.
#[tactic(auto, using(crate::proofs::DamageRows::wrong_format))]
pub fn wrong_format()
    ensures { ¬ IsDamaged (Normal (pos 1)) M VerticalLines normal_square wrong_format_square }
{}

/// The same as `normal_symbol` for the printed symbol of these digits in Micro 2.
#[tactic(auto, using(crate::proofs::SymbolRows::micro_symbol, crate::proofs::LeastRows::micro, crate::proofs::SymbolRows::micro_read))]
pub fn micro_symbol()
    ensures symbol { IsSymbol (Micro (pos 2)) L micro_bits LargeCheckerboard micro_square }
    ensures first_least { IsFirstLeast (Micro (pos 2)) L LargeCheckerboard micro_square }
    ensures read { ReadsBits micro_square (Micro (pos 2)) L micro_bits }
{}
