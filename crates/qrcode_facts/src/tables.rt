//! Worked rows from the tables of the standard (ISO/IEC 18004:2006).
#![tactic(auto, unfolding(qrcode_types::specs::Bits::number_bits, qrcode_bits::specs::Written::eci_bits, qrcode_types::specs::Characters::alphabet, qrcode_types::specs::Characters::is_alphanumeric, qrcode_types::specs::Characters::alphanumeric_number, qrcode_types::specs::Characters::is_kanji, qrcode_types::specs::Characters::kanji_number, qrcode_types::specs::Tables::block_table, qrcode_types::specs::Versions::blocks_entry))]

ghost use Rattle.std.specs.Prelude.{◌≡◌, ◌-◌, ◌/◌, ◌%◌, pos, true, false, [], ◌∷◌, codes, map, flat_map};
ghost use Rattle.std.specs.List.{range_with_len};
ghost use Rattle.qrcode_types.specs.Bits.{number_bits};
ghost use Rattle.qrcode_types.specs.Characters.{is_digit, is_alphanumeric, alphanumeric_number, is_kanji, kanji_number};
ghost use Rattle.qrcode_types.specs.Modes.{mode_bits_count, indicator, has_mode, length_bits_count, mode_max};
ghost use Rattle.qrcode_types.specs.Versions.{is_valid, side, remainder_bits, ec_length, terminator_length};
ghost use Rattle.qrcode_types.specs.declared.types.Version.TheVariants.{Normal, Micro};
ghost use Rattle.qrcode_types.specs.declared.types.EcLevel.TheVariants.{L, M, Q, H};
ghost use Rattle.qrcode_types.specs.declared.types.Mode.TheVariants.{Numeric, Alphanumeric, Byte, Kanji};
ghost use Rattle.qrcode_ec.specs.Allowed.{misdecode_protection};
ghost use Rattle.qrcode_bits.specs.Written.{eci_bits};
ghost use Rattle.qrcode_facts.specs.Printed.{modes, band_ends, micro_versions, ends_of_pairs, beside_pairs};

/// Table 5: the numbers of the characters after the letters, and of the first and last digit and
/// letter; characters next to these are not in the alphabet.
pub fn marks()
    ensures numbers { map alphanumeric_number (codes " $%*+-./:")
        ≡ 36 ∷ 37 ∷ 38 ∷ 39 ∷ 40 ∷ 41 ∷ 42 ∷ 43 ∷ 44 ∷ [] }
    ensures ends { map alphanumeric_number (codes "09AZ") ≡ 0 ∷ 9 ∷ 10 ∷ 35 ∷ [] }
    ensures neighbours { map is_alphanumeric (codes "!#&'(),;@[az")
        ≡ map (λ c. false) (codes "!#&'(),;@[az") }
    ensures digits { map is_digit (codes "/09:") ≡ false ∷ true ∷ true ∷ false ∷ [] }
{}

/// Table 2: the mode indicators and their lengths in Normal and Micro, and the modes of each Micro
/// version.
pub fn indicators()
    ensures normal { map (indicator (Normal (pos 1))) modes ≡ 1 ∷ 2 ∷ 4 ∷ 8 ∷ [] }
    ensures micro { map (indicator (Micro (pos 4))) modes ≡ 0 ∷ 1 ∷ 2 ∷ 3 ∷ [] }
    ensures bits { mode_bits_count (Normal (pos 40)) ≡ 4 }
    ensures micro_bits { map mode_bits_count micro_versions ≡ 0 ∷ 1 ∷ 2 ∷ 3 ∷ [] }
    ensures micro_modes { map (λ v. map (has_mode v) modes) micro_versions
        ≡ (true ∷ false ∷ false ∷ false ∷ []) ∷ (true ∷ true ∷ false ∷ false ∷ [])
        ∷ (true ∷ true ∷ true ∷ true ∷ []) ∷ (true ∷ true ∷ true ∷ true ∷ []) ∷ [] }
{}

/// Table 3: the length of the character count, in the first and last version of each band.
pub fn length_fields()
    ensures numeric { map (length_bits_count Numeric) band_ends ≡ 10 ∷ 10 ∷ 12 ∷ 12 ∷ 14 ∷ 14 ∷ [] }
    ensures alphanumeric { map (length_bits_count Alphanumeric) band_ends
        ≡ 9 ∷ 9 ∷ 11 ∷ 11 ∷ 13 ∷ 13 ∷ [] }
    ensures byte { map (length_bits_count Byte) band_ends ≡ 8 ∷ 8 ∷ 16 ∷ 16 ∷ 16 ∷ 16 ∷ [] }
    ensures kanji { map (length_bits_count Kanji) band_ends ≡ 8 ∷ 8 ∷ 10 ∷ 10 ∷ 12 ∷ 12 ∷ [] }
    ensures micro { map (λ m. map (length_bits_count m) micro_versions) modes
        ≡ (3 ∷ 4 ∷ 5 ∷ 6 ∷ []) ∷ (2 ∷ 3 ∷ 4 ∷ 5 ∷ [])
        ∷ (2 ∷ 3 ∷ 4 ∷ 5 ∷ []) ∷ (1 ∷ 2 ∷ 3 ∷ 4 ∷ []) ∷ [] }
{}

/// Table 1: the modules along a side and the remainder bits; and which versions exist.
pub fn sizes()
    ensures sides { map side (Normal (pos 1) ∷ Normal (pos 7) ∷ Normal (pos 40) ∷ micro_versions)
        ≡ 21 ∷ 45 ∷ 177 ∷ 11 ∷ 13 ∷ 15 ∷ 17 ∷ [] }
    ensures remainders { map (λ n. remainder_bits (Normal (pos n))) (range_with_len 1 40)
        ≡ 0 ∷ 7 ∷ 7 ∷ 7 ∷ 7 ∷ 7 ∷ 0 ∷ 0 ∷ 0 ∷ 0 ∷ 0 ∷ 0 ∷ 0 ∷ 3 ∷ 3 ∷ 3 ∷ 3 ∷ 3 ∷ 3 ∷ 3
        ∷ 4 ∷ 4 ∷ 4 ∷ 4 ∷ 4 ∷ 4 ∷ 4 ∷ 3 ∷ 3 ∷ 3 ∷ 3 ∷ 3 ∷ 3 ∷ 3 ∷ 0 ∷ 0 ∷ 0 ∷ 0 ∷ 0 ∷ 0 ∷ [] }
    ensures versions { map (λ n. is_valid (Normal (pos n))) (0 ∷ 1 ∷ 40 ∷ 41 ∷ [])
        ≡ false ∷ true ∷ true ∷ false ∷ [] }
    ensures micro_versions { map (λ n. is_valid (Micro (pos n))) (0 ∷ 1 ∷ 4 ∷ 5 ∷ [])
        ≡ false ∷ true ∷ true ∷ false ∷ [] }
{}

/// 6.4.2: ECI designators of one, two and three bytes, at the bounds of each.
pub fn character_sets()
    ensures one { flat_map eci_bits (0 ∷ 127 ∷ []) ≡ number_bits 16 0x007f }
    ensures two { flat_map eci_bits (128 ∷ 16383 ∷ []) ≡ number_bits 32 0x8080bfff }
    ensures three { flat_map eci_bits (16384 ∷ 999999 ∷ []) ≡ number_bits 48 0xc04000cf423f }
{}

/// Tables 2 and 3, 6.4.9: the length of the terminator.
pub fn terminators()
    ensures normal { terminator_length (Normal (pos 1)) ≡ 4 }
    ensures micro { map terminator_length micro_versions ≡ 3 ∷ 5 ∷ 7 ∷ 9 ∷ [] }
{}

/// 6.4.6: Kanji pairs at the ends of each range of bytes, and pairs next to these, which are none;
/// and the numbers of six pairs (the standard prints 0xd9f and 0x1aaa).
pub fn pairs()
    ensures ends { map (λ p. is_kanji (p / 256) (p % 256)) ends_of_pairs
        ≡ map (λ p. true) ends_of_pairs }
    ensures beside { map (λ p. is_kanji (p / 256) (p % 256)) beside_pairs
        ≡ map (λ p. false) beside_pairs }
    ensures numbers { map (λ p. kanji_number (p / 256) (p % 256))
        (0x8140 ∷ 0x935f ∷ 0x9ffc ∷ 0xe040 ∷ 0xe4aa ∷ 0xebbf ∷ [])
        ≡ 0 ∷ 0xd9f ∷ 0x173c ∷ 0x1740 ∷ 0x1aaa ∷ 0x1fff ∷ [] }
{}

/// The smallest mode that holds what either of two modes holds, in the order of `modes`.
pub fn joined_modes()
    ensures { map (λ a. map (mode_max a) modes) modes
        ≡ (Numeric ∷ Alphanumeric ∷ Byte ∷ Byte ∷ [])
        ∷ (Alphanumeric ∷ Alphanumeric ∷ Byte ∷ Byte ∷ [])
        ∷ (Byte ∷ Byte ∷ Byte ∷ Byte ∷ []) ∷ (Byte ∷ Byte ∷ Byte ∷ Kanji ∷ []) ∷ [] }
{}

/// Table 9: how many wrong codewords are corrected in versions that reserve some error correction
/// codewords against misdecoding, and in their neighbours.
pub fn errors()
    ensures normal { map (λ v. map (λ l. (ec_length v l - misdecode_protection v l) / 2)
        (L ∷ M ∷ Q ∷ H ∷ []))
        (Normal (pos 1) ∷ Normal (pos 2) ∷ Normal (pos 3) ∷ Normal (pos 4) ∷ [])
        ≡ (2 ∷ 4 ∷ 6 ∷ 8 ∷ []) ∷ (4 ∷ 8 ∷ 11 ∷ 14 ∷ [])
        ∷ (7 ∷ 13 ∷ 9 ∷ 11 ∷ []) ∷ (10 ∷ 9 ∷ 13 ∷ 8 ∷ []) ∷ [] }
    ensures micro { map (λ v. (ec_length v L - misdecode_protection v L) / 2) micro_versions
        ≡ 0 ∷ 1 ∷ 2 ∷ 3 ∷ [] }
    ensures micro_higher { map (λ v. (ec_length v M - misdecode_protection v M) / 2)
        (Micro (pos 2) ∷ Micro (pos 3) ∷ Micro (pos 4) ∷ []) ≡ 2 ∷ 4 ∷ 5 ∷ [] }
    ensures quartile { (ec_length (Micro (pos 4)) Q - misdecode_protection (Micro (pos 4)) Q) / 2
        ≡ 7 }
{}
