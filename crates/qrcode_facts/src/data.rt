//! Worked rows for segments and data bits.
#![tactic(auto, unfolding(qrcode_types::specs::Bits::number_bits, qrcode_types::specs::Bits::number_of, qrcode_types::specs::Bits::byte_at, qrcode_types::specs::Bits::bytes_of, qrcode_types::specs::Tables::block_table, qrcode_types::specs::Versions::blocks_entry, qrcode_types::specs::Versions::block_lengths, qrcode_types::specs::Versions::data_length, qrcode_types::specs::Versions::capacity, qrcode_types::specs::Characters::alphabet, qrcode_types::specs::Characters::is_alphanumeric, qrcode_types::specs::Characters::alphanumeric_number, qrcode_types::specs::Characters::is_kanji, qrcode_types::specs::Characters::kanji_number, qrcode_bits::specs::Written::padding, qrcode_bits::specs::Written::ending, qrcode_bits::specs::Written::terminated, qrcode_bits::specs::StructuredAppend::append_header))]

ghost use Rattle.std.specs.Prelude.{◌≡◌, pos, [], ◌∷◌, ◌++◌, codes, map, replicate};
ghost use Rattle.qrcode_types.specs.Bits.{bytes_of};
ghost use Rattle.qrcode_types.specs.Versions.{capacity};
ghost use Rattle.qrcode_types.specs.declared.types.Version.TheVariants.{Normal, Micro};
ghost use Rattle.qrcode_types.specs.declared.types.EcLevel.TheVariants.{L, Q, H};
ghost use Rattle.qrcode_types.specs.declared.types.Mode.TheVariants.{Numeric, Alphanumeric, Byte, Kanji};
ghost use Rattle.qrcode_bits.specs.Segments.{cost, total_cost};
ghost use Rattle.qrcode_bits.specs.Runs.{runs};
ghost use Rattle.qrcode_bits.specs.Grouping.{grouping};
ghost use Rattle.qrcode_bits.specs.Written.{written, written_piece, terminated};
ghost use Rattle.qrcode_bits.specs.Spelling.{Spells};
ghost use Rattle.qrcode_bits.specs.StructuredAppend.{parity, append_front};
ghost use Rattle.qrcode_facts.specs.Data.{segment, piece, digits, normal_bits, micro_bits, normal_data, hello_data, first_of_pi, second_of_pi, eleventh_of_pi, part_of_pi};

/// Runs of data, and how they are joined: digits before a letter join it in Normal 1 but not in
/// Micro 2; a lone byte that could begin a Kanji pair is a run of its own.
pub fn runs_and_groups()
    ensures digits { runs (codes "1234567A") ≡ segment Numeric 0 7 ∷ segment Alphanumeric 7 8 ∷ [] }
    ensures joined { grouping (Normal (pos 1)) (runs (codes "1234567A"))
        ≡ segment Alphanumeric 0 8 ∷ [] }
    ensures parted { grouping (Micro (pos 2)) (runs (codes "123A"))
        ≡ segment Numeric 0 3 ∷ segment Alphanumeric 3 4 ∷ [] }
    ensures leads { runs (0xEB ∷ 0xC0 ∷ []) ≡ segment Byte 0 1 ∷ segment Byte 1 2 ∷ [] }
    ensures no_leads { runs (0xEC ∷ 0xC0 ∷ []) ≡ segment Byte 0 2 ∷ [] }
    ensures leads_joined { grouping (Normal (pos 1)) (runs (0xEB ∷ 0xC0 ∷ []))
        ≡ segment Byte 0 2 ∷ [] }
    ensures pairs { runs (0x82 ∷ 0xA0 ∷ 0x81 ∷ 0x41 ∷ 0x41 ∷ 0xB1 ∷ 0x81 ∷ 0xF0 ∷ [])
        ≡ segment Kanji 0 4 ∷ segment Alphanumeric 4 5 ∷ segment Byte 5 6 ∷ segment Kanji 6 8 ∷ [] }
{}

/// The bits that segments take, apart and joined; joining runs does not always give the fewest.
pub fn costs()
    ensures apart { map (cost (Normal (pos 1))) (runs (codes "1234567A")) ≡ 38 ∷ 19 ∷ [] }
    ensures joined { cost (Normal (pos 1)) (segment Alphanumeric 0 8) ≡ 57 }
    ensures micro_apart { map (cost (Micro (pos 2))) (runs (codes "123A")) ≡ 15 ∷ 10 ∷ [] }
    ensures micro_joined { cost (Micro (pos 2)) (segment Alphanumeric 0 4) ≡ 26 }
    ensures grouped { total_cost (Normal (pos 1))
        (grouping (Normal (pos 1)) (runs (codes "a1234b"))) ≡ 68 }
    ensures one_segment { cost (Normal (pos 1)) (segment Byte 0 6) ≡ 60 }
{}

/// The bits of digits in three versions, without and with terminator and padding.
pub fn written_digits()
    ensures written { bytes_of (written_piece (Normal (pos 1)) digits)
        ≡ 0x10 ∷ 0x20 ∷ 0x0C ∷ 0x56 ∷ 0x61 ∷ 0x80 ∷ [] }
    ensures ended { bytes_of normal_bits ≡ normal_data }
    ensures spelled { Spells (Normal (pos 1)) normal_bits (codes "01234567") }
    ensures micro { bytes_of micro_bits ≡ 0x40 ∷ 0x18 ∷ 0xAC ∷ 0xC3 ∷ 0x00 ∷ [] }
    ensures micro_spelled { Spells (Micro (pos 2)) micro_bits (codes "01234567") }
    ensures nines { bytes_of (terminated (Micro (pos 1)) L
        (written_piece (Micro (pos 1)) (piece Numeric (codes "99999"))))
        ≡ 0xBF ∷ 0x3E ∷ 0x30 ∷ [] }
{}

/// The bits of letters, Kanji and bytes, and of symbols whose last codeword has four bits.
pub fn written_text()
    ensures hello { bytes_of (terminated (Normal (pos 1)) Q
        (written_piece (Normal (pos 1)) (piece Alphanumeric (codes "HELLO WORLD"))))
        ≡ hello_data }
    ensures pairs { bytes_of (written_piece (Normal (pos 1))
        (piece Kanji (0x93 ∷ 0x5F ∷ 0xE4 ∷ 0xAA ∷ [])))
        ≡ 0x80 ∷ 0x26 ∷ 0xCF ∷ 0xEA ∷ 0xA8 ∷ [] }
    ensures bytes { bytes_of (terminated (Normal (pos 1)) H
        (written_piece (Normal (pos 1)) (piece Byte (codes "a1234bc"))))
        ≡ 0x40 ∷ 0x76 ∷ 0x13 ∷ 0x13 ∷ 0x23 ∷ 0x33 ∷ 0x46 ∷ 0x26 ∷ 0x30 ∷ [] }
    ensures half { bytes_of (terminated (Micro (pos 3)) L
        (written_piece (Micro (pos 3)) (piece Numeric (replicate 20 48))))
        ≡ 0x28 ∷ replicate 10 0 }
    ensures twice { bytes_of (terminated (Micro (pos 1)) L (written (Micro (pos 1))
        (piece Numeric (codes "1") ∷ piece Numeric (codes "1") ∷ [])))
        ≡ 0x22 ∷ 0x44 ∷ 0x00 ∷ [] }
{}

/// Structured append as segno writes it: a parity, and sixty digits of pi in two and in sixteen
/// symbols. A single symbol has no header.
pub fn parts_of_digits()
    ensures parity { parity (codes "0123456789" ++ (0x93 ∷ 0xFA ∷ 0x96 ∷ 0x7B ∷ [])) ≡ 0x85 }
    ensures first { bytes_of (part_of_pi 0 1 (codes "314159265358979323846264338327"))
        ≡ first_of_pi }
    ensures second { bytes_of (part_of_pi 1 1 (codes "950288419716939937510582097494"))
        ≡ second_of_pi }
    ensures eleventh { bytes_of (part_of_pi 10 15 (codes "1693")) ≡ eleventh_of_pi }
    ensures alone { append_front 0 0 0x85 ≡ [] }
{}

/// Table 7: the data bits of some versions at level L.
pub fn capacities()
    ensures { map (λ n. capacity (Normal (pos n)) L) (1 ∷ 2 ∷ 4 ∷ 5 ∷ 39 ∷ 40 ∷ [])
        ≡ 152 ∷ 272 ∷ 640 ∷ 864 ∷ 22496 ∷ 23648 ∷ [] }
{}
