//! Worked rows for format words and version words.
#![tactic(auto, unfolding(qrcode_types::specs::Bits::number_bits, qrcode_layout::specs::Words::format_word, qrcode_layout::specs::Words::version_word, qrcode_layout::specs::Words::with_check_bits, qrcode_types::specs::Polynomials::remainder_from, qrcode_types::specs::Polynomials::remainder))]

ghost use Rattle.std.specs.Prelude.{◌≡◌, pos, map, flat_map, IsTrue};
ghost use Rattle.std.specs.List.{range_with_len};
ghost use Rattle.qrcode_types.specs.declared.types.Version.TheVariants.{Normal, Micro};
ghost use Rattle.qrcode_layout.specs.Words.{format_word, version_word};
ghost use Rattle.qrcode_facts.specs.Printed.{normal_words, micro_words, version_words, masks, micro_masks, levels, micro_pairs, are_apart};

/// The format words are the printed ones; any two of Micro differ in at least seven bits.
pub fn format_words()
    ensures normal { flat_map (λ l. map (format_word (Normal (pos 1)) l) masks) levels
        ≡ normal_words }
    ensures micro { flat_map (λ p. map (format_word (Micro (pos p.0)) p.1) micro_masks) micro_pairs
        ≡ micro_words }
    ensures micro_apart { IsTrue (are_apart 7 micro_words) }
{}

/// The version words are the printed ones.
pub fn version_words()
    ensures { map version_word (range_with_len 7 34) ≡ version_words }
{}
