//! PNG files of other encoders, which the definitions decode to the symbol that was asked for.

ghost use Rattle.std.specs.Prelude.{◌≡◌, ◌∷◌, [], Some, None};
ghost use Rattle.qrcode_png.specs.Image.{density_of, image_of};
ghost use Rattle.qrcode_facts.specs.Files.{symbol, zint_file, qrencode_file, segno_file, stored_file, filtered_file};

/// Five files: of zint, with a palette and dynamic Huffman codes; of qrencode, with a palette,
/// transparency, 72 pixels per inch and fixed codes; of segno, grey, once four pixels a module and
/// dynamic codes with copies, once a stored block; of Python's zlib, each filter, three blocks and
/// two chunks. Numbers of unit 0, as 1 and 2 here, are no pixels per metre.
pub fn read_as_asked()
    ensures own_codes { image_of zint_file ≡ Some (symbol 1 None) }
    ensures fixed_codes { image_of qrencode_file ≡ Some (symbol 1 (Some (2834, 2834))) }
    ensures copies { image_of segno_file ≡ Some (symbol 4 None) }
    ensures stored { image_of stored_file ≡ Some (symbol 1 None) }
    ensures filtered { image_of filtered_file ≡ Some (symbol 1 None) }
    ensures ratio { density_of (Some (0 ∷ 0 ∷ 0 ∷ 1 ∷ 0 ∷ 0 ∷ 0 ∷ 2 ∷ 0 ∷ [])) ≡ None }
{}
