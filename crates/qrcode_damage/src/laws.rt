//! Theorems about areas and damage, as the contracts of functions that do nothing.

ghost use Rattle.qrcode_damage.specs.Laws.{AreaIsDamage, AreaIsExact, ReserveIsDamage, AreaIsRead, AreaKeepsBits, ReserveIsRead, PromiseIsExact};

/// Theorem: if an area touches in each block at most half as many codewords as the block has for
/// error correction, and covers at most three modules of each copy of the format information, then
/// the symbol decodes to exactly its bytes and bits, whatever the area shows. For any other area,
/// something that it may show is beyond the promised damage.
pub fn areas()
    ensures damage { AreaIsDamage }
    ensures exact { AreaIsExact }
    ensures read { AreaIsRead }
    ensures read_bits { AreaKeepsBits }
    ensures reserve_damage { ReserveIsDamage }
    ensures reserve_read { ReserveIsRead }
{}

/// Theorem: a square with exactly so much damage is within the promise exactly if no block has more
/// wrong codewords than half of those it has for error correction, and no copy of the format
/// information more than three wrong bits. With one more of either, it is beyond the promise.
pub fn damage()
    ensures { PromiseIsExact }
{}
