//! How the codewords of a symbol are divided into blocks.

ghost use Rattle.std.specs.Prelude.{◌≡◌, ℕ, ◌+◌, ◌*◌, ◌<◌, ◌≤◌, pos, length, is_some, IfSome, IsTrue};
ghost use Rattle.qrcode_types.specs.Versions.{is_valid, has_level, blocks_entry, has_half_codeword, block_lengths, data_length, total_ec_length, codeword_count, capacity};
ghost use Rattle.qrcode_types.specs.declared.types.Version.{Version};
ghost use Rattle.qrcode_types.specs.declared.types.Version.TheVariants.{Normal};
ghost use Rattle.qrcode_types.specs.declared.types.EcLevel.{EcLevel};

use crate::types::{EcLevel, Version};

/// The blocks of a version at a level. The short blocks come first; each long block has one more
/// data byte.
#[derive(Copy, Clone, Debug)]
pub struct Blocks {
    /// Number of error correction bytes in each block.
    pub ec_length: usize,
    /// Number of short blocks.
    pub short_blocks: usize,
    /// Number of data bytes in a short block.
    pub short_length: usize,
    /// Number of long blocks.
    pub long_blocks: usize,
    pub ghost some_ec: { 1 ≤ ec_length },
    pub ghost ec_at_most: { ec_length ≤ 30 },
    pub ghost some_blocks: { 1 ≤ short_blocks },
    pub ghost blocks_at_most: { short_blocks + long_blocks ≤ 81 },
    pub ghost some_data: { 1 ≤ short_length },
    pub ghost data_at_most: { short_length ≤ 122 },
}

impl Blocks {
    ghost use Rattle.qrcode_types.specs.Blocks.{AreBlocks, count_of, data_length_of};

    /// Returns the blocks of `version` at `ec_level`, or `None` if there is no such version or it
    /// lacks the level.
    #[tactic(auto, using(crate::proofs::BlockTable::all_codewords))]
    pub fn of(version: Version, ec_level: EcLevel) -> Option<Self>
        ensures exists { is_some result ≡ has_level version ec_level }
        ensures value { IfSome result (AreBlocks version ec_level) }

        // The data and error correction bytes of all blocks are all codewords of the version.
        ensures adds_up { IsTrue (has_level version ec_level)
            → data_length version ec_level + total_ec_length version ec_level
            ≡ codeword_count version }
    {
        if !version.is_valid() {
            return None;
        }
        let (ec_length, short_blocks, short_length, long_blocks) = entry(version, ec_level);
        if ec_length == 0 {
            return None;
        }
        Some(Blocks {
            ec_length: ec_length.into(),
            short_blocks: short_blocks.into(),
            short_length: short_length.into(),
            long_blocks: long_blocks.into(),
        })
    }

    /// Returns the number of blocks.
    pub fn count(self) -> usize
        ensures value { result ≡ count_of self }
        ensures of_version { (v : Version) (l : EcLevel)
            → AreBlocks v l self → result ≡ length (block_lengths v l) }
    {
        self.short_blocks + self.long_blocks
    }

    /// Returns the number of data bytes in all blocks together.
    pub fn data_length(self) -> usize
        ensures value { result ≡ data_length_of self }
        ensures of_version { (v : Version) (l : EcLevel)
            → AreBlocks v l self → result ≡ data_length v l }
    {
        self.count() * self.short_length + self.long_blocks
    }

    /// Returns the number of error correction bytes in all blocks together.
    pub fn total_ec_length(self) -> usize
        ensures value { result ≡ self.ec_length * count_of self }
        ensures of_version { (v : Version) (l : EcLevel)
            → AreBlocks v l self → result ≡ total_ec_length v l }
    {
        self.ec_length * self.count()
    }
}

// One row for each version, Normal 1 to 40 and then Micro 1 to 4. Each has the fields of `Blocks`,
// in order, for L, M, Q and H; zeros where the version lacks the level.
#[rattlefmt::skip]
static BLOCKS: [[(u8, u8, u8, u8); 4]; 44] = [
    [(7, 1, 19, 0), (10, 1, 16, 0), (13, 1, 13, 0), (17, 1, 9, 0)],
    [(10, 1, 34, 0), (16, 1, 28, 0), (22, 1, 22, 0), (28, 1, 16, 0)],
    [(15, 1, 55, 0), (26, 1, 44, 0), (18, 2, 17, 0), (22, 2, 13, 0)],
    [(20, 1, 80, 0), (18, 2, 32, 0), (26, 2, 24, 0), (16, 4, 9, 0)],
    [(26, 1, 108, 0), (24, 2, 43, 0), (18, 2, 15, 2), (22, 2, 11, 2)],
    [(18, 2, 68, 0), (16, 4, 27, 0), (24, 4, 19, 0), (28, 4, 15, 0)],
    [(20, 2, 78, 0), (18, 4, 31, 0), (18, 2, 14, 4), (26, 4, 13, 1)],
    [(24, 2, 97, 0), (22, 2, 38, 2), (22, 4, 18, 2), (26, 4, 14, 2)],
    [(30, 2, 116, 0), (22, 3, 36, 2), (20, 4, 16, 4), (24, 4, 12, 4)],
    [(18, 2, 68, 2), (26, 4, 43, 1), (24, 6, 19, 2), (28, 6, 15, 2)],
    [(20, 4, 81, 0), (30, 1, 50, 4), (28, 4, 22, 4), (24, 3, 12, 8)],
    [(24, 2, 92, 2), (22, 6, 36, 2), (26, 4, 20, 6), (28, 7, 14, 4)],
    [(26, 4, 107, 0), (22, 8, 37, 1), (24, 8, 20, 4), (22, 12, 11, 4)],
    [(30, 3, 115, 1), (24, 4, 40, 5), (20, 11, 16, 5), (24, 11, 12, 5)],
    [(22, 5, 87, 1), (24, 5, 41, 5), (30, 5, 24, 7), (24, 11, 12, 7)],
    [(24, 5, 98, 1), (28, 7, 45, 3), (24, 15, 19, 2), (30, 3, 15, 13)],
    [(28, 1, 107, 5), (28, 10, 46, 1), (28, 1, 22, 15), (28, 2, 14, 17)],
    [(30, 5, 120, 1), (26, 9, 43, 4), (28, 17, 22, 1), (28, 2, 14, 19)],
    [(28, 3, 113, 4), (26, 3, 44, 11), (26, 17, 21, 4), (26, 9, 13, 16)],
    [(28, 3, 107, 5), (26, 3, 41, 13), (30, 15, 24, 5), (28, 15, 15, 10)],
    [(28, 4, 116, 4), (26, 17, 42, 0), (28, 17, 22, 6), (30, 19, 16, 6)],
    [(28, 2, 111, 7), (28, 17, 46, 0), (30, 7, 24, 16), (24, 34, 13, 0)],
    [(30, 4, 121, 5), (28, 4, 47, 14), (30, 11, 24, 14), (30, 16, 15, 14)],
    [(30, 6, 117, 4), (28, 6, 45, 14), (30, 11, 24, 16), (30, 30, 16, 2)],
    [(26, 8, 106, 4), (28, 8, 47, 13), (30, 7, 24, 22), (30, 22, 15, 13)],
    [(28, 10, 114, 2), (28, 19, 46, 4), (28, 28, 22, 6), (30, 33, 16, 4)],
    [(30, 8, 122, 4), (28, 22, 45, 3), (30, 8, 23, 26), (30, 12, 15, 28)],
    [(30, 3, 117, 10), (28, 3, 45, 23), (30, 4, 24, 31), (30, 11, 15, 31)],
    [(30, 7, 116, 7), (28, 21, 45, 7), (30, 1, 23, 37), (30, 19, 15, 26)],
    [(30, 5, 115, 10), (28, 19, 47, 10), (30, 15, 24, 25), (30, 23, 15, 25)],
    [(30, 13, 115, 3), (28, 2, 46, 29), (30, 42, 24, 1), (30, 23, 15, 28)],
    [(30, 17, 115, 0), (28, 10, 46, 23), (30, 10, 24, 35), (30, 19, 15, 35)],
    [(30, 17, 115, 1), (28, 14, 46, 21), (30, 29, 24, 19), (30, 11, 15, 46)],
    [(30, 13, 115, 6), (28, 14, 46, 23), (30, 44, 24, 7), (30, 59, 16, 1)],
    [(30, 12, 121, 7), (28, 12, 47, 26), (30, 39, 24, 14), (30, 22, 15, 41)],
    [(30, 6, 121, 14), (28, 6, 47, 34), (30, 46, 24, 10), (30, 2, 15, 64)],
    [(30, 17, 122, 4), (28, 29, 46, 14), (30, 49, 24, 10), (30, 24, 15, 46)],
    [(30, 4, 122, 18), (28, 13, 46, 32), (30, 48, 24, 14), (30, 42, 15, 32)],
    [(30, 20, 117, 4), (28, 40, 47, 7), (30, 43, 24, 22), (30, 10, 15, 67)],
    [(30, 19, 118, 6), (28, 18, 47, 31), (30, 34, 24, 34), (30, 20, 15, 61)],
    [(2, 1, 3, 0), (0, 0, 0, 0), (0, 0, 0, 0), (0, 0, 0, 0)],
    [(5, 1, 5, 0), (6, 1, 4, 0), (0, 0, 0, 0), (0, 0, 0, 0)],
    [(6, 1, 11, 0), (8, 1, 9, 0), (0, 0, 0, 0), (0, 0, 0, 0)],
    [(8, 1, 16, 0), (10, 1, 14, 0), (14, 1, 10, 0), (0, 0, 0, 0)],
];

// Looks up a version at a level.
fn entry(version: Version, ec_level: EcLevel) -> (u8, u8, u8, u8)
    requires { IsTrue (is_valid version) }
    ensures { result ≡ blocks_entry version ec_level }
{
    BLOCKS[version.row()][ec_level.number()]
}

/// Returns how many data bits a symbol of `version` at `ec_level` holds, or `None` if there is no
/// such version or it lacks the level.
#[tactic(auto, using(crate::proofs::BlockTable::capacity_ascends))]
pub fn capacity(version: Version, ec_level: EcLevel) -> Option<usize>
    ensures exists { is_some result ≡ has_level version ec_level }
    ensures value { IfSome result (λ bits. bits ≡ capacity version ec_level) }
    ensures at_most { IfSome result (λ bits. bits ≤ 23648) }

    // Each Normal version holds more than the one before it.
    ensures ascends { (m n : ℕ) → 1 ≤ m → m < n → n ≤ 40
        → capacity (Normal (pos m)) ec_level < capacity (Normal (pos n)) ec_level }
{
    let blocks = Blocks::of(version, ec_level)?;
    let half = if has_half_codeword(version, ec_level) {
        4
    } else {
        0
    };
    Some(8 * blocks.data_length() - half)
}

/// Returns whether the last data codeword of a symbol has only four bits. The version must exist.
pub fn has_half_codeword(version: Version, ec_level: EcLevel) -> bool
    requires { IsTrue (is_valid version) }
    ensures { result ≡ has_half_codeword version ec_level }
{
    match (version, ec_level) {
        (Version::Micro(v), EcLevel::L) => v == 1 || v == 3,
        (Version::Micro(v), EcLevel::M) => v == 3,
        _ => false,
    }
}
