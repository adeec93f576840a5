//! Format words (level and mask) and version words.

ghost use Rattle.std.specs.Prelude.{◌≡◌, ◌+◌, ◌*◌, ◌≤◌, IsTrue};
ghost use Rattle.qrcode_types.specs.Versions.{has_level};
ghost use Rattle.qrcode_layout.specs.Masks.{exists_in};
ghost use Rattle.qrcode_layout.specs.Words.{level_bits, format_bits, format_word, version_word};

use crate::masks::MaskPattern;
use qrcode_types::types::{EcLevel, Version};

// The format words of Normal. One row for each level: M, L, H, Q; in it the masks by number.
#[rattlefmt::skip]
static NORMAL_WORDS: [u16; 32] = [
    0x5412, 0x5125, 0x5e7c, 0x5b4b, 0x45f9, 0x40ce, 0x4f97, 0x4aa0,
    0x77c4, 0x72f3, 0x7daa, 0x789d, 0x662f, 0x6318, 0x6c41, 0x6976,
    0x1689, 0x13be, 0x1ce7, 0x19d0, 0x0762, 0x0255, 0x0d0c, 0x083b,
    0x355f, 0x3068, 0x3f31, 0x3a06, 0x24b4, 0x2183, 0x2eda, 0x2bed,
];

// The format words of Micro. One row for each version and level, from Micro 1 at L to Micro 4 at Q;
// in it the masks by their number in Micro.
#[rattlefmt::skip]
static MICRO_WORDS: [u16; 32] = [
    0x4445, 0x4172, 0x4e2b, 0x4b1c,
    0x55ae, 0x5099, 0x5fc0, 0x5af7,
    0x6793, 0x62a4, 0x6dfd, 0x68ca,
    0x7678, 0x734f, 0x7c16, 0x7921,
    0x06de, 0x03e9, 0x0cb0, 0x0987,
    0x1735, 0x1202, 0x1d5b, 0x186c,
    0x2508, 0x203f, 0x2f66, 0x2a51,
    0x34e3, 0x31d4, 0x3e8d, 0x3bba,
];

// The version words of Normal 7 to 40.
#[rattlefmt::skip]
static VERSION_WORDS: [u32; 34] = [
    0x07c94, 0x085bc, 0x09a99, 0x0a4d3, 0x0bbf6, 0x0c762,
    0x0d847, 0x0e60d, 0x0f928, 0x10b78, 0x1145d, 0x12a17,
    0x13532, 0x149a6, 0x15683, 0x168c9, 0x177ec, 0x18ec4,
    0x191e1, 0x1afab, 0x1b08e, 0x1cc1a, 0x1d33f, 0x1ed75,
    0x1f250, 0x209d5, 0x216f0, 0x228ba, 0x2379f, 0x24b0b,
    0x2542e, 0x26a64, 0x27541, 0x28c69,
];

// Returns the row of a level in `NORMAL_WORDS`.
fn normal_row(ec_level: EcLevel) -> usize
    ensures { result ≡ level_bits ec_level }
{
    match ec_level {
        EcLevel::M => 0,
        EcLevel::L => 1,
        EcLevel::H => 2,
        EcLevel::Q => 3,
    }
}

// Returns the index of a format word in `NORMAL_WORDS` or `MICRO_WORDS`.
fn word_index(version: Version, ec_level: EcLevel, mask: MaskPattern) -> usize
    requires level { IsTrue (has_level version ec_level) }
    requires mask { IsTrue (exists_in version mask) }
    ensures { result ≡ format_bits version ec_level mask }
{
    match version {
        Version::Normal(_) => 8 * normal_row(ec_level) + mask.number(),
        Version::Micro(v) => {
            let first = (2 * (v as usize)).saturating_sub(3);
            4 * (first + ec_level.number()) + mask.micro_number()
        }
    }
}

/// Returns the format word (format information): the fifteen bits that name `ec_level` and `mask`
/// (ISO/IEC 18004:2006, 6.9). The version must have both.
#[tactic(auto, using(crate::proofs::Formats::format_bits_small))]
pub fn format_word(version: Version, ec_level: EcLevel, mask: MaskPattern) -> u16
    requires level { IsTrue (has_level version ec_level) }
    requires mask { IsTrue (exists_in version mask) }
    ensures { result ≡ format_word version ec_level mask }
{
    let index = word_index(version, ec_level, mask);
    match version {
        Version::Normal(_) => NORMAL_WORDS[index],
        Version::Micro(_) => MICRO_WORDS[index],
    }
}

/// Returns the version word (version information): the eighteen bits that name Normal version
/// `number`, 7 to 40 (ISO/IEC 18004:2006, 6.10).
#[tactic(auto, using(crate::proofs::WordTables::version_at))]
pub fn version_word(number: usize) -> u32
    requires at_least { 7 ≤ number }
    requires at_most { number ≤ 40 }
    ensures { result ≡ version_word number }
{
    VERSION_WORDS[number - 7]
}
