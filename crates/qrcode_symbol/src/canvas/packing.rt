//! Packs modules into rows of bits: which are dark, and which a mask can reverse.

ghost use Rattle.std.specs.Prelude.{◌≡◌, ◌==◌, ◌+◌, ◌*◌, ◌<◌, ◌≤◌, length, map, IsTrue};
ghost use Rattle.qrcode_types.specs.Versions.{is_valid, has_level, side};
ghost use Rattle.qrcode_penalty.specs.Rows.{IsSquare};
ghost use Rattle.qrcode_symbol.specs.Masking.{is_dark_module, is_free, digit, packed, ShowsModules};

use super::Module;
use qrcode_penalty::row::PackedRow;
use qrcode_penalty::square::PackedSquare;
use qrcode_types::types::{EcLevel, Version};
use std::simd::prelude::*;

/// The modules of a symbol as packed rows. Bit x of row y of `dark` is set if the module in column
/// x and row y is dark; in `free`, if a mask can reverse it.
#[derive(Drop)]
pub(super) struct PackedModules<'a, R: PackedRow> {
    pub(super) version: Version,
    pub(super) ec_level: EcLevel,
    pub(super) width: usize,
    pub(super) dark: PackedSquare<'a, R>,
    pub(super) free: PackedSquare<'a, R>,
    pub(super) ghost exists: { IsTrue (has_level version ec_level) },
    pub(super) ghost valid: { IsTrue (is_valid version) },
    pub(super) ghost side: { width ≡ side version },
    pub(super) ghost at_least: { 11 ≤ width },
    pub(super) ghost at_most: { width ≤ 177 },
    pub(super) ghost room: { width + 3 ≤ R.room },
    pub(super) ghost dark_width: { dark.width ≡ width },
    pub(super) ghost free_width: { free.width ≡ width },
}

// Returns 1 for a dark module, otherwise 0.
#[inline(always)]
fn dark_bit(m: Module) -> u8
    ensures { result ≡ digit (is_dark_module m) }
{
    match m {
        Module::Empty => 0,
        Module::Masked(color) | Module::Unmasked(color) => color as u8,
    }
}

// Returns 1 for a module that a mask can reverse, otherwise 0.
#[inline(always)]
fn free_bit(m: Module) -> u8
    ensures { result ≡ digit (is_free m) }
{
    match m {
        Module::Empty | Module::Unmasked(_) => 1,
        Module::Masked(_) => 0,
    }
}

// Returns which of the bytes equal `number`; bit i is byte i.
#[inline(always)]
fn equal_to(bytes: [u8; 64], number: u8) -> u64
    ensures { result ≡ packed (λ n. n == number) bytes }
{
    u8x64::from_array(bytes)
        .simd_eq(u8x64::splat(number))
        .to_bitmask()
}

// Returns which of up to 64 modules are dark, and which a mask can reverse. It first makes a byte
// for each answer, so that LLVM handles sixteen at a time.
fn pack_modules(modules: &[Module]) -> (u64, u64)
    requires { length modules.now ≤ 64 }
    ensures dark { result.0 ≡ packed is_dark_module modules.now }
    ensures free { result.1 ≡ packed is_free modules.now }
{
    let mut dark = [0u8; 64];
    let mut free = [0u8; 64];
    for i in 0..modules.len() {
        dark[i] = dark_bit(modules[i]);
        free[i] = free_bit(modules[i]);
    }
    (equal_to(dark, 1), equal_to(free, 1))
}

// Returns which modules of a row are dark, and which a mask can reverse.
fn pack_row<R: PackedRow>(row: &[Module]) -> (R, R)
    requires { length row.now ≤ R.room }
    ensures dark { R.bits result.0 ≡ packed is_dark_module row.now }
    ensures free { R.bits result.1 ≡ packed is_free row.now }
{
    let first = row.len().min(64);
    let second = row.len().min(128);
    let low = pack_modules(&row[..first]);
    let middle = pack_modules(&row[first..second]);
    let high = pack_modules(&row[second..]);
    (
        R::of_words(low.0, middle.0, high.0),
        R::of_words(low.1, middle.1, high.1),
    )
}

/// Packs all rows of a square.
#[tactic(auto, using(std::proofs::lemmas::Nat::rows))]
pub(super) fn pack_rows<R: PackedRow>(
    width: usize,
    modules: &[Module],
    dark: &mut [R],
    free: &mut [R],
)
    requires at_least { 7 ≤ width }
    requires room { width + 3 ≤ R.room }
    requires square { length modules.now ≡ width * width }
    requires dark_length { length dark.old ≡ width }
    requires free_length { length free.old ≡ width }
    ensures dark { ShowsModules is_dark_module width modules.now (map R.bits dark.new) }
    ensures free { ShowsModules is_free width modules.now (map R.bits free.new) }
    ensures dark_square { IsSquare R.room (record { width = width; rows = map R.bits dark.new }) }
    ensures free_square { IsSquare R.room (record { width = width; rows = map R.bits free.new }) }
{
    for y in 0..width {
        let packed = pack_row(&modules[y * width..(y + 1) * width]);
        dark[y] = packed.0;
        free[y] = packed.1;
    }
}
