//! Puts wrong codewords into the blocks of a symbol.

ghost use Rattle.std.specs.Prelude.{◌≡◌, ◌≢◌, ℕ, ◌+◌, ◌*◌, ◌<◌, ◌≤◌, length, vec_len, IsTrue, IfOk};
ghost use Rattle.qrcode_types.specs.Blocks.{AreBlocks, count_of, data_length_of};
ghost use Rattle.qrcode_types.specs.Versions.{has_level, has_half_codeword, block_lengths, data_length, total_ec_length};
ghost use Rattle.qrcode_types.specs.declared.types.Version.{Version};
ghost use Rattle.qrcode_types.specs.declared.types.EcLevel.{EcLevel};
ghost use Rattle.qrcode_ec.specs.Blocks.{block};
ghost use Rattle.qrcode_damage.specs.Flips.{count_wrong, AreHigh, shortest_block, length_in, codeword_place};

use crate::flips::flips;
use crate::random::Random;
use qrcode_types::tables::{Blocks, has_half_codeword};
use qrcode_types::types::{EcLevel, Version};
use std::alloc::{AllocError, Global};

/// Returns the blocks of `version` at `ec_level`.
pub(crate) fn blocks_of(version: Version, ec_level: EcLevel) -> Blocks
    requires { IsTrue (has_level version ec_level) }
    ensures { AreBlocks version ec_level result }
{
    Blocks::of(version, ec_level).unwrap()
}

// Returns the number of data codewords of block `b`.
fn length_in(blocks: Blocks, b: usize) -> usize
    ensures value { result ≡ length_in blocks b }
    ensures at_most { result ≤ 123 }
{
    blocks.short_length + usize::from(blocks.short_blocks <= b)
}

// Returns the place of codeword `i` of block `b` among all codewords.
fn codeword_place(blocks: Blocks, b: usize, i: usize) -> usize
    requires block { b < count_of blocks }
    requires inside { i < length_in blocks b + blocks.ec_length }
    ensures value { result ≡ codeword_place blocks b i }
    ensures inside { result < data_length_of blocks + blocks.ec_length * count_of blocks }
{
    let count = blocks.count();
    let length = length_in(blocks, b);
    if i < blocks.short_length {
        i * count + b
    } else if i < length {
        blocks.short_length * count + (b - blocks.short_blocks)
    } else {
        blocks.data_length() + (i - length) * count + b
    }
}

// Replaces block `b` of the codewords `words` by `bytes`.
fn put_block(words: &mut [u8], blocks: Blocks, b: usize, bytes: &[u8])
    requires block { b < count_of blocks }
    requires length { length bytes.now ≡ length_in blocks b + blocks.ec_length }
    requires words { length words.old ≡ data_length_of blocks + blocks.ec_length * count_of blocks }
    ensures own { (v : Version) (l : EcLevel) → AreBlocks v l blocks
        → block v l words.new b ≡ bytes.now }
    ensures unchanged { (v : Version) (l : EcLevel) (other : ℕ) → AreBlocks v l blocks
        → other < count_of blocks → other ≢ b
        → block v l words.new other ≡ block v l words.old other }
    ensures half { AreHigh words.old → AreHigh bytes.now → AreHigh words.new }
{
    for i in 0..bytes.len() {
        words[codeword_place(blocks, b, i)] = bytes[i];
    }
}

/// Returns the codewords of a symbol, data and error correction, of which in each block exactly
/// `count` are not zero, chosen by `random`.
///
/// Errors: only `AllocError`.
pub(crate) fn wrong_words(
    alloc: Global,
    version: Version,
    ec_level: EcLevel,
    count: usize,
    random: &mut Random,
) -> Result<Vec<u8>, AllocError>
    requires exists { IsTrue (has_level version ec_level) }
    requires at_most { count ≤ shortest_block version ec_level }
    ensures length { IfOk result (λ words.
        vec_len words ≡ data_length version ec_level + total_ec_length version ec_level) }
    ensures count { IfOk result (λ words. (b : ℕ) → b < length (block_lengths version ec_level)
        → count_wrong (block version ec_level words.items b) ≡ count) }
    ensures half { IsTrue (has_half_codeword version ec_level)
        → IfOk result (λ words. AreHigh words.items) }
{
    let blocks = blocks_of(version, ec_level);
    let is_half = has_half_codeword(version, ec_level);
    let mut words = vec![in alloc; 0; blocks.data_length() + blocks.total_ec_length()]?;
    for b in 0..blocks.count() {
        let length = length_in(blocks, b) + blocks.ec_length;
        let bytes = flips(alloc, random, count, length, is_half)?;
        put_block(&mut words, blocks, b, &bytes);
    }
    Ok(words)
}
