//! Takes single blocks out of interleaved codewords.

ghost use Rattle.std.specs.Prelude.{◌≡◌, ◌<◌, ◌≤◌, ◌++◌, length, slice_index, vec_len, IsTrue, OnOk, IfOk};
ghost use Rattle.qrcode_types.specs.Blocks.{count_of};
ghost use Rattle.qrcode_types.specs.Versions.{has_level, block_lengths};
ghost use Rattle.qrcode_ec.specs.Blocks.{block};
ghost use Rattle.qrcode_reader.specs.Parts.{data_part, ec_part};

use qrcode_types::tables::Blocks;
use qrcode_types::types::{EcLevel, Version};
use std::alloc::{AllocError, Global};

// Returns the codeword at `place`, or zero after the last one.
fn word(words: &[u8], place: usize) -> u8
    ensures { result ≡ slice_index words.now place }
{
    if place < words.len() { words[place] } else { 0 }
}

// Appends the data bytes of block `b`. In `words` the first bytes of all blocks come first, then
// all second bytes and so on, and after these rows the last bytes of the long blocks.
fn push_data(bytes: &mut Vec<u8>, words: &[u8], blocks: Blocks, b: usize) -> Result<(), AllocError>
    requires { b < count_of blocks }
    ensures { OnOk result (bytes.new.items ≡ bytes.old.items ++ data_part blocks words.now b) }
{
    let count = blocks.count();
    for i in 0..blocks.short_length {
        bytes.push(word(words, i * count + b))?;
    }
    if blocks.short_blocks <= b {
        let place = blocks.short_length * count + (b - blocks.short_blocks);
        bytes.push(word(words, place))?;
    }
    Ok(())
}

// Appends the error correction bytes of block `b`, which come after all data bytes.
fn push_ec(bytes: &mut Vec<u8>, words: &[u8], blocks: Blocks, b: usize) -> Result<(), AllocError>
    requires { b < count_of blocks }
    ensures { OnOk result (bytes.new.items ≡ bytes.old.items ++ ec_part blocks words.now b) }
{
    let count = blocks.count();
    let begin = blocks.data_length();
    for i in 0..blocks.ec_length {
        bytes.push(word(words, begin + i * count + b))?;
    }
    Ok(())
}

/// Returns block `b` of the codewords `words`: its data bytes, then its error correction bytes
/// (ISO/IEC 18004:2006, 6.6). The version must have more than `b` blocks at `ec_level`. Codewords
/// that are missing count as zero.
///
/// Errors: only `AllocError`, if memory runs out.
pub fn block(
    alloc: Global,
    words: &[u8],
    version: Version,
    ec_level: EcLevel,
    b: usize,
) -> Result<Vec<u8>, AllocError>
    requires exists { IsTrue (has_level version ec_level) }
    requires inside { b < length (block_lengths version ec_level) }
    ensures value { IfOk result (λ bytes. bytes.items ≡ block version ec_level words.now b) }
    ensures at_most { IfOk result (λ bytes. vec_len bytes ≤ 255) }
{
    let blocks = Blocks::of(version, ec_level).unwrap();
    let mut bytes = Vec::with_capacity(alloc, blocks.short_length + 1 + blocks.ec_length)?;
    push_data(&mut bytes, words, blocks, b)?;
    push_ec(&mut bytes, words, blocks, b)?;
    Ok(bytes)
}
