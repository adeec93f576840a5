//! Interleaves the codewords: first the first byte of each block, then the second of each, and so
//! on.

ghost use Rattle.std.specs.Prelude.{◌≡◌, ◌≢◌, ℕ, ◌+◌, ◌*◌, ◌<◌, ◌≤◌, length, slice_index, IfOk};
ghost use Rattle.qrcode_types.specs.Bits.{AreBytes};
ghost use Rattle.qrcode_types.specs.Blocks.{count_of, data_length_of};
ghost use Rattle.qrcode_ec.specs.Interleaving.{data_block, length_of, HasRows, HasEnds, MakeVanish, AreWordsOf};

use crate::division::Divider;
use qrcode_types::tables::Blocks;
use std::alloc::{AllocError, Global};

/// The data bytes of a symbol, block by block.
#[derive(Drop)]
pub(crate) struct DataBlocks<'a> {
    pub(crate) blocks: Blocks,
    pub(crate) bytes: &'a [u8],
    pub(crate) ghost whole: { length bytes.now ≡ data_length_of blocks },
}

impl<'a> DataBlocks<'a> {
    // Returns the data bytes of block `index`.
    fn block(&self, index: usize) -> &'a [u8]
        requires { index < count_of self.now.blocks }
        ensures length { length result.now ≡ length_of self.now.blocks index }
        ensures value { result.now ≡ data_block self.now.blocks self.now.bytes.now index }
    {
        let Blocks {
            short_blocks,
            short_length,
            ..
        } = self.blocks;
        let start = index * short_length + index.saturating_sub(short_blocks);
        let length = short_length + usize::from(short_blocks <= index);
        &self.bytes[start..start + length]
    }

    // Writes the bytes that every block has.
    fn write_rows(&self, codewords: &mut [u8])
        requires { length codewords.old ≡ data_length_of self.now.blocks }
        ensures { HasRows self.now.blocks self.now.bytes.now codewords.new }
    {
        let count = self.blocks.count();
        for b in 0..count {
            let bytes = self.block(b);
            spread(&bytes[..self.blocks.short_length], codewords, b, count);
        }
    }

    // Writes the last byte of each long block, after the rows.
    fn write_ends(&self, codewords: &mut [u8])
        requires { length codewords.old ≡ data_length_of self.now.blocks }
        ensures ends { HasEnds self.now.blocks self.now.bytes.now codewords.new }
        ensures unchanged { (p : ℕ) → p < self.now.blocks.short_length * count_of self.now.blocks
            → slice_index codewords.new p ≡ slice_index codewords.old p }
        ensures bytes { AreBytes codewords.new }
    {
        let begin = self.blocks.short_length * self.blocks.count();
        for b in 0..self.blocks.long_blocks {
            let bytes = self.block(self.blocks.short_blocks + b);
            codewords[begin + b] = bytes[self.blocks.short_length];
        }
    }

    // Writes the data bytes of all blocks, interleaved.
    fn write_data(&self, codewords: &mut [u8])
        requires { length codewords.old ≡ data_length_of self.now.blocks }
        ensures rows { HasRows self.now.blocks self.now.bytes.now codewords.new }
        ensures ends { HasEnds self.now.blocks self.now.bytes.now codewords.new }
        ensures bytes { AreBytes codewords.new }
    {
        self.write_rows(codewords);
        self.write_ends(codewords);
    }

    // Writes the error correction bytes of all blocks, interleaved.
    fn write_ec(&self, codewords: &mut [u8])
        requires { length codewords.old ≡ self.now.blocks.ec_length * count_of self.now.blocks }
        ensures bytes { AreBytes codewords.new }
        ensures vanishes { MakeVanish self.now.blocks self.now.bytes.now codewords.new }
    {
        let divider = Divider::new(self.blocks.ec_length);
        let count = self.blocks.count();
        for b in 0..count {
            let ec = divider.remainder(self.block(b));
            spread(&ec[..self.blocks.ec_length], codewords, b, count);
        }
    }

    /// Returns the data codewords and the error correction codewords of the symbol.
    pub(crate) fn codewords(&self, alloc: Global) -> Result<(Vec<u8>, Vec<u8>), AllocError>
        ensures { IfOk result (λ words.
            AreWordsOf self.now.blocks self.now.bytes.now words.0.items words.1.items) }
    {
        let mut data = vec![in alloc; 0; self.bytes.len()]?;
        self.write_data(&mut data);
        let mut ec = vec![in alloc; 0; self.blocks.total_ec_length()]?;
        self.write_ec(&mut ec);
        Ok((data, ec))
    }
}

// Writes `bytes` to every `step`-th place, starting at `first`.
fn spread(bytes: &[u8], codewords: &mut [u8], first: usize, step: usize)
    requires begins { first < step }
    requires fits { length bytes.now * step ≤ length codewords.old }
    ensures written { (i : ℕ) → i < length bytes.now
        → slice_index codewords.new (i * step + first) ≡ slice_index bytes.now i }
    ensures unchanged { (i k : ℕ) → k < step → k ≢ first
        → slice_index codewords.new (i * step + k) ≡ slice_index codewords.old (i * step + k) }
{
    let mut place = first;
    for byte in bytes {
        codewords[place] = *byte;
        place += step;
    }
}
