//! Corrects all blocks of the codewords.

ghost use Rattle.std.specs.Prelude.{◌≡◌, ◌⊎◌, ℕ, ◌≤◌, ◌++◌, List, length, IsTrue, OnOk, IfOk, IfErr};
ghost use Rattle.qrcode_types.specs.Versions.{has_level, block_lengths};
ghost use Rattle.qrcode_ec.specs.Codes.{Corrects};
ghost use Rattle.qrcode_reader.specs.Corrected.{AppendsBlock, AreCorrected, IsFirstDamaged, wrong_of_block};
ghost use Rattle.qrcode_reader.specs.declared.refusals.Unread.TheVariants.{Damaged, OutOfMemory};

use crate::blocks::block;
use crate::correct::Corrector;
use crate::refusals::Unread;
use qrcode_types::tables::Blocks;
use qrcode_types::types::{EcLevel, Version};
use std::alloc::{AllocError, Global};

/// A codeword that was wrong, by its block and its place in it, both counted from zero. In a block
/// the data codewords come before those of error correction.
#[derive(Debug, PartialEq, Eq, Copy, Clone)]
pub struct WrongCodeword {
    /// The block.
    pub block: usize,
    /// The place in the block.
    pub place: usize,
}

// Appends the codewords in which block `block` differs from its correction.
fn push_wrong(
    wrong: &mut Vec<WrongCodeword>,
    block: usize,
    before: &[u8],
    after: &[u8],
) -> Result<(), AllocError>
    requires { length before.now ≡ length after.now }
    ensures { OnOk result
        (wrong.new.items ≡ wrong.old.items ++ wrong_of_block block before.now after.now) }
{
    for place in 0..before.len() {
        if before[place] != after[place] {
            wrong.push(WrongCodeword { block, place })?;
        }
    }
    Ok(())
}

/// The contents of corrected blocks.
#[derive(Drop)]
pub(crate) struct Corrected {
    /// Their data bytes, block by block.
    pub(crate) data: Vec<u8>,
    /// Which of their codewords were wrong.
    pub(crate) wrong: Vec<WrongCodeword>,
}

impl Corrected {
    // Appends the data bytes and the wrong codewords of block `number`; `Damaged` if it cannot be
    // corrected.
    fn push(
        &mut self,
        alloc: Global,
        corrector: &Corrector,
        number: usize,
        block: &[u8],
    ) -> Result<(), Unread>
        requires { length block.now ≤ 255 }
        ensures taken { OnOk result (AppendsBlock corrector.now.divider.degree number block.now
            self.old.data.items self.new.data.items self.old.wrong.items self.new.wrong.items) }
        ensures refused { IfErr result (λ e. (e ≡ OutOfMemory) ⊎ ((e ≡ Damaged number)
            × ((c : List ℕ) → ¬ Corrects block.now corrector.now.divider.degree c))) }
    {
        let mut corrected = Vec::from_slice(alloc, block)?;
        if corrector.correct(&mut corrected).is_err() {
            return Err(Unread::Damaged(number));
        }
        let data_length = corrected.len().saturating_sub(corrector.divider.degree);
        self.data.extend_from_slice(&corrected[..data_length])?;
        push_wrong(&mut self.wrong, number, block, &corrected)?;
        Ok(())
    }
}

/// Corrects all blocks of the codewords.
///
/// Errors: `Damaged` with the first block that cannot be corrected; `OutOfMemory` if memory runs
/// out.
pub(crate) fn correct_blocks(
    alloc: Global,
    words: &[u8],
    version: Version,
    ec_level: EcLevel,
) -> Result<Corrected, Unread>
    requires { IsTrue (has_level version ec_level) }
    ensures value { IfOk result (λ blocks. AreCorrected version ec_level words.now
        (length (block_lengths version ec_level)) blocks.data.items blocks.wrong.items) }
    ensures refused { IfErr result (λ e. (e ≡ OutOfMemory)
        ⊎ ((b : ℕ) × (e ≡ Damaged b) × IsFirstDamaged version ec_level words.now b)) }
{
    let blocks = Blocks::of(version, ec_level).unwrap();
    let corrector = Corrector::new(blocks.ec_length);
    let mut corrected = Corrected {
        data: Vec::with_capacity(alloc, blocks.data_length())?,
        wrong: Vec::new(alloc),
    };
    for b in 0..blocks.count() {
        let block = block(alloc, words, version, ec_level, b)?;
        corrected.push(alloc, &corrector, b, &block)?;
    }
    Ok(corrected)
}
