//! Makes error correction codewords.

use crate::digest::Digest;
use crate::words::Call;
use qrcode::ec;
use qrcode::types::{EcLevel, QrError, QrResult, Version};
use qrcode_types::tables::Blocks;
use std::alloc::Global;

/// Returns the digest of the error correction of one block, or of all codewords of a symbol.
pub fn run(alloc: Global, asked: &Call<'_>) -> QrResult<Digest> {
    match asked.kind {
        "block" => of_block(alloc, asked.data(), asked.number(1) as usize),
        _ => codewords(alloc, asked.data(), asked.version(), asked.level()),
    }
}

// Makes the `count` error correction codewords of a block.
fn of_block(alloc: Global, data: &[u8], count: usize) -> QrResult<Digest> {
    if count > 69 {
        return Err(QrError::InvalidCharacter);
    }
    let code = ec::create_error_correction_code(alloc, data, count)?;
    Ok(Digest::of(&code))
}

// Makes the codewords of `data`, which has to fill the blocks of the version and level exactly.
fn codewords(alloc: Global, data: &[u8], version: Version, level: EcLevel) -> QrResult<Digest> {
    if let Some(blocks) = Blocks::of(version, level)
        && blocks.data_length() != data.len()
    {
        return Err(QrError::InvalidCharacter);
    }
    let (data, ec) = ec::construct_codewords(alloc, data, version, level)?;
    Ok(Digest::of(&data).and(Digest::of(&ec)))
}
