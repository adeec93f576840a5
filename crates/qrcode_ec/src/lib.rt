//! Error correction: Reed-Solomon codes, blocks and interleaving.
#![tactic(auto)]

mod division;
mod field;
mod interleaving;

ghost use Rattle.std.specs.Prelude.{◌≡◌, ℕ, ◌+◌, ◌-◌, ◌/◌, ◌≤◌, ◌++◌, List, false, length, vec_len, IfOk, IsTrue, is_ok};
ghost use Rattle.std.specs.Result.{IsOkUnless};
ghost use Rattle.qrcode_types.specs.Bits.{AreBytes};
ghost use Rattle.qrcode_types.specs.Versions.{is_valid, has_level, block_lengths, total_ec_length, data_length};
ghost use Rattle.qrcode_types.specs.declared.types.QrError.TheVariants.{InvalidVersion, OutOfMemory};
ghost use Rattle.qrcode_ec.specs.Allowed.{misdecode_protection};
ghost use Rattle.qrcode_ec.specs.Blocks.{AreCodewords};
ghost use Rattle.qrcode_ec.specs.Codes.{Vanishes, HasDistanceAbove};

pub use division::{Divider, ROOM};
pub use field::{power, product, quotient};
use interleaving::DataBlocks;
use qrcode_types::tables::Blocks;
use qrcode_types::types::{EcLevel, QrError, QrResult, Version};
use std::alloc::Global;

/// Returns the `ec_code_size` error correction bytes (at most 69) for a block of data bytes: the
/// only bytes which, appended to `bytes`, make the whole vanish at that many powers of 2 (ISO/IEC
/// 18004:2006, 6.5.2).
///
/// Errors: only `OutOfMemory`.
pub fn create_error_correction_code(
    alloc: Global,
    bytes: &[u8],
    ec_code_size: usize,
) -> QrResult<Vec<u8>>
    requires { ec_code_size ≤ 69 }
    ensures length { IfOk result (λ ec. vec_len ec ≡ ec_code_size) }
    ensures vanishes { IfOk result (λ ec. Vanishes (bytes.now ++ ec.items) ec_code_size) }
    ensures only { IfOk result (λ ec. (other : List ℕ)
        → AreBytes other → length other ≡ ec_code_size
        → Vanishes (bytes.now ++ other) ec_code_size → other ≡ ec.items) }
    ensures distance { length bytes.now + ec_code_size ≤ 255
        → IfOk result (λ ec. HasDistanceAbove ec_code_size (bytes.now ++ ec.items)) }
    ensures memory { IsOkUnless result OutOfMemory }
{
    let ec = Divider::new(ec_code_size).remainder(bytes);
    Ok(Vec::from_slice(alloc, &ec[..ec_code_size])?)
}

/// Returns the data codewords and the error correction codewords of a symbol, each list with its
/// blocks interleaved (ISO/IEC 18004:2006, 6.6). `bytes` are the data bytes of all blocks, exactly
/// as many as the symbol holds.
///
/// Errors: `InvalidVersion` if there is no such version, or it lacks the level; otherwise only
/// `OutOfMemory`.
pub fn construct_codewords(
    alloc: Global,
    bytes: &[u8],
    version: Version,
    ec_level: EcLevel,
) -> QrResult<(Vec<u8>, Vec<u8>)>
    requires { IsTrue (has_level version ec_level)
        → length bytes.now ≡ data_length version ec_level }
    ensures no_level { has_level version ec_level ≡ false → result ≡ Err InvalidVersion }
    ensures memory { IsTrue (has_level version ec_level) → IsOkUnless result OutOfMemory }
    ensures value { IfOk result (λ words.
        AreCodewords version ec_level bytes.now words.0.items words.1.items) }

    // A single block is not interleaved.
    ensures one_block { length (block_lengths version ec_level) ≡ 1
        → IfOk result (λ words. words.0.items ≡ bytes.now) }
{
    let Some(blocks) = Blocks::of(version, ec_level) else {
        return Err(QrError::InvalidVersion);
    };
    let words = DataBlocks { blocks, bytes }.codewords(alloc)?;
    Ok(words)
}

/// Returns how many wrong codewords the standard allows over all blocks: half of the error
/// correction codewords, not counting those that small symbols keep for misdecode protection
/// (ISO/IEC 18004:2006, 6.5.1).
///
/// Errors: `InvalidVersion` if there is no such version, or it lacks the level.
pub fn max_allowed_errors(version: Version, ec_level: EcLevel) -> QrResult<usize>
    ensures no_level { has_level version ec_level ≡ false → result ≡ Err InvalidVersion }
    ensures accepts { IsTrue (has_level version ec_level) → IsTrue (is_ok result) }
    ensures value { IfOk result (λ errors.
        errors ≡ (total_ec_length version ec_level - misdecode_protection version ec_level) / 2) }
{
    let Some(blocks) = Blocks::of(version, ec_level) else {
        return Err(QrError::InvalidVersion);
    };
    let usable = blocks
        .total_ec_length()
        .saturating_sub(misdecode_protection(version, ec_level));
    Ok(usable / 2)
}

// Returns how many error correction codewords are kept to detect wrong corrections.
fn misdecode_protection(version: Version, ec_level: EcLevel) -> usize
    requires { IsTrue (is_valid version) }
    ensures { result ≡ misdecode_protection version ec_level }
{
    match (version, ec_level) {
        (Version::Normal(1) | Version::Micro(2), EcLevel::L) => 3,
        (Version::Normal(2) | Version::Micro(_), EcLevel::L) => 2,
        (Version::Normal(1) | Version::Micro(2), EcLevel::M) => 2,
        (Version::Normal(3), EcLevel::L) => 1,
        (Version::Normal(1), EcLevel::Q | EcLevel::H) => 1,
        _ => 0,
    }
}
