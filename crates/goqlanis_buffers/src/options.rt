//! Encodes data with options.

ghost use Rattle.std.specs.Prelude.{◌≡◌, ℕ, List, false, IfOk, IfErr, IsTrue, IsUtf8};
ghost use Rattle.qrcode_bits.specs.Manners.{is_text};
ghost use Rattle.goqlanis_buffers.specs.Calls.{WritesWith};
ghost use Rattle.goqlanis_buffers.specs.Options.{choice_named, manner_named, IsAsked, IsOptionsCause};

use crate::answers::Refusal;
use crate::names::{level_named, version_named};
use crate::symbols::{Symbol, write_masked};
use goqlanis_request::{Choice, symbol_in};
use qrcode::bits::Manner;
use qrcode::types::EcLevel;
use std::alloc::Global;

/// The options of C for encoding.
#[repr(C)]
#[derive(Clone, Copy)]
pub struct Options {
    /// The size of this struct in bytes.
    pub size: u32,
    /// 0 for `L`, 1 for `M`, 2 for `Q`, 3 for `H`.
    pub level: u32,
    /// 0 for `Bytes`, 1 for `Text`, 2 for `MarkedText`.
    pub manner: u32,
    /// 1 to 40 for Normal, 41 to 44 for Micro; or 0 for the smallest that holds the data.
    pub version: u32,
    /// If `version` is 0, the smallest version to try.
    pub min_version: u32,
    /// If `version` is 0: not 0 to raise the level as far as that version still holds the data.
    pub boost: u32,
    /// The number of a mask of the version, plus 1; or 0 for the first mask of the lowest penalty.
    pub mask: u32,
}

// The size of `Options` in bytes.
const SIZE: u32 = 28;

/// What options ask for.
#[derive(Clone, Copy)]
pub struct CodeSettings {
    pub choice: Choice,
    pub level: EcLevel,
    pub manner: Manner,
    /// The number of a mask.
    pub mask: Option<usize>,
}

/// Encodes `bytes` as `options` ask. Writes the modules to the start of `modules`, and returns
/// version, level and width.
///
/// Errors, the first that applies: `NoSuchStruct`, `NoSuchLevel`, `NoSuchVersion`, `NoSuchManner`,
/// `NotText`, `NoMode`, `LevelNotInVersion`, `NoRoom`, `NoSuchMask`, `SmallBuffer`; or
/// `OutOfMemory`. After an error `modules` is unchanged.
#[tactic(auto, using(crate::proofs::Refused::masked_as, crate::proofs::Refused::refused_as))]
pub fn encode_with(
    alloc: Global,
    bytes: &[u8],
    options: &Options,
    modules: &mut [u8],
) -> Result<Symbol, Refusal>
    ensures { WritesWith options.now bytes.now modules.old modules.new result }
{
    let asked = asked_by(options)?;
    if !is_sound(asked.manner, bytes) {
        return Err(Refusal::NotText);
    }
    match symbol_in(alloc, asked.choice, asked.manner, asked.level, bytes) {
        Ok(code) => write_masked(alloc, &code, asked.mask, modules),
        Err(error) => Err(Refusal::from(error)),
    }
}

/// Looks up the numbers in options.
///
/// Errors, the first that applies: `NoSuchStruct`, `NoSuchLevel`, `NoSuchVersion`, `NoSuchManner`.
pub(crate) fn asked_by(options: &Options) -> Result<CodeSettings, Refusal>
    ensures made { IfOk result (IsAsked options.now) }
    ensures causes { (bytes : List ℕ) (room : ℕ)
        → IfErr result (IsOptionsCause options.now bytes room) }
{
    if options.size != SIZE {
        return Err(Refusal::NoSuchStruct);
    }
    let Some(level) = level_named(options.level) else {
        return Err(Refusal::NoSuchLevel);
    };
    let Some(choice) = choice_named(options) else {
        return Err(Refusal::NoSuchVersion);
    };
    let Some(manner) = manner_named(options.manner) else {
        return Err(Refusal::NoSuchManner);
    };
    Ok(CodeSettings {
        choice,
        level,
        manner,
        mask: (options.mask as usize).checked_sub(1),
    })
}

/// Returns whether `bytes` are UTF-8, if `manner` needs that; else `true`.
pub(crate) fn is_sound(manner: Manner, bytes: &[u8]) -> bool
    ensures text { IsTrue result → IsTrue (is_text manner) → IsUtf8 bytes.now }
    ensures other { result ≡ false → ¬ IsUtf8 bytes.now }
    ensures asked { result ≡ false → IsTrue (is_text manner) }
{
    match manner {
        Manner::Bytes => true,
        Manner::Text | Manner::MarkedText => str::from_utf8(bytes).is_ok(),
    }
}

// The choice of a version that options make.
fn choice_named(options: &Options) -> Option<Choice>
    ensures value { result ≡ choice_named options.now }
{
    if options.version != 0 {
        return version_named(options.version).map(Choice::At);
    }
    let from = version_named(options.min_version)?;
    Some(if options.boost == 0 {
        Choice::From(from)
    } else {
        Choice::Boosted(from)
    })
}

// The manner of a number.
fn manner_named(number: u32) -> Option<Manner>
    ensures value { result ≡ manner_named number }
{
    match number {
        0 => Some(Manner::Bytes),
        1 => Some(Manner::Text),
        2 => Some(Manner::MarkedText),
        _ => None,
    }
}
