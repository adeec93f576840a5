//! Symbols with exactly so much damage.

ghost use Rattle.std.specs.Prelude.{◌≡◌, Some};
ghost use Rattle.goqlanis_buffers.specs.Damaging.{excess_refusal, wanted, WritesDamage};

use crate::answers::Refusal;
use crate::reading::format_of;
use crate::symbols::{colors_of, fill_modules};
use qrcode_damage::damage::{Damage, TooMuch, damaged, most_codewords};
use std::alloc::Global;

/// How much of a symbol C wants to be wrong.
#[repr(C)]
#[derive(Clone, Copy)]
pub struct Wrong {
    /// The size of this struct in bytes.
    pub size: u32,
    /// The number of wrong codewords in each block.
    pub codewords: usize,
    /// The number of wrong bits in each copy of the format information.
    pub format_bits: usize,
    /// The number of wrong bits in each copy of the version information.
    pub version_bits: usize,
    /// The number of wrong modules of patterns.
    pub pattern_modules: usize,
    /// Decides which ones.
    pub seed: u64,
}

/// How much damage is within the promise.
#[repr(C)]
#[derive(Clone, Copy)]
pub struct Promised {
    /// How many wrong codewords of each block are.
    pub codewords: usize,
    /// 1 if the damage is, else 0.
    pub is_promised: u32,
}

// The size of a `Wrong` in bytes.
const SIZE: u32 = 48;

/// Makes exactly so much of a symbol wrong; its modules become bytes, 1 for a dark one. Returns
/// whether that is within the promise: the square then decodes to the data and headers of the
/// symbol, and to nothing else.
///
/// Errors, the first that applies: `NoSuchStruct`, `NoSuchSide`, `NoFormat`, `ManyCodewords`,
/// `ManyFormatBits`, `ManyVersionBits`, `ManyPatternModules`; or `OutOfMemory`. After an error
/// `modules` is unchanged.
pub fn damage(alloc: Global, modules: &mut [u8], wrong: &Wrong) -> Result<Promised, Refusal>
    ensures { WritesDamage wrong.now modules.old modules.new result }
{
    if wrong.size != SIZE {
        return Err(Refusal::NoSuchStruct);
    }
    let format = format_of(alloc, modules)?;
    let (version, level) = (format.version, format.level);
    let colors = colors_of(alloc, modules)?;
    let asked = wanted(wrong);
    let made = match damaged(alloc, version, level, &colors, asked) {
        Ok(made) => made,
        Err(excess) => return Err(excess_refusal(excess)),
    };
    fill_modules(modules, &made);
    Ok(Promised {
        codewords: most_codewords(version, level),
        is_promised: asked.is_promised(version, level) as u32,
    })
}

// Converts the damage that C wants.
fn wanted(wrong: &Wrong) -> Damage
    ensures { result ≡ wanted wrong.now }
{
    Damage {
        codewords: wrong.codewords,
        format_bits: wrong.format_bits,
        version_bits: wrong.version_bits,
        pattern_modules: wrong.pattern_modules,
        seed: wrong.seed,
    }
}

// Converts the error of damage that a symbol has no room for.
fn excess_refusal(excess: TooMuch) -> Refusal
    ensures { result ≡ excess_refusal excess }
{
    match excess {
        TooMuch::Codewords(_) => Refusal::ManyCodewords,
        TooMuch::FormatBits => Refusal::ManyFormatBits,
        TooMuch::VersionBits(_) => Refusal::ManyVersionBits,
        TooMuch::PatternModules(_) => Refusal::ManyPatternModules,
        TooMuch::OutOfMemory => Refusal::OutOfMemory,
    }
}
