//! Splits data over several symbols (structured append), in a buffer.

ghost use Rattle.std.specs.Prelude.{◌≡◌, ◌⊎◌, ◌<◌, ◌++◌, ℕ, List, length, IfOk, IfErr, OnOk, OnErr, IsOkUnless};
ghost use Rattle.qrcode_types.specs.declared.types.QrError.TheVariants.{OutOfMemory};
ghost use Rattle.goqlanis_buffers.specs.Outputs.{module_bytes};
ghost use Rattle.goqlanis_buffers.specs.Several.{modules_of, AreAsked, AreOf, AreBeyondSeveral, IsSeveralCause, WritesSeveral};

use crate::answers::Refusal;
use crate::names::level_named;
use crate::options::is_sound;
use crate::symbols::{Symbol, described, put};
use qrcode::QrCode;
use qrcode::bits::Manner;
use qrcode::types::{Color, EcLevel, QrError, QrResult};
use qrcode_append::{Versions, encode_among, encode_counted};
use std::alloc::Global;

/// The options of C for several symbols.
#[repr(C)]
#[derive(Clone, Copy)]
pub struct Several {
    /// The size of this struct in bytes.
    pub size: u32,
    /// 0 for `L`, 1 for `M`, 2 for `Q`, 3 for `H`.
    pub level: u32,
    /// 0 for `Bytes`, 1 for `Text`.
    pub manner: u32,
    /// The smallest and the largest Normal version to use.
    pub min_version: u32,
    pub max_version: u32,
    /// How many symbols, or 0 for as few as possible.
    pub count: u32,
}

// The size of `Several` in bytes.
const SIZE: u32 = 24;

// What the options ask for, besides the count.
#[derive(Clone, Copy)]
pub struct Named {
    pub level: EcLevel,
    pub manner: Manner,
    pub versions: Versions,
}

/// Splits `bytes` over several symbols as `options` ask. Writes their modules, symbol after symbol,
/// to the start of `modules`, and how many there are to `count`; returns version, level and width
/// of each.
///
/// Errors, the first that applies: `NoSuchStruct`, `NoSuchLevel`, `NoSuchVersion`, `NoSuchManner`,
/// `NoSuchNumber`, `NotText`, `NoRoom`, `SmallBuffer`; or `OutOfMemory`. After an error `modules`
/// and `count` are unchanged.
pub fn encode_several(
    alloc: Global,
    bytes: &[u8],
    options: &Several,
    modules: &mut [u8],
    count: &mut usize,
) -> Result<Symbol, Refusal>
    ensures writes { WritesSeveral options.now bytes.now count.new modules.old modules.new result }
    ensures count_unchanged { OnErr result (count.new ≡ count.old) }
{
    let asked = look_up(options)?;
    if !is_sound(asked.manner, bytes) {
        return Err(Refusal::NotText);
    }
    let codes = match symbols_of(alloc, bytes, asked, options.count) {
        Ok(codes) => codes,
        Err(QrError::OutOfMemory) => return Err(Refusal::OutOfMemory),
        Err(_) => return Err(Refusal::NoRoom),
    };
    let all = modules_of(alloc, &codes)?;
    put(modules, &all)?;
    *count = codes.len();
    Ok(described(&codes[0]))
}

// Encodes `bytes` in `count` symbols, or in as few as possible if that is 0.
fn symbols_of(alloc: Global, bytes: &[u8], asked: Named, count: u32) -> QrResult<Vec<QrCode>>
    ensures made { IfOk result (λ codes. AreOf count asked bytes.now codes.items) }
    ensures some { IfOk result (λ codes. 0 < length codes.items) }
    ensures causes { IfErr result (λ e. (e ≡ OutOfMemory) ⊎ AreBeyondSeveral count asked bytes.now) }
{
    let Named {
        level,
        manner,
        versions,
    } = asked;
    if count == 0 {
        return encode_among(alloc, bytes, manner, versions, level);
    }
    encode_counted(alloc, bytes, manner, versions, level, count as usize)
}

// Looks up the numbers in options.
fn look_up(options: &Several) -> Result<Named, Refusal>
    ensures made { IfOk result (AreAsked options.now) }
    ensures causes { (bytes : List ℕ) (room : ℕ)
        → IfErr result (IsSeveralCause options.now bytes room) }
{
    if options.size != SIZE {
        return Err(Refusal::NoSuchStruct);
    }
    let Some(level) = level_named(options.level) else {
        return Err(Refusal::NoSuchLevel);
    };
    let (least, greatest) = (options.min_version, options.max_version);
    if least == 0 || least > greatest || greatest > 40 {
        return Err(Refusal::NoSuchVersion);
    }
    let manner = match options.manner {
        0 => Manner::Bytes,
        1 => Manner::Text,
        _ => return Err(Refusal::NoSuchManner),
    };
    if options.count > 16 {
        return Err(Refusal::NoSuchNumber);
    }
    let versions = Versions {
        least: least as usize,
        greatest: greatest as usize,
    };
    Ok(Named {
        level,
        manner,
        versions,
    })
}

// The modules of all symbols as bytes, symbol after symbol.
#[tactic(auto, using(qrcode_scan::proofs::Pieces::flat_map_more))]
fn modules_of(alloc: Global, codes: &[QrCode]) -> QrResult<Vec<u8>>
    ensures value { IfOk result (λ all. all.items ≡ modules_of codes.now) }
    ensures memory { IsOkUnless result OutOfMemory }
{
    let mut all = Vec::new(alloc);
    for code in codes {
        push_modules(&mut all, code.colors())?;
    }
    Ok(all)
}

// Appends modules as bytes.
fn push_modules(all: &mut Vec<u8>, colors: &[Color]) -> QrResult<()>
    ensures appends { OnOk result (all.new.items ≡ all.old.items ++ module_bytes colors.now) }
    ensures memory { IsOkUnless result OutOfMemory }
{
    for color in colors {
        all.push(color.select(1, 0))?;
    }
    Ok(())
}
