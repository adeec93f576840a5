//! Areas of symbols that may show anything.

ghost use Rattle.std.specs.Prelude.{◌≡◌, ◌<◌, ℕ, Bool, length, slice_index, IsTrue};
ghost use Rattle.qrcode_types.specs.Versions.{has_level};
ghost use Rattle.qrcode_types.specs.declared.types.EcLevel.{EcLevel};
ghost use Rattle.qrcode_types.specs.declared.types.Version.{Version};
ghost use Rattle.qrcode_damage.specs.Areas.{covers};
ghost use Rattle.qrcode_damage.specs.Reserves.{IsReserve};
ghost use Rattle.goqlanis_buffers.specs.Areas.{covered_byte, wanted, CoversArea, IsAreaUse, TellsLargest, WritesReserve};

use crate::answers::{Fault, Refusal};
use crate::names::pair_named;
use crate::reading::format_of;
use crate::symbols::put;
use qrcode::types::{EcLevel, Version};
use qrcode_damage::areas::{Area, Rectangle};
use qrcode_damage::rectangles::{Kept, Wish as Wanted, largest_rectangle};
use qrcode_damage::reserve::{Reserve, reserve_in};
use qrcode_types::tables::Blocks;
use qrcode_types::versions::side;
use std::alloc::Global;

/// What an area takes of a symbol, and how much error correction it leaves.
#[repr(C)]
#[derive(Clone, Copy)]
pub struct AreaUse {
    /// How many blocks the symbol has.
    pub blocks: usize,
    /// How many codewords of each block may be lost.
    pub allowed: usize,
    /// A block of which the area touches the most codewords.
    pub worst: usize,
    /// How many modules of the first copy of the format information lie in the area. Three may be
    /// lost.
    pub first: usize,
    /// How many modules of the last copy. In Micro the first copy is also the last.
    pub last: usize,
    /// How many more codewords of each block may be lost outside the area, or 0.
    pub least: usize,
    /// 1 if the area may show anything, else 0.
    pub may_show_anything: u32,
}

/// What C asks of a rectangle in the middle of a symbol.
#[repr(C)]
#[derive(Clone, Copy)]
pub struct Wish {
    /// The size of this struct in bytes.
    pub size: u32,
    /// The width of the rectangle, in proportion to `down`.
    pub across: u32,
    /// The height of the rectangle, in proportion to `across`.
    pub down: u32,
    /// How many wrong codewords of each block can be corrected outside the rectangle, or `HALF`.
    pub reserve: u32,
    /// Not 0 to avoid alignment patterns too.
    pub keep_alignment: u32,
}

// The size of a `Wish` in bytes.
const SIZE: u32 = 20;

// The most rectangles of an area: as many as the largest symbol has modules.
const MOST: usize = 31_329;

// A reserve of half of the codewords that may be lost.
const HALF: u32 = 0xffff_ffff;

/// Writes how many codewords of each block have modules in an area to the start of `touched`, and
/// returns what else the area takes.
///
/// Errors, the first that applies: `NoSuchLevel`, `NoSuchVersion`, `LevelNotInVersion`,
/// `NoSuchArea`, `SmallBuffer`; or `OutOfMemory`. After an error `touched` is unchanged.
pub fn reserve_into(
    alloc: Global,
    version: u32,
    level: u32,
    rectangles: &[Rectangle],
    touched: &mut [usize],
) -> Result<AreaUse, Refusal>
    ensures { WritesReserve version level rectangles.now touched.old touched.new result }
{
    let (version, level) = pair_named(version, level)?;
    if rectangles.len() > MOST {
        return Err(Refusal::NoSuchArea);
    }
    let Some(area) = Area::new(version, rectangles) else {
        return Err(Refusal::NoSuchArea);
    };
    let reserve = reserve_in(alloc, version, level, &area)?;
    put(touched, &reserve.touched)?;
    Ok(made_of(&reserve))
}

// Converts a reserve, except the counts of its blocks.
fn made_of(reserve: &Reserve) -> AreaUse
    ensures { (version : Version) (level : EcLevel) (area : ℕ → ℕ → Bool)
        → IsReserve version level area reserve.now
        → IsAreaUse version level area reserve.now.touched.items result }
{
    let least = reserve.least();
    AreaUse {
        blocks: reserve.touched.len(),
        allowed: reserve.allowed,
        worst: reserve.worst,
        first: reserve.first,
        last: reserve.last,
        least: least.unwrap_or(0),
        may_show_anything: least.is_some() as u32,
    }
}

/// Finds the largest rectangle in the middle of a symbol that satisfies `wish`.
///
/// Errors, the first that applies: `NoSuchStruct`, `NoSuchLevel`, `NoSuchVersion`,
/// `LevelNotInVersion`, `NoArea`; or `OutOfMemory`.
pub fn largest(alloc: Global, version: u32, level: u32, wish: &Wish) -> Result<Rectangle, Refusal>
    ensures { TellsLargest version level wish.now result }
{
    if wish.size != SIZE {
        return Err(Refusal::NoSuchStruct);
    }
    let (version, level) = pair_named(version, level)?;
    let wish = wish_of(version, level, wish);
    largest_rectangle(alloc, version, level, wish)?.ok_or(Refusal::NoArea)
}

// Converts a wish; the version and level give the number for `HALF`.
fn wish_of(version: Version, level: EcLevel, wish: &Wish) -> Wanted
    requires { IsTrue (has_level version level) }
    ensures { result ≡ wanted version level wish.now }
{
    let reserve = if wish.reserve == HALF {
        Blocks::of(version, level).unwrap().ec_length / 2 / 2
    } else {
        wish.reserve as usize
    };
    Wanted {
        across: wish.across,
        down: wish.down,
        reserve,
        kept: if wish.keep_alignment == 0 {
            Kept::ButAlignment
        } else {
            Kept::AllPatterns
        },
    }
}

/// Makes the modules of an area of a symbol light. The area may then show anything. After an error
/// `modules` is unchanged.
///
/// Errors, the first that applies: `NoSuchSide`, `NoFormat`, `NoSuchArea`, `AreaBlock` at the
/// block, `AreaFormat`; or `OutOfMemory`.
pub fn cover(alloc: Global, modules: &mut [u8], rectangles: &[Rectangle]) -> Result<(), Fault>
    ensures { CoversArea rectangles.now modules.old modules.new result }
{
    let format = format_of(alloc, modules)?;
    if rectangles.len() > MOST {
        return Err(Fault::Other(Refusal::NoSuchArea));
    }
    let Some(area) = Area::new(format.version, rectangles) else {
        return Err(Fault::Other(Refusal::NoSuchArea));
    };
    let Ok(reserve) = reserve_in(alloc, format.version, format.level, &area) else {
        return Err(Fault::Other(Refusal::OutOfMemory));
    };
    if reserve.most > reserve.allowed {
        return Err(Fault::At(reserve.worst, Refusal::AreaBlock));
    }
    if reserve.excess().is_some() {
        return Err(Fault::Other(Refusal::AreaFormat));
    }
    lighten(modules, side(format.version), &area);
    Ok(())
}

// Makes the modules of an area light, in rows of `width`.
fn lighten(modules: &mut [u8], width: usize, area: &Area<'_>)
    requires { 0 < width }
    ensures length { length modules.new ≡ length modules.old }
    ensures each { (i : ℕ) → i < length modules.old → slice_index modules.new i
        ≡ covered_byte width (covers area.now) modules.old i }
{
    for i in 0..modules.len() {
        if area.has(i % width, i / width) {
            modules[i] = 0;
        }
    }
}
