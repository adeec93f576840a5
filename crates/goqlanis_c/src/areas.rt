//! Calls for areas of a symbol that may show anything, such as a logo, and for damage.

ghost use Rattle.goqlanis_buffers.specs.Areas.{CoversArea, TellsLargest, WritesReserve};
ghost use Rattle.goqlanis_buffers.specs.Calls.{IsReported, IsReportedAt};
ghost use Rattle.goqlanis_buffers.specs.Damaging.{WritesDamage};

use goqlanis_buffers::answers::{answer, answer_at};
use goqlanis_buffers::areas::{AreaUse, Wish, cover, largest, reserve_into};
use goqlanis_buffers::damaging::{Promised, Wrong, damage};
use qrcode_damage::areas::Rectangle;
use std::alloc::Global;

/// Reports what an area takes of a symbol of this version and level. Writes how many codewords of
/// each block have modules in it to the start of `touched` (81 items are always enough), and the
/// rest to `area_use`.
///
/// Returns 0, or the number of the first `Refusal` that applies: `NoSuchLevel`, `NoSuchVersion`,
/// `LevelNotInVersion`, `NoSuchArea`, `SmallBuffer`; or of `OutOfMemory`. After an error the
/// outputs are unchanged.
#[unsafe(no_mangle)]
pub extern "C" fn goq_reserve(
    alloc: Global,
    version: u32,
    level: u32,
    rectangles: &[Rectangle],
    touched: &mut [usize],
    area_use: &mut AreaUse,
) -> u32
    ensures { IsReported (WritesReserve version level rectangles.now touched.old touched.new)
        result area_use.old area_use.new }
{
    let written = reserve_into(alloc, version, level, rectangles, touched);
    answer(written, area_use)
}

/// Finds the largest rectangle in the middle of a symbol of this version and level that leaves what
/// `wish` asks for, and writes it to `rectangle`.
///
/// Returns 0, or the number of the first `Refusal` that applies: `NoSuchStruct`, `NoSuchLevel`,
/// `NoSuchVersion`, `LevelNotInVersion`, `NoArea`; or of `OutOfMemory`. After an error `rectangle`
/// is unchanged.
#[unsafe(no_mangle)]
pub extern "C" fn goq_largest_area(
    alloc: Global,
    version: u32,
    level: u32,
    wish: &Wish,
    rectangle: &mut Rectangle,
) -> u32
    ensures { IsReported (TellsLargest version level wish.now)
        result rectangle.old rectangle.new }
{
    answer(largest(alloc, version, level, wish), rectangle)
}

/// Makes the modules of an area of a symbol light. The area may then show anything: every square
/// that agrees with the result outside the area decodes to the bytes and headers of the symbol, and
/// to nothing else.
///
/// Returns 0, or the number of the first `Refusal` that applies: `NoSuchSide`, `NoFormat`,
/// `NoSuchArea`, `AreaBlock` (with the block in `place`), `AreaFormat`; or of `OutOfMemory`. After
/// an error `modules` is unchanged.
#[unsafe(no_mangle)]
pub extern "C" fn goq_cover(
    alloc: Global,
    modules: &mut [u8],
    rectangles: &[Rectangle],
    place: &mut usize,
) -> u32
    ensures { IsReportedAt (CoversArea rectangles.now modules.old modules.new)
        result tt tt place.old place.new }
{
    answer_at(cover(alloc, modules, rectangles), &mut (), place)
}

/// Makes exactly so much of a symbol wrong, and writes how much is within the promise to
/// `promised`. Within it, the result decodes to the data and headers of the symbol, and to nothing
/// else.
///
/// Returns 0, or the number of the first `Refusal` that applies: `NoSuchStruct`, `NoSuchSide`,
/// `NoFormat`, `ManyCodewords`, `ManyFormatBits`, `ManyVersionBits`, `ManyPatternModules`; or of
/// `OutOfMemory`. After an error the outputs are unchanged.
#[unsafe(no_mangle)]
pub extern "C" fn goq_damage(
    alloc: Global,
    modules: &mut [u8],
    wrong: &Wrong,
    promised: &mut Promised,
) -> u32
    ensures { IsReported (WritesDamage wrong.now modules.old modules.new)
        result promised.old promised.new }
{
    answer(damage(alloc, modules, wrong), promised)
}
