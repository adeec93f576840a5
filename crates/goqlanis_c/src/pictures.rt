//! Calls that draw pictures.

ghost use Rattle.goqlanis_buffers.specs.Calls.{IsReported, TellsLength, WritesPicture};
ghost use Rattle.goqlanis_buffers.specs.Logos.{WritesLogo};

use goqlanis_buffers::answers::answer;
use goqlanis_buffers::logos::put_with_logo;
use goqlanis_buffers::pictures::{Asked, Drawing, length_of, put_picture};
use qrcode_damage::areas::Rectangle;
use std::alloc::Global;

/// Draws `modules` as `drawing` asks. Writes the picture to the start of `out`, and its length to
/// `count`. The modules are bytes, row by row, dark if not zero. Text does not end with a zero.
///
/// Returns 0, or the number of the first `Refusal` that applies: `NoSuchStruct`, `NoSuchFormat`,
/// `NotSquare`, `NoSuchSize`, `NotInFormat`, `NoSuchSide`, `SmallBuffer`; or of `OutOfMemory`. After
/// an error the outputs are unchanged.
#[unsafe(no_mangle)]
pub extern "C" fn goq_draw_with(
    alloc: Global,
    modules: &[u8],
    width: u32,
    drawing: &Drawing,
    out: &mut [u8],
    count: &mut usize,
) -> u32
    ensures { IsReported (WritesPicture modules.now width drawing.now out.old out.new)
        result count.old count.new }
{
    let asked = Asked {
        modules,
        width,
        drawing,
    };
    answer(put_picture(alloc, &asked, out), count)
}

/// Writes the length of the picture that `goq_draw_with` would write to `count`.
///
/// Returns 0, or the number of a `Refusal`: those of `goq_draw_with` except `SmallBuffer`. After an
/// error `count` is unchanged.
#[unsafe(no_mangle)]
pub extern "C" fn goq_draw_with_length(
    alloc: Global,
    modules: &[u8],
    width: u32,
    drawing: &Drawing,
    count: &mut usize,
) -> u32
    ensures { IsReported (TellsLength modules.now width drawing.now) result count.old count.new }
{
    let asked = Asked {
        modules,
        width,
        drawing,
    };
    answer(length_of(alloc, &asked), count)
}

/// Draws a PNG file like `goq_draw_with`, with the picture in the PNG file `logo` over the modules
/// of `area`: in their middle, in its own proportions.
///
/// Returns 0, or the number of the first `Refusal` that applies: those of `goq_draw_with` but
/// `SmallBuffer`; `NotInFormat` for other formats, `NoSuchSize` for more than 8,192 pixels a side,
/// `NoSuchArea`, `NotPicture`, `BrokenPicture`, `SmallBuffer`; or of `OutOfMemory`. After an error
/// the outputs are unchanged.
#[unsafe(no_mangle)]
pub extern "C" fn goq_draw_logo(
    alloc: Global,
    modules: &[u8],
    width: u32,
    drawing: &Drawing,
    logo: &[u8],
    area: &Rectangle,
    out: &mut [u8],
    count: &mut usize,
) -> u32
    ensures { IsReported (WritesLogo
        (record { modules = modules.entry; width = width; drawing = drawing.entry })
        logo.now area.now out.old out.new)
        result count.old count.new }
{
    let asked = Asked {
        modules,
        width,
        drawing,
    };
    answer(put_with_logo(alloc, &asked, logo, *area, out), count)
}
