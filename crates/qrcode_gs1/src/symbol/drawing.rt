//! Encodes bytes after FNC1 as a symbol.

ghost use Rattle.std.specs.Prelude.{◌≡◌, ◌+◌, ◌++◌, ◌≤◌, ℕ, pos, false, length, IfOk, IfErr, IsOkUnless, IsTrue};
ghost use Rattle.qrcode_types.specs.Versions.{is_micro, has_level, capacity};
ghost use Rattle.qrcode_types.specs.declared.types.QrError.TheVariants.{OutOfMemory};
ghost use Rattle.qrcode_types.specs.declared.types.Version.TheVariants.{Normal};
ghost use Rattle.qrcode_bits.specs.Cuts.{IsCut};
ghost use Rattle.qrcode_bits.specs.Refusals.{data_limit};
ghost use Rattle.qrcode_bits.specs.Segments.{total_cost};
ghost use Rattle.qrcode_bits.specs.Written.{pieces_of, written, terminated};
ghost use Rattle.qrcode_gs1.specs.symbol.Characters.{mark};
ghost use Rattle.qrcode_gs1.specs.symbol.Symbols.{HoldsMarked, IsMarkedList, IsMarkedSymbol, IsMarkedRefused};

use crate::symbol::Fnc1;
use crate::symbol::characters::Characters;
use crate::symbol::choice::least_number;
use crate::symbol::least::least_segments;
use crate::symbol::mark::push_mark;
use qrcode::QrCode;
use qrcode::types::{EcLevel, QrError, QrResult, Version};
use qrcode_bits::bits::{Bits, DATA_LIMIT};
use qrcode_bits::optimize::Segment;
use std::alloc::Global;

// Returns the data bits of a symbol: the mark, segments of `bytes`, which are written as they are,
// terminator and padding.
fn ended_bits(
    alloc: Global,
    bytes: &[u8],
    segments: Vec<Segment>,
    position: Fnc1,
    version: Version,
    ec_level: EcLevel,
) -> QrResult<Bits>
    requires exists { IsTrue (has_level version ec_level) }
    requires normal { is_micro version ≡ false }
    requires cut { IsCut version bytes.now segments.items }
    requires room { length (mark position) + total_cost version segments.items
        ≤ capacity version ec_level }
    ensures ends { IfOk result (λ list. list ≡ record {
      version = version;
      bits = terminated version ec_level
          (mark position ++ written version (pieces_of bytes.now segments.items));
    }) }
    ensures full { IfOk result (λ list. length list.bits ≡ capacity version ec_level) }
    ensures memory { IsOkUnless result OutOfMemory }
{
    let mut bits = Bits::new(alloc, version);
    push_mark(&mut bits, position)?;
    bits.end_with(bytes, segments, ec_level)?;
    Ok(bits)
}

// Returns the data bits for `bytes`: the mark and segments of the fewest bits, in a version that
// holds them.
fn marked_bits(
    alloc: Global,
    bytes: &[u8],
    position: Fnc1,
    number: usize,
    ec_level: EcLevel,
) -> QrResult<Bits>
    requires length_at_most { length bytes.now ≤ data_limit }
    requires at_most { number ≤ 40 }
    requires holds { HoldsMarked position ec_level bytes.now number }
    ensures bits { IfOk result
        (IsMarkedList position (Normal (pos number)) ec_level bytes.now) }
    ensures memory { IsOkUnless result OutOfMemory }
{
    let version = Version::Normal(number as i16);
    let cut = least_segments(alloc, bytes, version)?;
    let Characters {
        bytes: written,
        segments,
    } = Characters::of(alloc, bytes, &cut)?;
    ended_bits(alloc, &written, segments, position, version, ec_level)
}

// Encodes `bytes` after FNC1 at `ec_level`, in the smallest Normal version from `from` on that
// holds them.
//
// Errors: `DataTooLong` if none does; `OutOfMemory` if memory runs out.
pub(crate) fn symbol(
    alloc: Global,
    bytes: &[u8],
    position: Fnc1,
    ec_level: EcLevel,
    from: usize,
) -> QrResult<QrCode>
    ensures symbol { IfOk result (IsMarkedSymbol from position ec_level bytes.now) }
    ensures accepts { (number : ℕ) → from ≤ number → HoldsMarked position ec_level bytes.now number
        → IsOkUnless result OutOfMemory }
    ensures causes { IfErr result (IsMarkedRefused from position ec_level bytes.now) }
{
    if bytes.len() > DATA_LIMIT {
        return Err(QrError::DataTooLong);
    }
    let number = least_number(bytes, position, ec_level, from)?;
    let bits = marked_bits(alloc, bytes, position, number, ec_level)?;
    QrCode::with_bits(alloc, bits, ec_level)
}
