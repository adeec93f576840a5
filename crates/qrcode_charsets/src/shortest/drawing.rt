//! Draws the symbol of a text in a set.

ghost use Rattle.std.specs.Prelude.{◌≡◌, ◌+◌, ◌++◌, ◌≤◌, length, IfOk, OnOk, IsOkUnless, IsTrue};
ghost use Rattle.qrcode_types.specs.Versions.{is_valid, has_level, capacity};
ghost use Rattle.qrcode_types.specs.declared.types.QrError.TheVariants.{OutOfMemory};
ghost use Rattle.qrcode_bits.specs.Cuts.{IsCut};
ghost use Rattle.qrcode_bits.specs.Pushes.{with_bits};
ghost use Rattle.qrcode_bits.specs.Refusals.{bit_limit};
ghost use Rattle.qrcode_bits.specs.Segments.{total_cost};
ghost use Rattle.qrcode_bits.specs.Written.{terminated};
ghost use Rattle.qrcode_charsets.specs.Fronts.{front, has_front};
ghost use Rattle.qrcode_charsets.specs.Laid.{IsDrawnOf, bits_of};

use super::measuring::Measured;
use crate::sets::Charset;
use qrcode::QrCode;
use qrcode_bits::bits::Bits;
use qrcode_types::types::{EcLevel, QrResult, Version};
use std::alloc::Global;

// Draws the symbol of a text that fits it, and returns its set too.
pub(super) fn symbol_of(
    alloc: Global,
    measured: Measured,
    version: Version,
    ec_level: EcLevel,
) -> QrResult<(QrCode, Charset)>
    requires exists { IsTrue (has_level version ec_level) }
    requires front_exists { IsTrue (has_front version measured.set) }
    requires cut { IsCut version measured.bytes.items measured.segments.items }
    requires room { length (front measured.set) + total_cost version measured.segments.items
        ≤ capacity version ec_level }
    ensures drawn { IfOk result (λ made. IsDrawnOf version ec_level measured made.1 made.0) }
    ensures memory { IsOkUnless result OutOfMemory }
{
    let set = measured.set;
    let bits = ended_bits(alloc, measured, version, ec_level)?;
    let code = QrCode::with_bits(alloc, bits, ec_level)?;
    Ok((code, set))
}

// Returns the data bits of a symbol: what names the set, the segments, terminator and padding.
fn ended_bits(
    alloc: Global,
    measured: Measured,
    version: Version,
    ec_level: EcLevel,
) -> QrResult<Bits>
    requires exists { IsTrue (has_level version ec_level) }
    requires front_exists { IsTrue (has_front version measured.set) }
    requires cut { IsCut version measured.bytes.items measured.segments.items }
    requires room { length (front measured.set) + total_cost version measured.segments.items
        ≤ capacity version ec_level }
    ensures ends { IfOk result (λ list. list ≡ record {
      version = version;
      bits = terminated version ec_level (bits_of version measured);
    }) }
    ensures full { IfOk result (λ list. length list.bits ≡ capacity version ec_level) }
    ensures memory { IsOkUnless result OutOfMemory }
{
    let Measured {
        set,
        bytes,
        segments,
        ..
    } = measured;
    let mut bits = fronted_bits(alloc, set, version)?;
    bits.end_with(&bytes, segments, ec_level)?;
    Ok(bits)
}

// Returns the bits that name the set.
fn fronted_bits(alloc: Global, set: Charset, version: Version) -> QrResult<Bits>
    requires valid { IsTrue (is_valid version) }
    requires exists { IsTrue (has_front version set) }
    ensures value { IfOk result (λ list. list ≡ record { version = version; bits = front set }) }
    ensures memory { IsOkUnless result OutOfMemory }
{
    let mut bits = Bits::new(alloc, version);
    push_front(&mut bits, set)?;
    Ok(bits)
}

// Appends what names the set: an ECI designator or nothing.
fn push_front(bits: &mut Bits, set: Charset) -> QrResult<()>
    requires exists { IsTrue (has_front bits.old.version set) }
    requires room { length bits.old.bits + 12 ≤ bit_limit }
    ensures appends { OnOk result (bits.new ≡ with_bits bits.old (front set)) }
    ensures memory { IsOkUnless result OutOfMemory }
{
    match set.designator() {
        Some(number) => bits.push_eci_designator(number),
        None => Ok(()),
    }
}
