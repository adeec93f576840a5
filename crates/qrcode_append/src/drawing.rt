//! Makes the symbol of each part.

ghost use Rattle.std.specs.Prelude.{◌≡◌, ◌+◌, ◌-◌, ◌≤◌, ◌<◌, false, length, IfOk, OnOk, IsOkUnless, IsTrue};
ghost use Rattle.qrcode_types.specs.Versions.{is_micro, has_level, capacity};
ghost use Rattle.qrcode_types.specs.declared.types.QrError.TheVariants.{OutOfMemory};
ghost use Rattle.qrcode_bits.specs.Pushes.{with_bits};
ghost use Rattle.qrcode_bits.specs.Refusals.{data_limit, bit_limit};
ghost use Rattle.qrcode_bits.specs.StructuredAppend.{append_front, parity};
ghost use Rattle.qrcode_append.specs.Division.{part};
ghost use Rattle.qrcode_append.specs.Reading.{EachAt};
ghost use Rattle.qrcode_append.specs.Symbols.{front_length, PartFits, HoldSeveral, IsPartList, IsPartSymbol};

use crate::division::{parity_of, part};
use crate::holding::Plan;
use qrcode::QrCode;
use qrcode::types::QrResult;
use qrcode_bits::bits::Bits;
use qrcode_bits::optimize::least_segments_in;
use std::alloc::Global;

// What the header of a symbol says: its place, that of the last symbol, and the data's parity.
#[derive(Copy, Clone)]
struct Share {
    place: u8,
    last: u8,
    parity: u8,
    ghost inside: { place ≤ last },
    ghost last_at_most: { last ≤ 15 },
}

// Appends the header, unless the symbol is the only one.
fn push_front(bits: &mut Bits, share: Share) -> QrResult<()>
    requires normal { is_micro bits.old.version ≡ false }
    requires room { length bits.old.bits + 20 ≤ bit_limit }
    ensures appends { OnOk result (bits.new
        ≡ with_bits bits.old (append_front share.place share.last share.parity)) }
    ensures memory { IsOkUnless result OutOfMemory }
{
    if share.last == 0 {
        return Ok(());
    }
    bits.push_structured_append(share.place, share.last, share.parity)
}

// Writes a part as a terminated list of bits.
fn part_bits(alloc: Global, bytes: &[u8], wanted: Plan, share: Share) -> QrResult<Bits>
    requires exists { IsTrue (has_level wanted.version wanted.ec_level) }
    requires normal { is_micro wanted.version ≡ false }
    requires length_at_most { length bytes.now ≤ data_limit }
    requires room { PartFits wanted.manner wanted.version bytes.now (front_length share.last)
        (capacity wanted.version wanted.ec_level) }
    ensures bits { IfOk result (IsPartList wanted.manner wanted.version wanted.ec_level
        share.place share.last share.parity bytes.now) }
    ensures memory { IsOkUnless result OutOfMemory }
{
    let segments = least_segments_in(alloc, bytes, wanted.version, wanted.manner.modes())?;
    let mut bits = Bits::new(alloc, wanted.version);
    push_front(&mut bits, share)?;
    bits.end_with(bytes, segments, wanted.ec_level)?;
    Ok(bits)
}

// Makes the symbol of a part.
fn part_symbol(alloc: Global, bytes: &[u8], wanted: Plan, share: Share) -> QrResult<QrCode>
    requires exists { IsTrue (has_level wanted.version wanted.ec_level) }
    requires normal { is_micro wanted.version ≡ false }
    requires length_at_most { length bytes.now ≤ data_limit }
    requires room { PartFits wanted.manner wanted.version bytes.now (front_length share.last)
        (capacity wanted.version wanted.ec_level) }
    ensures symbol { IfOk result (IsPartSymbol wanted.manner wanted.version wanted.ec_level
        share.place share.last share.parity bytes.now) }
    ensures memory { IsOkUnless result OutOfMemory }
{
    let bits = part_bits(alloc, bytes, wanted, share)?;
    QrCode::with_bits(alloc, bits, wanted.ec_level)
}

// Makes the symbols of `count` parts.
pub(crate) fn symbols(
    alloc: Global,
    bytes: &[u8],
    wanted: Plan,
    count: usize,
) -> QrResult<Vec<QrCode>>
    requires { HoldSeveral wanted.manner wanted.version wanted.ec_level bytes.now count }
    ensures count { IfOk result (λ codes. length codes.items ≡ count) }
    ensures symbols { IfOk result (λ codes. EachAt (λ place. IsPartSymbol
        wanted.manner wanted.version wanted.ec_level place (count - 1) (parity bytes.now)
        (part wanted.manner bytes.now count place)) codes.items) }
    ensures memory { IsOkUnless result OutOfMemory }
{
    let parity = parity_of(bytes);
    let last = (count - 1) as u8;
    let mut codes = Vec::new(alloc);
    for place in 0..count {
        let data = part(bytes, wanted.manner, count, place);
        let share = Share {
            place: place as u8,
            last,
            parity,
        };
        codes.push(part_symbol(alloc, data, wanted, share)?)?;
    }
    Ok(codes)
}
