//! Finds segments of the fewest bits after FNC1.

ghost use Rattle.std.specs.Prelude.{◌≡◌, ℕ, ◌≤◌, false, List, length, IsTrue, IfOk, IsOkUnless};
ghost use Rattle.qrcode_types.specs.Versions.{is_valid, is_micro};
ghost use Rattle.qrcode_types.specs.declared.types.QrError.TheVariants.{OutOfMemory};
ghost use Rattle.qrcode_bits.specs.Refusals.{data_limit};
ghost use Rattle.qrcode_bits.specs.declared.optimize.Segment.{Segment};
ghost use Rattle.qrcode_gs1.specs.symbol.Cuts.{IsLeastMarkedCut, marked_cost};
ghost use Rattle.qrcode_gs1.specs.symbol.Fewest.{AreSmall, AreStarts};

use crate::symbol::costs::{Headers, RestCosts, Start};
use qrcode::types::{QrResult, Version};
use qrcode_bits::optimize::Segment;
use std::alloc::{AllocError, Global};

// Returns the bits of the segments that take the fewest.
pub(crate) fn fewest_bits(bytes: &[u8], version: Version) -> usize
    requires valid { IsTrue (is_valid version) }
    requires normal { is_micro version ≡ false }
    requires length_at_most { length bytes.now ≤ data_limit }
    ensures least { (segments : List Segment) × (IsLeastMarkedCut version bytes.now segments
        × (result ≡ marked_cost version bytes.now segments)) }
    ensures at_most { result ≤ 33554432 }
{
    let headers = Headers::of(version);
    let mut costs = RestCosts::at_end();
    let mut follows = 0;
    for i in (0..bytes.len()).rev() {
        costs = costs.with_byte_before(headers, bytes[i], follows);
        follows = bytes[i];
    }
    costs.start.bits
}

// Returns segments that take the fewest bits.
pub(crate) fn least_segments(
    alloc: Global,
    bytes: &[u8],
    version: Version,
) -> QrResult<Vec<Segment>>
    requires valid { IsTrue (is_valid version) }
    requires normal { is_micro version ≡ false }
    requires length_at_most { length bytes.now ≤ data_limit }
    ensures least { IfOk result (λ segments.
        IsLeastMarkedCut version bytes.now segments.items) }
    ensures memory { IsOkUnless result OutOfMemory }
{
    let starts = least_starts(alloc, bytes, Headers::of(version))?;
    let mut segments = Vec::new(alloc);
    let mut begin = 0;
    while begin < bytes.len() {
        let start = starts[begin];
        let end = begin + start.taken;
        segments.push(Segment {
            mode: start.mode,
            begin,
            end,
        })?;
        begin = end;
    }
    Ok(segments)
}

// Returns for each place the first segment of the rest, so that the rest takes the fewest bits.
fn least_starts(alloc: Global, bytes: &[u8], headers: Headers) -> Result<Vec<Start>, AllocError>
    requires headers { AreSmall headers }
    requires length_at_most { length bytes.now ≤ data_limit }
    ensures { IfOk result (λ starts. AreStarts headers bytes.now starts.items) }
{
    let mut costs = RestCosts::at_end();
    let mut starts = Vec::from_elem(alloc, costs.start, bytes.len())?;
    let mut follows = 0;
    for i in (0..bytes.len()).rev() {
        costs = costs.with_byte_before(headers, bytes[i], follows);
        follows = bytes[i];
        starts[i] = costs.start;
    }
    Ok(starts)
}
