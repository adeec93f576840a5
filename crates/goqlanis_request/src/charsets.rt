//! Makes symbols of texts in character sets.

ghost use Rattle.std.specs.Prelude.{chars, IfOk};
ghost use Rattle.goqlanis_request.specs.Charsets.{IsShortestOf, IsShownOrRefused};

use crate::request::Choice;
use qrcode::QrCode;
use qrcode::types::{EcLevel, QrResult};
use qrcode_charsets::sets::Charset;
use qrcode_charsets::shortest::{shortest_boosted, shortest_from, shortest_in};
use std::alloc::Global;

/// Encodes `text` at `level` in a version that `choice` allows, in that of `sets` in which it takes
/// the fewest bits. Returns the code and its set.
///
/// Errors: those of `shortest_from`, `shortest_boosted` and `shortest_in`, `OutOfMemory` among
/// them.
pub fn symbol_among(
    alloc: Global,
    choice: Choice,
    sets: &[Charset],
    level: EcLevel,
    text: &str,
) -> QrResult<(QrCode, Charset)>
    ensures symbol { IfOk result (λ made.
        IsShortestOf choice sets.now level (chars text.now) made.1 made.0) }
    ensures refusals { IsShownOrRefused choice sets.now level text.now result }
{
    match choice {
        Choice::From(version) => shortest_from(alloc, text, sets, version, level),
        Choice::Boosted(version) => shortest_boosted(alloc, text, sets, version, level),
        Choice::At(version) => shortest_in(alloc, text, sets, version, level),
    }
}
