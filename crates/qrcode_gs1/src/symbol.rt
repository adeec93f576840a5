//! Encodes symbols with FNC1 (ISO/IEC 18004:2006, 6.4.8): GS1 elements in first position, and data
//! of other applications in second.

ghost use Rattle.std.specs.Prelude.{ℕ, ◌≤◌, map, IfOk, IfErr, IsOkUnless};
ghost use Rattle.qrcode_types.specs.declared.types.QrError.TheVariants.{OutOfMemory};
ghost use Rattle.qrcode_gs1.specs.Items.{item};
ghost use Rattle.qrcode_gs1.specs.symbol.Elements.{IsGs1Symbol, IsGs1Refused};
ghost use Rattle.qrcode_gs1.specs.symbol.Symbols.{HoldsMarked, IsMarkedSymbol, IsMarkedRefused};
ghost use Rattle.qrcode_gs1.specs.declared.symbol.Fnc1.TheVariants.{Second};

use crate::elements::{Element, element_string};
use drawing::symbol;
use errors::SymbolResult;
pub use indicators::indicator_of;
use qrcode::QrCode;
use qrcode::types::{EcLevel, QrResult};
use std::alloc::Global;

mod characters;
mod choice;
mod costs;
mod drawing;
pub mod errors;
mod indicators;
pub mod laws;
mod least;
mod mark;

/// The position of FNC1.
#[derive(Copy, Clone, PartialEq, Eq, Debug)]
pub enum Fnc1 {
    /// First position: the bytes are a GS1 element string.
    First,
    /// Second position, with the indicator of an application.
    Second(u8),
}

/// Encodes GS1 `elements` at `ec_level`, in the smallest Normal version that holds them: FNC1 in
/// first position, then their element string in segments of the fewest bits. In Alphanumeric mode a
/// separator is written as a percent sign, and a percent sign as two.
///
/// Errors: `Elements` with the first wrong element and what is wrong; `Symbol(DataTooLong)` if no
/// Normal version holds the elements; either with `OutOfMemory` if memory runs out.
pub fn gs1(alloc: Global, elements: &[Element], ec_level: EcLevel) -> SymbolResult<QrCode>
    ensures symbol { IfOk result (IsGs1Symbol 0 ec_level (map item elements.now)) }
    ensures causes { IfErr result (IsGs1Refused 0 ec_level (map item elements.now)) }
{
    gs1_from(alloc, elements, ec_level, 0)
}

/// Encodes GS1 `elements` as `gs1` does, in the smallest Normal version from `from` on that holds
/// them.
///
/// Errors: those of `gs1`, with `Symbol(DataTooLong)` if no Normal version from `from` on holds the
/// elements.
pub fn gs1_from(
    alloc: Global,
    elements: &[Element],
    ec_level: EcLevel,
    from: usize,
) -> SymbolResult<QrCode>
    ensures symbol { IfOk result (IsGs1Symbol from ec_level (map item elements.now)) }
    ensures causes { IfErr result (IsGs1Refused from ec_level (map item elements.now)) }
{
    let bytes = element_string(alloc, elements)?;
    Ok(symbol(alloc, &bytes, Fnc1::First, ec_level, from)?)
}

/// Encodes `bytes` for an application at `ec_level`, in the smallest Normal version that holds
/// them: FNC1 in second position, the indicator of the `application` (see `indicator_of`), and the
/// bytes in segments of the fewest bits, as in `gs1`. Byte 29 is the separator.
///
/// Errors: `DataTooLong` if no Normal version holds `bytes`; `OutOfMemory` if memory runs out.
pub fn for_application(
    alloc: Global,
    application: u8,
    bytes: &[u8],
    ec_level: EcLevel,
) -> QrResult<QrCode>
    ensures symbol { IfOk result (IsMarkedSymbol 0 (Second application) ec_level bytes.now) }
    ensures accepts { (number : ℕ) → HoldsMarked (Second application) ec_level bytes.now number
        → IsOkUnless result OutOfMemory }
    ensures causes { IfErr result (IsMarkedRefused 0 (Second application) ec_level bytes.now) }
{
    for_application_from(alloc, application, bytes, ec_level, 0)
}

/// Encodes `bytes` as `for_application` does, in the smallest Normal version from `from` on that
/// holds them.
///
/// Errors: `DataTooLong` if no Normal version from `from` on holds `bytes`; `OutOfMemory` if memory
/// runs out.
pub fn for_application_from(
    alloc: Global,
    application: u8,
    bytes: &[u8],
    ec_level: EcLevel,
    from: usize,
) -> QrResult<QrCode>
    ensures symbol { IfOk result (IsMarkedSymbol from (Second application) ec_level bytes.now) }
    ensures accepts { (number : ℕ) → from ≤ number
        → HoldsMarked (Second application) ec_level bytes.now number
        → IsOkUnless result OutOfMemory }
    ensures causes { IfErr result (IsMarkedRefused from (Second application) ec_level bytes.now) }
{
    symbol(alloc, bytes, Fnc1::Second(application), ec_level, from)
}
