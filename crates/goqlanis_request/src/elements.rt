//! Makes symbols with FNC1: GS1 elements, and data in an application's own format.

ghost use Rattle.std.specs.Prelude.{◌≡◌, ◌≢◌, ◌<◌, ◌^◌, true, false, map, IfOk, IfErr};
ghost use Rattle.qrcode_gs1.specs.Items.{item};
ghost use Rattle.goqlanis_request.specs.Elements.{IsElementsIn, IsElementsRefused, IsApplicationIn, IsApplicationRefused, number_of_normal};

use crate::request::Choice;
use crate::segments::first_of;
use qrcode::QrCode;
use qrcode::types::{EcLevel, QrError, QrResult, Version};
use qrcode_gs1::elements::Element;
use qrcode_gs1::symbol::errors::{SymbolError, SymbolResult};
use qrcode_gs1::symbol::{for_application_from, gs1_from};
use std::alloc::Global;

/// Encodes GS1 elements at `level` in the smallest version that `choice` allows and that holds
/// them. The level is kept, also with `Choice::Boosted`.
///
/// Errors: `Elements` with the first element that is not valid, and why; `Symbol(DataTooLong)` if
/// no version that the choice allows holds them (Micro QR never does); `OutOfMemory`, in either of
/// these, if memory runs out.
#[tactic(auto, using(crate::proofs::Choices::elements_alone))]
pub fn symbol_of_elements(
    alloc: Global,
    choice: Choice,
    level: EcLevel,
    elements: &[Element<'_>],
) -> SymbolResult<QrCode>
    ensures symbol { IfOk result (IsElementsIn choice level (map item elements.now)) }
    ensures causes { IfErr result (IsElementsRefused choice level (map item elements.now)) }
{
    let code = gs1_from(alloc, elements, level, number_of(first_of(choice)))?;
    match choice {
        Choice::At(version) if !is_of(&code, version) => {
            Err(SymbolError::Symbol(QrError::DataTooLong))
        }
        _ => Ok(code),
    }
}

/// Encodes data in an application's own format at `level`, in the smallest version that `choice`
/// allows and that holds it: after FNC1 in second position and the indicator `application`. The
/// level is kept, also with `Choice::Boosted`. Byte 29 is the separator.
///
/// Errors: `DataTooLong` if no version that the choice allows holds the data (Micro QR never does);
/// `OutOfMemory` if memory runs out.
#[tactic(auto, using(crate::proofs::Choices::alone))]
pub fn symbol_for_application(
    alloc: Global,
    choice: Choice,
    level: EcLevel,
    application: u8,
    bytes: &[u8],
) -> QrResult<QrCode>
    ensures symbol { IfOk result (IsApplicationIn choice application level bytes.now) }
    ensures causes { IfErr result
        (IsApplicationRefused choice application level bytes.now) }
{
    let from = number_of(first_of(choice));
    let code = for_application_from(alloc, application, bytes, level, from)?;
    match choice {
        Choice::At(version) if !is_of(&code, version) => Err(QrError::DataTooLong),
        _ => Ok(code),
    }
}

// Whether a symbol has this version.
fn is_of(code: &QrCode, version: Version) -> bool
    ensures same { result ≡ true → code.now.version ≡ version }
    ensures other { result ≡ false → code.now.version ≢ version }
{
    code.version() == version
}

/// Returns the number of a Normal version; 0 for Micro, which has no FNC1.
pub(crate) fn number_of(version: Version) -> usize
    ensures value { result ≡ number_of_normal version }
    ensures at_most { result < 2 ^ 16 }
{
    match version {
        Version::Normal(number) if number > 0 => number as usize,
        _ => 0,
    }
}
