//! GS1 elements in buffers.

ghost use Rattle.std.specs.Prelude.{◌≡◌, length, map, IfOk, IfErr, OnOk, OnSome, IfSome, IfNone};
ghost use Rattle.qrcode_gs1.specs.Items.{item};
ghost use Rattle.goqlanis_buffers.specs.Elements.{element_refusal, item_of, items_of, IsText, AreTexts, HasNoText, WritesElements, WritesElementsSymbol};

use crate::answers::{Fault, Refusal};
use crate::options::{Options, asked_by};
use crate::symbols::{Symbol, put, write_masked};
use goqlanis_request::symbol_of_elements;
use qrcode::types::QrError;
use qrcode_gs1::elements::{Element, element_string};
use qrcode_gs1::errors::{Cause, Gs1Error};
use qrcode_gs1::symbol::errors::SymbolError;
use std::alloc::Global;

/// A GS1 element.
#[repr(C)]
#[derive(Clone, Copy)]
pub struct Gs1Bytes<'a> {
    /// The digits of its application identifier, without parentheses.
    pub identifier: &'a [u8],
    /// Its value, with the check digit if it has one.
    pub value: &'a [u8],
}

/// Writes the GS1 element string of `parts` to the start of `out`, and returns its length.
///
/// Errors, the first that applies: at the first element that is not UTF-8 `NotText`; at the first
/// wrong one `FieldCharacter`, `FieldCheckDigits`, `FieldRange`, `NoSuchIdentifier` or
/// `ElementLength`; `SmallBuffer`; or `OutOfMemory`. After an error `out` is unchanged.
pub fn write_elements(alloc: Global, parts: &[Gs1Bytes<'_>], out: &mut [u8]) -> Result<usize, Fault>
    ensures { WritesElements parts.now out.old out.new result }
{
    let elements = elements_of(alloc, parts)?;
    let bytes = match element_string(alloc, &elements) {
        Ok(bytes) => bytes,
        Err(Gs1Error::Refused(place, cause)) => {
            return Err(Fault::At(place, element_refusal(cause)));
        }
        Err(Gs1Error::OutOfMemory) => return Err(Fault::Other(Refusal::OutOfMemory)),
    };
    Ok(put(out, &bytes)?)
}

/// Encodes GS1 elements as `options` ask. Writes the modules to the start of `modules`, and returns
/// version, level and width. The options' manner and boost are ignored.
///
/// Errors: those of the options, of `write_elements`, `NoRoom`, `NoSuchMask`, `SmallBuffer` or
/// `OutOfMemory`. After an error `modules` is unchanged.
pub fn encode_elements(
    alloc: Global,
    parts: &[Gs1Bytes<'_>],
    options: &Options,
    modules: &mut [u8],
) -> Result<Symbol, Fault>
    ensures { WritesElementsSymbol options.now parts.now modules.old modules.new result }
{
    let asked = asked_by(options)?;
    let elements = elements_of(alloc, parts)?;
    let code = match symbol_of_elements(alloc, asked.choice, asked.level, &elements) {
        Ok(code) => code,
        Err(SymbolError::Elements(Gs1Error::Refused(place, cause))) => {
            return Err(Fault::At(place, element_refusal(cause)));
        }
        Err(SymbolError::Symbol(QrError::DataTooLong)) => {
            return Err(Fault::Other(Refusal::NoRoom));
        }
        Err(_) => return Err(Fault::Other(Refusal::OutOfMemory)),
    };
    Ok(write_masked(alloc, &code, asked.mask, modules)?)
}

// Converts the cause of a wrong element.
fn element_refusal(cause: Cause) -> Refusal
    ensures { result ≡ element_refusal cause }
{
    match cause {
        Cause::Character => Refusal::FieldCharacter,
        Cause::CheckDigit => Refusal::FieldCheckDigits,
        Cause::Range => Refusal::FieldRange,
        Cause::UnknownIdentifier => Refusal::NoSuchIdentifier,
        Cause::Length => Refusal::ElementLength,
    }
}

// Borrows the elements as text. Errors: `NotText` at the first that is not UTF-8; or `OutOfMemory`.
fn elements_of<'a>(alloc: Global, parts: &[Gs1Bytes<'a>]) -> Result<Vec<Element<'a>>, Fault>
    ensures value { IfOk result (λ elements. map item elements.items ≡ items_of parts.now) }
    ensures texts { OnOk result (AreTexts parts.now (length parts.now)) }
    ensures no_text { IfErr result (HasNoText parts.now) }
{
    let mut elements = Vec::new(alloc);
    for place in 0..parts.len() {
        let Some(element) = element_of(&parts[place]) else {
            return Err(Fault::At(place, Refusal::NotText));
        };
        if elements.push(element).is_err() {
            return Err(Fault::Other(Refusal::OutOfMemory));
        }
    }
    Ok(elements)
}

// Borrows an element as text; `None` if it is not UTF-8.
fn element_of<'a>(part: &Gs1Bytes<'a>) -> Option<Element<'a>>
    ensures value { IfSome result (λ element. item element ≡ item_of part.now) }
    ensures text { OnSome result (IsText part.now) }
    ensures none { IfNone result (¬ IsText part.now) }
{
    match (str::from_utf8(part.identifier), str::from_utf8(part.value)) {
        (Ok(identifier), Ok(value)) => Some(Element { identifier, value }),
        _ => None,
    }
}
