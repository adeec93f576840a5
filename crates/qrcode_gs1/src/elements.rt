//! Writes element strings.

ghost use Rattle.std.specs.Prelude.{◌≡◌, ◌++◌, map, IfOk, OnOk, IsOkUnless, IsTrue};
ghost use Rattle.qrcode_gs1.specs.declared.errors.Gs1Error.TheVariants.{OutOfMemory};
ghost use Rattle.qrcode_gs1.specs.Elements.{element_string, read_elements, are_apart};
ghost use Rattle.qrcode_gs1.specs.Items.{item};
ghost use Rattle.qrcode_gs1.specs.Refusals.{Answers, checked, refusal_from};

use crate::checks::cause_of;
use crate::errors::{Gs1Error, Gs1Result};
use crate::table::{fixed_length, prefix_of};
use std::alloc::Global;

/// An application identifier with its value.
#[derive(Copy, Clone, PartialEq, Eq, Debug)]
pub struct Element<'a> {
    /// The digits of the identifier, without parentheses.
    pub identifier: &'a str,
    /// The value, with its check digit if it has one.
    pub value: &'a str,
}

// Rejects the first element that is wrong.
fn check(elements: &[Element]) -> Gs1Result<()>
    ensures { result ≡ checked (refusal_from 0 (map item elements.now)) }
{
    for (index, element) in elements.iter().enumerate() {
        if let Some(cause) = cause_of(element.identifier.as_bytes(), element.value.as_bytes()) {
            return Err(Gs1Error::Refused(index, cause));
        }
    }
    Ok(())
}

// Writes the string of elements that are all right.
fn written(alloc: Global, elements: &[Element]) -> Gs1Result<Vec<u8>>
    ensures value { IfOk result (λ bytes. bytes.items ≡ element_string (map item elements.now)) }
    ensures memory { IsOkUnless result OutOfMemory }
{
    let mut bytes = Vec::new(alloc);
    let mut open = false;
    for element in elements {
        if open {
            bytes.push(29)?;
        }
        bytes.extend_from_slice(element.identifier.as_bytes())?;
        bytes.extend_from_slice(element.value.as_bytes())?;
        open = fixed_length(prefix_of(element.identifier.as_bytes())) == 0;
    }
    Ok(bytes)
}

/// Returns the element string: identifiers and values one after the other, with a separator (byte
/// 29) after each element without a predefined length, except the last one.
///
/// Errors: `Refused` with the first wrong element and what is wrong; `OutOfMemory` if memory runs
/// out.
pub fn element_string(alloc: Global, elements: &[Element]) -> Gs1Result<Vec<u8>>
    ensures reads { Answers (refusal_from 0 (map item elements.now)) result
        (λ bytes. read_elements bytes ≡ map item elements.now) }
    ensures value { IfOk result (λ bytes. bytes.items ≡ element_string (map item elements.now)) }
    ensures apart { IfOk result (λ bytes. IsTrue (are_apart bytes.items)) }
{
    check(elements)?;
    written(alloc, elements)
}
