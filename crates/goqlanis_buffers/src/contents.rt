//! The texts of payloads (networks, contacts, payments and so on), in buffers of a caller who
//! numbers the kinds.

ghost use Rattle.std.specs.Prelude.{◌≡◌, length, string_bytes, IfOk, IfErr, OnOk};
ghost use Rattle.qrcode_contents.specs.fields.Refusals.{Answers};
ghost use Rattle.qrcode_payloads.specs.Texts.{payload_text, IsReadAsFields};
ghost use Rattle.goqlanis_buffers.specs.Contents.{cause_refusal, field_fault, passed, refusal_for, text_at, texts_of, valid_text, PassChecks, IsFirstWrong, WritesContent};

use crate::answers::{Fault, Refusal};
use crate::symbols::put;
use qrcode_contents::fields::errors::{Cause, ContentError, ContentResult, Field};
use qrcode_payloads::given::FieldSource;
use qrcode_payloads::kinds::{Kind, fields_of, kind_named, place_of};
use qrcode_payloads::texts::text_of;
use std::alloc::Global;

/// A field.
#[repr(C)]
#[derive(Clone, Copy)]
pub struct Slot<'a> {
    /// The text in UTF-8, or nothing.
    pub bytes: &'a [u8],
}

/// Writes the text of a payload of the kind numbered `kind`, with the fields `given`, to the start
/// of `out`, and returns its length.
///
/// Errors, the first that applies: `NoSuchContent`; at the first field with an error `NoSuchField`
/// or `NotText`; at a field that the format rejects one of `FieldEmpty` to `FieldWord`;
/// `SmallBuffer`; or `OutOfMemory`. After an error `out` is unchanged.
pub fn write(alloc: Global, kind: u32, given: &[Slot<'_>], out: &mut [u8]) -> Result<usize, Fault>
    ensures { WritesContent kind given.now out.old out.new result }
{
    let Some(kind) = kind_named(kind) else {
        return Err(Fault::Other(Refusal::NoSuchContent));
    };
    let fields = fields_of(kind);
    check(fields.len(), given)?;
    let text = match payload(alloc, kind, given) {
        Ok(text) => text,
        Err(ContentError::Refused(field, cause)) => {
            return Err(Fault::At(place_of(fields, field), cause_refusal(cause)));
        }
        Err(ContentError::OutOfMemory) => return Err(Fault::Other(Refusal::OutOfMemory)),
    };
    Ok(put(out, text.as_bytes())?)
}

// Converts the cause of a wrong field.
fn cause_refusal(cause: Cause) -> Refusal
    ensures { result ≡ cause_refusal cause }
{
    match cause {
        Cause::Empty => Refusal::FieldEmpty,
        Cause::TooLong => Refusal::FieldTooLong,
        Cause::TooShort => Refusal::FieldTooShort,
        Cause::ControlCharacter => Refusal::FieldControl,
        Cause::Character => Refusal::FieldCharacter,
        Cause::CheckDigits => Refusal::FieldCheckDigits,
        Cause::Range => Refusal::FieldRange,
        Cause::Unused => Refusal::FieldUnused,
        Cause::Decimals => Refusal::FieldDecimals,
        Cause::Word => Refusal::FieldWord,
    }
}

// Checks fields for a kind with `count` fields.
//
// Errors, at the first wrong field: `NoSuchField`, `NotText`.
fn check(count: usize, given: &[Slot<'_>]) -> Result<(), Fault>
    ensures taken { OnOk result (PassChecks count given.now (length given.now)) }
    ensures refused { IfErr result (IsFirstWrong count given.now) }
{
    for place in 0..given.len() {
        check_field(count, place, &given[place])?;
    }
    Ok(())
}

// Checks the field at an index, for a kind with `count` fields.
#[tactic(auto, using(crate::proofs::Fields::text_test, crate::proofs::Fields::no_text_test))]
fn check_field(count: usize, place: usize, field: &Slot<'_>) -> Result<(), Fault>
    ensures { result ≡ passed (field_fault count place field.now) }
{
    if place >= count {
        return Err(Fault::At(place, Refusal::NoSuchField));
    }
    if str::from_utf8(field.bytes).is_err() {
        return Err(Fault::At(place, Refusal::NotText));
    }
    Ok(())
}

// The text of fields that passed `check`.
#[tactic(auto, unfolding(crate::specs::Contents::refusal_for))]
fn payload(alloc: Global, kind: Kind, given: &[Slot<'_>]) -> ContentResult<String>
    ensures reads { Answers (refusal_for kind given.now) result (IsReadAsFields kind
        (texts_of kind given.now)) }
    ensures value { IfOk result (λ text. string_bytes text
        ≡ payload_text kind (texts_of kind given.now)) }
{
    let placed = Placed { kind, given };
    text_of(alloc, kind, &placed)
}

// The fields of a kind, each found by its index.
#[derive(Drop)]
struct Placed<'g, 'a> {
    kind: Kind,
    given: &'g [Slot<'a>],
}

impl FieldSource for Placed<'_, '_> {
    ghost fields = { λ placed. texts_of placed.kind placed.given.now };

    fn text(&self, field: Field) -> &str {
        valid_at(self.given, place_of(fields_of(self.kind), field))
    }
}

// The text of the field at an index; empty if there is none, or it is not UTF-8.
fn valid_at<'a>(given: &[Slot<'a>], place: usize) -> &'a str
    ensures { result.now ≡ valid_text (text_at given.now place) }
{
    match given.get(place) {
        Some(field) => valid_text(field.bytes),
        None => "",
    }
}

// The bytes as text, or nothing if they are not UTF-8.
#[tactic(auto, using(crate::proofs::Fields::text_test, crate::proofs::Fields::no_text_test))]
fn valid_text(bytes: &[u8]) -> &str
    ensures { result.now ≡ valid_text bytes.now }
{
    match str::from_utf8(bytes) {
        Ok(text) => text,
        Err(_) => "",
    }
}
