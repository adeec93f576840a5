//! Makes the texts of payloads, or explains why one is refused: which option is wrong, and what
//! would help.

ghost use Rattle.std.specs.Prelude.{◌≡◌, IfOk, string_bytes};
ghost use Rattle.qrcode_payloads.specs.Texts.{payload_text};

use crate::Done;
use goqlanis_files::failure::Failure;
use goqlanis_files::refused;
use goqlanis_options::options::entry_of;
use goqlanis_tables::columns::Columns;
use qrcode_contents::fields::errors::{Cause, ContentError, Field};
use qrcode_payloads::given::FieldSource;
use qrcode_payloads::kinds::Kind;
use qrcode_payloads::texts::text_of;
use std::alloc::Global;

/// Returns the text of a payload with these fields; messages name those of `columns` by column.
///
/// Errors: `Refused` if the format rejects a field, with the option, what is wrong with it, and
/// what its help says; `OutOfMemory`.
pub(crate) fn payload_of<G: FieldSource>(
    alloc: Global,
    kind: Kind,
    given: &G,
    columns: &Columns,
) -> Done<String>
    ensures value { IfOk result (λ text.
        string_bytes text ≡ payload_text kind (G.fields given.now)) }
{
    let (field, cause) = match text_of(alloc, kind, given) {
        Ok(text) => return Ok(text),
        Err(ContentError::Refused(field, cause)) => (field, cause),
        Err(_) => return Err(Failure::OutOfMemory),
    };
    let what = what_is_wrong(kind, field, cause);
    let entry = entry_of(kind, field);
    let (name, help) = (columns.label(alloc, field)?, entry.help);
    let mut letters = given.text(Field::Secret).chars();
    let foreign = letters.find(|letter| !is_in_base_32(*letter));
    if let (Field::Secret, Cause::Character, Some(letter)) = (field, cause, foreign) {
        refused!(alloc; "{name}: base 32 has no {letter}; expected: {help}")
    } else if entry.long.is_empty() {
        refused!(alloc; "the whole text: {what}")
    } else if matches!(cause, Cause::ControlCharacter | Cause::CheckDigits) {
        refused!(alloc; "{name}: {what}")
    } else {
        refused!(alloc; "{name}: {what}; expected: {help}")
    }
}

// Whether a secret may have this character, but for padding at its end.
fn is_in_base_32(letter: char) -> bool {
    matches!(letter, 'A'..='Z' | 'a'..='z' | '2'..='7' | ' ' | '-')
}

// Says what is wrong with a field, more precisely than its cause if possible.
fn what_is_wrong(kind: Kind, field: Field, cause: Cause) -> &'static str {
    match (kind, field, cause) {
        (_, Field::Amount, Cause::Character) =>
            "write only digits, with a point before the decimals, e.g. 1949.75",
        (Kind::Pix, Field::Name | Field::City | Field::Description, Cause::Character) =>
            "it may only have ASCII characters: write a for \u{e3}, c for \u{e7}",
        (_, Field::Reference, Cause::Unused) => "it does not go with this account",
        (Kind::Mail, Field::Email | Field::Cc | Field::Bcc, Cause::Character) =>
            "write addresses alone, without names or spaces, with commas between",
        (Kind::Promptpay, Field::Payee, Cause::Character) =>
            "it may only have digits, and a phone number begins with 0, without a country code",
        (Kind::Pix, Field::Payee, Cause::CheckDigits) =>
            "the check digits match neither a CPF nor a CNPJ; write a phone number with +55",
        (Kind::Pix, Field::Payee, Cause::Character) => "it is none of the keys that Pix has",
        (Kind::Upi, Field::Payee, Cause::Character) =>
            "it may only have letters, digits and -._ around one @",
        (
            _,
            Field::Phone | Field::Mobile | Field::WorkPhone | Field::HomePhone | Field::Fax,
            Cause::Character,
        ) => "it may only have digits, spaces and -.(), with + in front",
        (_, Field::Begin | Field::End | Field::Stamp, Cause::TooShort) =>
            "it has no time zone: add that of the place and day, e.g. +02:00, or Z for UTC",
        (_, Field::Begin | Field::Stamp | Field::Birthday, Cause::Range) =>
            "no such day or time exists",
        (_, Field::End, Cause::Range) =>
            "no such day or time exists, or it is not later than --begin",
        (_, Field::Begin | Field::Stamp, Cause::Character) => "it is not written as a day or time",
        (_, Field::End, Cause::Character) => "it is not in the same form as --begin",
        (_, Field::Hidden, Cause::Word) => "it is neither true nor false",
        (Kind::Vcard, Field::Family, Cause::Empty) =>
            "it is missing or empty; a vCard has the family name apart from the full name",
        (_, _, Cause::Empty) => "it is missing or empty",
        (_, _, Cause::TooLong) => "it is longer than the format allows",
        (_, _, Cause::TooShort) => "it is shorter than the format allows",
        (_, _, Cause::ControlCharacter) =>
            "it has a line break or another control character; leave that out",
        (_, _, Cause::Character) => "it has a character that the format does not allow there",
        (_, _, Cause::CheckDigits) =>
            "the check digits do not match: look for a mistyped or swapped digit",
        (_, _, Cause::Range) => "it is outside what the format allows",
        (_, _, Cause::Unused) => "it cannot be given together with the other options; leave it out",
        (_, _, Cause::Decimals) => "it has too many digits after the point",
        (_, _, Cause::Word) => "it is not one of the values that it may have",
    }
}
