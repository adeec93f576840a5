//! SEPA credit transfers (EPC QR codes).

ghost use Rattle.std.specs.Prelude.{◌≡◌, ◌++◌, ◌≤◌, Some, IfOk, OnOk, IsOkUnless, string_bytes, length, nat_lt, Ok, Err, if◌then◌else◌};
ghost use Rattle.qrcode_contents.specs.declared.fields.errors.ContentError.TheVariants.{Refused, OutOfMemory};
ghost use Rattle.qrcode_contents.specs.declared.fields.errors.Field.TheVariants.{Whole};
ghost use Rattle.qrcode_contents.specs.declared.fields.errors.Cause.TheVariants.{TooLong};
ghost use Rattle.qrcode_contents.specs.fields.Lines.{later_text};
ghost use Rattle.qrcode_contents.specs.fields.Refusals.{Answers, checked};
ghost use Rattle.qrcode_contents.specs.Payment.{payment_fields, control_checks, break_checks, needs_bic, bank_refusal, text_checks, field_checks, payment_refusal, payment_text, later_count, later_lines, read_payment, version_for, version_name, is_bic, is_reference};

use crate::accounts::{self, has_form, is_checked};
use crate::fields::amounts::push_amount;
use crate::fields::characters::{are_capitals_or_digits, character_count};
use crate::fields::errors::{Cause, ContentError, ContentResult, Field};
use crate::fields::lines::push_lines;
use crate::fields::refusals::{controls, refuse_first, too_long, too_short, unicode_breaks};
use qrcode_types::types::{EcLevel, Version};
use std::alloc::Global;

/// The error correction level of a payment's symbol.
pub const LEVEL: EcLevel = EcLevel::M;

/// The largest version of a payment's symbol.
pub const LARGEST: Version = Version::Normal(13);

/// The version of the format.
#[derive(Copy, Clone, PartialEq, Eq, Debug)]
pub enum PaymentVersion {
    /// 001, which needs a BIC.
    One,
    /// 002, where the BIC may be empty.
    Two,
}

impl PaymentVersion {
    /// Returns the version for a payment with this BIC: 001, or 002 if it is empty.
    pub fn for_bic(bic: &str) -> PaymentVersion
        ensures { result ≡ version_for bic.now }
    {
        if bic.is_empty() {
            PaymentVersion::Two
        } else {
            PaymentVersion::One
        }
    }

    /// Returns the line of the version: `001` or `002`.
    pub fn name(self) -> &'static str
        ensures { result.now ≡ version_name self }
    {
        match self {
            PaymentVersion::One => "001",
            PaymentVersion::Two => "002",
        }
    }

    /// Returns whether the BIC is required.
    pub fn needs_bic(self) -> bool
        ensures { result ≡ needs_bic self }
    {
        match self {
            PaymentVersion::One => true,
            PaymentVersion::Two => false,
        }
    }
}

/// A SEPA credit transfer. `purpose`, `reference`, `message` and `information` may be empty, and
/// `bic` in version 002; `reference` and `message` must not both be given.
#[derive(Copy, Clone, PartialEq, Eq, Debug)]
pub struct Payment<'a> {
    /// The version of the format.
    pub version: PaymentVersion,
    /// The bank's identifier (BIC), 8 or 11 capitals and digits.
    pub bic: &'a str,
    /// The payee's name, 1 to 70 characters.
    pub name: &'a str,
    /// The account (IBAN), without spaces: two letters, two check digits, and 1 to 30 capitals and
    /// digits.
    pub iban: &'a str,
    /// The amount in cents of a euro, 1 to 99,999,999,999.
    pub cents: u64,
    /// The purpose code, up to 4 capitals and digits.
    pub purpose: &'a str,
    /// The creditor reference (ISO 11649), without spaces: `RF`, two check digits, and 1 to 21
    /// capitals and digits.
    pub reference: &'a str,
    /// A message, up to 140 characters.
    pub message: &'a str,
    /// Information for the payer, up to 70 characters.
    pub information: &'a str,
}

// Whether a text has the form of a BIC: 8 or 11 capitals and digits.
fn is_a_bic(text: &str) -> bool
    ensures { result ≡ is_bic text.now }
{
    (text.len() == 8 || text.len() == 11) && are_capitals_or_digits(text)
}

// Whether a text has the form of an ISO 11649 reference.
fn is_a_reference(text: &str) -> bool
    ensures { result ≡ is_reference text.now }
{
    has_form(text) && text.as_bytes().starts_with(b"RF")
}

// Rejects a text of more than 331 bytes.
fn limited(text: String) -> ContentResult<String>
    ensures { result ≡ (if nat_lt 331 (length (string_bytes text))
        then Err (Refused Whole TooLong) else Ok text) }
{
    if text.len() > 331 {
        return Err(ContentError::Refused(Field::Whole, Cause::TooLong));
    }
    Ok(text)
}

impl Payment<'_> {
    // Rejects line breaks and other control characters.
    #[tactic(auto, unfolding(crate::specs::Payment::control_checks))]
    fn check_controls(&self) -> ContentResult<()>
        ensures { result ≡ checked (control_checks (payment_fields self.now)) }
    {
        refuse_first(&[
            controls(Field::Bic, self.bic),
            controls(Field::Name, self.name),
            controls(Field::Iban, self.iban),
            controls(Field::Purpose, self.purpose),
            controls(Field::Reference, self.reference),
            controls(Field::Message, self.message),
            controls(Field::Information, self.information),
        ])
    }

    // Rejects line breaks outside ASCII, in the fields that may have more than ASCII.
    #[tactic(auto, unfolding(crate::specs::Payment::break_checks))]
    fn check_breaks(&self) -> ContentResult<()>
        ensures { result ≡ checked (break_checks (payment_fields self.now)) }
    {
        refuse_first(&[
            unicode_breaks(Field::Name, self.name),
            unicode_breaks(Field::Message, self.message),
            unicode_breaks(Field::Information, self.information),
        ])
    }

    // Rejects a missing or wrong BIC, a wrong IBAN, and an amount out of range.
    #[tactic(auto, unfolding(crate::specs::Payment::bank_refusal))]
    fn check_bank(&self) -> ContentResult<()>
        ensures { result ≡ checked (bank_refusal (payment_fields self.now)) }
    {
        let needed = self.version.needs_bic();
        let given = !self.bic.is_empty();
        let short = character_count(self.bic) < 8;
        let outside = (self.cents < 1) | (self.cents > 99_999_999_999);
        refuse_first(&[
            (needed & self.bic.is_empty(), Field::Bic, Cause::Empty),
            (given & short, Field::Bic, Cause::TooShort),
            too_long(Field::Bic, self.bic, 11),
            (given & !is_a_bic(self.bic), Field::Bic, Cause::Character),
            (self.iban.is_empty(), Field::Iban, Cause::Empty),
            too_short(Field::Iban, self.iban, accounts::LEAST),
            too_long(Field::Iban, self.iban, 34),
            (!has_form(self.iban), Field::Iban, Cause::Character),
            (!is_checked(self.iban), Field::Iban, Cause::CheckDigits),
            (outside, Field::Amount, Cause::Range),
        ])
    }

    // Rejects a wrong name, purpose or reference, a message next to a reference, and texts that are
    // too long.
    #[tactic(auto, unfolding(crate::specs::Payment::text_checks))]
    fn check_texts(&self) -> ContentResult<()>
        ensures { result ≡ checked (text_checks (payment_fields self.now)) }
    {
        let wrong_purpose = !are_capitals_or_digits(self.purpose);
        let referenced = !self.reference.is_empty();
        let short = character_count(self.reference) < accounts::LEAST;
        let formed = is_a_reference(self.reference);
        let checked = is_checked(self.reference);
        let beside = referenced & !self.message.is_empty();
        refuse_first(&[
            (self.name.is_empty(), Field::Name, Cause::Empty),
            too_long(Field::Name, self.name, 70),
            too_long(Field::Purpose, self.purpose, 4),
            (wrong_purpose, Field::Purpose, Cause::Character),
            (referenced & short, Field::Reference, Cause::TooShort),
            too_long(Field::Reference, self.reference, 25),
            (referenced & !formed, Field::Reference, Cause::Character),
            (referenced & !checked, Field::Reference, Cause::CheckDigits),
            (beside, Field::Message, Cause::Unused),
            too_long(Field::Message, self.message, 140),
            too_long(Field::Information, self.information, 70),
        ])
    }

    // Fails on the first wrong field.
    #[tactic(auto, unfolding(crate::specs::Payment::field_checks))]
    fn check(&self) -> ContentResult<()>
        ensures { result ≡ checked (field_checks (payment_fields self.now)) }
    {
        self.check_controls()?;
        self.check_breaks()?;
        self.check_bank()?;
        self.check_texts()
    }

    // How many of the last four lines are written: empty ones at the end are left out.
    fn later_count(&self) -> usize
        ensures value { result ≡ later_count (payment_fields self.now) }
        ensures at_most { result ≤ 4 }
    {
        if !self.information.is_empty() {
            4
        } else if !self.message.is_empty() {
            3
        } else if !self.reference.is_empty() {
            2
        } else if !self.purpose.is_empty() {
            1
        } else {
            0
        }
    }

    // Appends the lines after the amount.
    fn push_later(&self, text: &mut String) -> ContentResult<()>
        ensures appends { OnOk result (string_bytes text.new
            ≡ string_bytes text.old ++ later_text (later_lines (payment_fields self.now))) }
        ensures memory { IsOkUnless result OutOfMemory }
    {
        let lines = [self.purpose, self.reference, self.message, self.information];
        push_lines(text, &lines[..self.later_count()])
    }

    // Writes the text without checking the fields or its length.
    #[tactic(auto, unfolding(crate::specs::Payment::payment_text))]
    fn written(&self, alloc: Global) -> ContentResult<String>
        ensures value { IfOk result (λ text. string_bytes text
            ≡ payment_text (payment_fields self.now)) }
        ensures memory { IsOkUnless result OutOfMemory }
    {
        let mut text = String::from_str(alloc, "BCD\n")?;
        text.push_str(self.version.name())?;
        text.push_str("\n1\nSCT")?;
        push_lines(&mut text, &[self.bic, self.name, self.iban])?;
        text.push_str("\nEUR")?;
        push_amount(&mut text, self.cents)?;
        self.push_later(&mut text)?;
        Ok(text)
    }

    /// Returns the text of the payment, at most 331 bytes. Its symbol must have level [`LEVEL`] and
    /// a version up to [`LARGEST`].
    ///
    /// Errors: `Refused` names the first wrong field and why; `OutOfMemory` if memory runs out. A
    /// text of more than 331 bytes is `Whole`, `TooLong`.
    pub fn text(&self, alloc: Global) -> ContentResult<String>
        ensures reads { Answers (payment_refusal (payment_fields self.now)) result
            (λ text. read_payment text ≡ Some (payment_fields self.now)) }
        ensures value { IfOk result (λ text. string_bytes text
            ≡ payment_text (payment_fields self.now)) }
        ensures at_most { IfOk result (λ text. length (string_bytes text) ≤ 331) }
    {
        self.check()?;
        let text = self.written(alloc)?;
        limited(text)
    }
}
