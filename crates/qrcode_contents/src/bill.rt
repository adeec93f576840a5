//! Swiss QR-bills.

ghost use Rattle.std.specs.Prelude.{◌≡◌, ◌++◌, Option, Some, IfOk, OnOk, IsOkUnless, string_bytes};
ghost use Rattle.std.specs.Option.{option_map};
ghost use Rattle.qrcode_contents.specs.declared.fields.errors.Cause.TheVariants.{Character};
ghost use Rattle.qrcode_contents.specs.declared.fields.errors.ContentError.{ContentError};
ghost use Rattle.qrcode_contents.specs.declared.fields.errors.ContentError.TheVariants.{OutOfMemory};
ghost use Rattle.qrcode_contents.specs.Bill.{addressee_of, invoice_of, is_latin, foreign_count, has_disallowed, is_country, is_account, is_qr_account, is_creditor_reference, is_qr_reference, reference_kind, text_refusal, length_refusal, form_refusal, named_refusal, is_nobody, party_refusal, debtor_field, of_debtor, debtor_refusal, is_out_of_range, account_refusal, message_refusal, reference_refusal, bill_refusal, currency_name, address_kind, address_lines, end_lines, bill_text, read_bill};
ghost use Rattle.qrcode_contents.specs.fields.Lines.{later_text};
ghost use Rattle.qrcode_contents.specs.fields.Refusals.{Answers, checked};

use crate::accounts::{LEAST, has_form, is_checked};
use crate::fields::amounts::open_amount;
use crate::fields::characters::{are_capitals, are_digits, character_count, has_control};
use crate::fields::errors::{Cause, ContentError, ContentResult, Field};
use crate::fields::lines::push_lines;
use crate::fields::numbers::carry_of;
use crate::fields::refusals::{Check, refuse_first, too_long, too_short};
use qrcode_types::types::{EcLevel, Version};
use std::alloc::Global;

/// The error correction level of a bill's symbol.
pub const LEVEL: EcLevel = EcLevel::M;

/// The largest version of a bill's symbol.
pub const LARGEST: Version = Version::Normal(25);

/// The currency of a bill.
#[derive(Copy, Clone, PartialEq, Eq, Debug)]
pub enum Currency {
    /// Swiss francs.
    Franc,
    /// Euros.
    Euro,
}

impl Currency {
    // The line of the currency: `CHF` or `EUR`.
    fn name(self) -> &'static str
        ensures { result.now ≡ currency_name self }
    {
        match self {
            Currency::Franc => "CHF",
            Currency::Euro => "EUR",
        }
    }
}

/// A name with a structured address. `street` and `number` may be empty.
#[derive(Copy, Clone, PartialEq, Eq, Debug)]
pub struct Party<'a> {
    /// The name, up to 70 characters.
    pub name: &'a str,
    /// The street, up to 70 characters.
    pub street: &'a str,
    /// The house number, up to 16 characters.
    pub number: &'a str,
    /// The postal code, up to 16 characters.
    pub code: &'a str,
    /// The town, up to 35 characters.
    pub city: &'a str,
    /// The country code, two capitals (ISO 3166-1).
    pub country: &'a str,
}

/// A Swiss QR-bill. Its reference is empty, one of ISO 11649 (`RF..`), or a QR reference of 27
/// digits. A QR-IBAN, whose institution has a number from 30000 to 31999, needs a QR reference; any
/// other IBAN excludes one.
#[derive(Copy, Clone, PartialEq, Eq, Debug)]
pub struct Bill<'a> {
    /// The IBAN, of Switzerland or Liechtenstein, without spaces: `CH` or `LI`, two check digits,
    /// five digits of the institution, and 12 capitals and digits.
    pub iban: &'a str,
    /// The creditor, who is paid.
    pub creditor: Party<'a>,
    /// The amount in hundredths, 1 to 99,999,999,999; `None` leaves it open.
    pub cents: Option<u64>,
    /// The currency.
    pub currency: Currency,
    /// The debtor, who pays; all fields are empty if nobody is named.
    pub debtor: Party<'a>,
    /// The reference, without spaces.
    pub reference: &'a str,
    /// A message, up to 140 characters.
    pub message: &'a str,
}

// Whether a bill may have the character.
fn is_latin(character: char) -> bool
    ensures { result ≡ is_latin character }
{
    matches!(character, ' '..='~' | '\u{a0}'..='\u{17f}' | '\u{218}'..='\u{21b}' | '\u{20ac}')
}

// How many characters a bill may not have.
fn foreign_count(text: &str) -> usize
    ensures { result ≡ foreign_count text.now }
{
    text.chars()
        .filter(|character| !is_latin(*character))
        .count()
}

// The check that rejects a character that no line may have.
fn disallowed(field: Field, text: &str) -> Check
    ensures { result ≡ (has_disallowed text.now, field, Character) }
{
    let found = has_control(text) || foreign_count(text) != 0;
    (found, field, Cause::Character)
}

// Whether a text has the form of a country code, two capitals.
fn is_country(text: &str) -> bool
    ensures { result ≡ is_country text.now }
{
    text.len() == 2 && are_capitals(text.as_bytes())
}

// Whether a text has the form of an IBAN of Switzerland or Liechtenstein.
fn is_an_account(text: &str) -> bool
    ensures { result ≡ is_account text.now }
{
    let bytes = text.as_bytes();
    bytes.len() == 21
        && has_form(text)
        && (bytes.starts_with(b"CH") || bytes.starts_with(b"LI"))
        && are_digits(&bytes[4..9])
}

// Whether an IBAN is a QR-IBAN: the number of its institution is 30000 to 31999.
fn is_qr_account(text: &str) -> bool
    ensures { result ≡ is_qr_account text.now }
{
    let bytes = text.as_bytes();
    bytes.len() > 5 && bytes[4] == b'3' && (bytes[5] == b'0' || bytes[5] == b'1')
}

// Whether a reference starts with `RF`, as those of ISO 11649 do.
fn is_creditor_reference(text: &str) -> bool
    ensures { result ≡ is_creditor_reference text.now }
{
    text.as_bytes().starts_with(b"RF")
}

// Whether a reference is meant as a QR reference: it is not empty and does not start with `RF`.
fn is_qr_reference(text: &str) -> bool
    ensures { result ≡ is_qr_reference text.now }
{
    !text.is_empty() && !is_creditor_reference(text)
}

// The line of the reference's type: `NON`, `SCOR` or `QRR`.
fn kind_of(reference: &str) -> &'static str
    ensures { result.now ≡ reference_kind reference.now }
{
    if reference.is_empty() {
        "NON"
    } else if is_creditor_reference(reference) {
        "SCOR"
    } else {
        "QRR"
    }
}

// Whether an amount is given, but not 0.01 to 999999999.99.
pub(crate) fn is_out_of_range(cents: Option<u64>) -> bool
    ensures { result ≡ is_out_of_range cents }
{
    cents.is_some_and(|cents| cents < 1 || cents > 99_999_999_999)
}

// The debtor's field for this field of an address.
fn debtor_field(field: Field) -> Field
    ensures { result ≡ debtor_field field }
{
    match field {
        Field::Name => Field::DebtorName,
        Field::Street => Field::DebtorStreet,
        Field::Number => Field::DebtorNumber,
        Field::PostalCode => Field::DebtorPostalCode,
        Field::City => Field::DebtorCity,
        Field::Country => Field::DebtorCountry,
        other => other,
    }
}

// Reports the debtor's field instead of that of an address, e.g. `DebtorCity` for `City`.
fn of_debtor(answer: ContentResult<()>) -> ContentResult<()>
    ensures { (refusal : Option ContentError) → answer ≡ checked refusal
        → result ≡ checked (option_map of_debtor refusal) }
{
    match answer {
        Err(ContentError::Refused(field, cause)) => {
            Err(ContentError::Refused(debtor_field(field), cause))
        }
        other => other,
    }
}

impl Party<'_> {
    // Rejects texts with a character that no line may have.
    #[tactic(auto, unfolding(crate::specs::Bill::text_refusal))]
    fn check_texts(&self) -> ContentResult<()>
        ensures { result ≡ checked (text_refusal (addressee_of self.now)) }
    {
        refuse_first(&[
            disallowed(Field::Name, self.name),
            disallowed(Field::Street, self.street),
            disallowed(Field::Number, self.number),
            disallowed(Field::PostalCode, self.code),
            disallowed(Field::City, self.city),
            disallowed(Field::Country, self.country),
        ])
    }

    // Rejects texts that are too long.
    #[tactic(auto, unfolding(crate::specs::Bill::length_refusal))]
    fn check_lengths(&self) -> ContentResult<()>
        ensures { result ≡ checked (length_refusal (addressee_of self.now)) }
    {
        refuse_first(&[
            too_long(Field::Name, self.name, 70),
            too_long(Field::Street, self.street, 70),
            too_long(Field::Number, self.number, 16),
            too_long(Field::PostalCode, self.code, 16),
            too_long(Field::City, self.city, 35),
        ])
    }

    // Rejects missing fields and a wrong country code.
    #[tactic(auto, unfolding(crate::specs::Bill::form_refusal))]
    fn check_form(&self) -> ContentResult<()>
        ensures { result ≡ checked (form_refusal (addressee_of self.now)) }
    {
        refuse_first(&[
            (self.name.is_empty(), Field::Name, Cause::Empty),
            (self.code.is_empty(), Field::PostalCode, Cause::Empty),
            (self.city.is_empty(), Field::City, Cause::Empty),
            (self.country.is_empty(), Field::Country, Cause::Empty),
            too_short(Field::Country, self.country, 2),
            too_long(Field::Country, self.country, 2),
            (!is_country(self.country), Field::Country, Cause::Character),
        ])
    }

    // Checks form and lengths of a party who is named.
    #[tactic(auto, unfolding(crate::specs::Bill::named_refusal))]
    fn check_named(&self) -> ContentResult<()>
        ensures { result ≡ checked (named_refusal (addressee_of self.now)) }
    {
        self.check_form()?;
        self.check_lengths()
    }

    // Whether all fields are empty.
    fn is_nobody(&self) -> bool
        ensures { result ≡ is_nobody (addressee_of self.now) }
    {
        self.name.is_empty()
            && self.street.is_empty()
            && self.number.is_empty()
            && self.code.is_empty()
            && self.city.is_empty()
            && self.country.is_empty()
    }

    // Checks a party who need not be named.
    #[tactic(auto, unfolding(crate::specs::Bill::party_refusal))]
    fn check_party(&self) -> ContentResult<()>
        ensures { result ≡ checked (party_refusal (addressee_of self.now)) }
    {
        self.check_texts()?;
        if self.is_nobody() {
            return Ok(());
        }
        self.check_named()
    }

    // Checks a party as `check_party` does, and reports the debtor's fields.
    fn check_debtor(&self) -> ContentResult<()>
        ensures { result ≡ checked (debtor_refusal (addressee_of self.now)) }
    {
        of_debtor(self.check_party())
    }

    // The line of the address type: `S` (structured), or empty if nobody is named.
    fn kind(&self) -> &'static str
        ensures { result.now ≡ address_kind (addressee_of self.now) }
    {
        if self.is_nobody() { "" } else { "S" }
    }

    // Appends the lines of the address.
    fn push(&self, text: &mut String) -> ContentResult<()>
        ensures appends { OnOk result (string_bytes text.new
            ≡ string_bytes text.old ++ later_text (address_lines (addressee_of self.now))) }
        ensures memory { IsOkUnless result OutOfMemory }
    {
        push_lines(text, &[self.kind()])?;
        let street = [self.name, self.street, self.number];
        let town = [self.code, self.city, self.country];
        push_lines(text, &street)?;
        push_lines(text, &town)
    }
}

impl Bill<'_> {
    // Rejects a wrong IBAN, and an amount out of range.
    #[tactic(auto, unfolding(crate::specs::Bill::account_refusal))]
    fn check_account(&self) -> ContentResult<()>
        ensures { result ≡ checked (account_refusal (invoice_of self.now)) }
    {
        refuse_first(&[
            disallowed(Field::Iban, self.iban),
            (self.iban.is_empty(), Field::Iban, Cause::Empty),
            too_short(Field::Iban, self.iban, 21),
            too_long(Field::Iban, self.iban, 21),
            (!is_an_account(self.iban), Field::Iban, Cause::Character),
            (!is_checked(self.iban), Field::Iban, Cause::CheckDigits),
            (is_out_of_range(self.cents), Field::Amount, Cause::Range),
        ])
    }

    // Rejects characters that no line may have in reference and message, and a long message.
    #[tactic(auto, unfolding(crate::specs::Bill::message_refusal))]
    fn check_message(&self) -> ContentResult<()>
        ensures { result ≡ checked (message_refusal (invoice_of self.now)) }
    {
        refuse_first(&[
            disallowed(Field::Reference, self.reference),
            disallowed(Field::Message, self.message),
            too_long(Field::Message, self.message, 140),
        ])
    }

    // Rejects a reference that is wrong, that is missing, or that does not go with the IBAN.
    #[tactic(auto, unfolding(crate::specs::Bill::reference_refusal))]
    fn check_reference(&self) -> ContentResult<()>
        ensures { result ≡ checked (reference_refusal (invoice_of self.now)) }
    {
        let (bytes, of_qr) = (self.reference.as_bytes(), is_qr_account(self.iban));
        let (qr, other) = (
            is_qr_reference(self.reference),
            is_creditor_reference(self.reference),
        );
        let wrong_digits = qr & (carry_of(bytes) != 0);
        let wrong_form = other & !has_form(self.reference);
        let unchecked = other & !is_checked(self.reference);
        let count = character_count(self.reference);
        let missing = of_qr & self.reference.is_empty();
        refuse_first(&[
            (qr & !are_digits(bytes), Field::Reference, Cause::Character),
            (qr & (count < 27), Field::Reference, Cause::TooShort),
            (count > 27, Field::Reference, Cause::TooLong),
            (wrong_digits, Field::Reference, Cause::CheckDigits),
            (other & (count < LEAST), Field::Reference, Cause::TooShort),
            (other & (count > 25), Field::Reference, Cause::TooLong),
            (wrong_form, Field::Reference, Cause::Character),
            (unchecked, Field::Reference, Cause::CheckDigits),
            (missing, Field::Reference, Cause::Empty),
            (of_qr & !qr, Field::Reference, Cause::Unused),
            (!of_qr & qr, Field::Reference, Cause::Unused),
        ])
    }

    // Fails on the first wrong field.
    #[tactic(auto, unfolding(crate::specs::Bill::bill_refusal))]
    fn check(&self) -> ContentResult<()>
        ensures { result ≡ checked (bill_refusal (invoice_of self.now)) }
    {
        self.check_account()?;
        self.creditor.check_texts()?;
        self.creditor.check_named()?;
        self.debtor.check_debtor()?;
        self.check_message()?;
        self.check_reference()
    }

    // Appends the last lines, from the reference's type to `EPD`.
    fn push_end(&self, text: &mut String) -> ContentResult<()>
        ensures appends { OnOk result (string_bytes text.new ≡ string_bytes text.old
            ++ later_text (end_lines (invoice_of self.now))) }
        ensures memory { IsOkUnless result OutOfMemory }
    {
        push_lines(text, &[kind_of(self.reference)])?;
        push_lines(text, &[self.reference, self.message])?;
        text.push_str("\nEPD")?;
        Ok(())
    }

    // Writes the text without checking the fields.
    fn written(&self, alloc: Global) -> ContentResult<String>
        ensures value { IfOk result (λ text. string_bytes text ≡ bill_text (invoice_of self.now)) }
        ensures memory { IsOkUnless result OutOfMemory }
    {
        let amount = open_amount(alloc, self.cents)?;
        let mut text = String::from_str(alloc, "SPC\n0200\n1")?;
        push_lines(&mut text, &[self.iban])?;
        self.creditor.push(&mut text)?;
        text.push_str("\n\n\n\n\n\n\n")?;
        push_lines(&mut text, &[amount.as_str(), self.currency.name()])?;
        self.debtor.push(&mut text)?;
        self.push_end(&mut text)?;
        Ok(text)
    }

    /// Returns the text of the bill. Its symbol must have level [`LEVEL`] and a version up to
    /// [`LARGEST`], which may be too small for a long bill.
    ///
    /// Errors: `Refused` names the first wrong field and why; `OutOfMemory` if memory runs out. The
    /// debtor's fields have names of their own, e.g. `DebtorCity`.
    pub fn text(&self, alloc: Global) -> ContentResult<String>
        ensures reads { Answers (bill_refusal (invoice_of self.now)) result
            (λ text. read_bill text ≡ Some (invoice_of self.now)) }
        ensures value { IfOk result (λ text. string_bytes text ≡ bill_text (invoice_of self.now)) }
    {
        self.check()?;
        self.written(alloc)
    }
}
