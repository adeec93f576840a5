//! Writes the text of each kind of payload.

ghost use Rattle.std.specs.Prelude.{◌≡◌, IfOk, string_bytes};
ghost use Rattle.qrcode_contents.specs.Bill.{addressee_of};
ghost use Rattle.qrcode_contents.specs.Contact.{contact_of};
ghost use Rattle.qrcode_contents.specs.Phone.{phone_refusal};
ghost use Rattle.qrcode_contents.specs.fields.Refusals.{Answers, checked};
ghost use Rattle.qrcode_contents.specs.declared.fields.errors.Field.TheVariants.{Country, DebtorCountry};
ghost use Rattle.qrcode_payloads.specs.Plain.{plain};
ghost use Rattle.qrcode_payloads.specs.declared.plain.Cleaning.TheVariants as cleaning;
ghost use Rattle.qrcode_payloads.specs.Values.{creditor_in, debtor_in, contact_said};
ghost use Rattle.qrcode_payloads.specs.Texts.{is_long, long_refusal, content_refusal, payload_text, sms_text, HasText, IsReadAsFields, IsReadAsSms};
ghost use Rattle.qrcode_payloads.specs.declared.kinds.Kind.TheVariants.{Wifi, Mecard, Vcard, Payment, Bill, Mail, Geo, Tel, Sms, Otp, Event, Upi, Pix, Promptpay};

use crate::amounts::plain_amount;
use crate::given::FieldSource;
use crate::kinds::{Kind, fields_of};
use crate::plain::{Cleaning, phone_digits, phone_number, pix_key, plain, without_padding};
use crate::times::{plain_day, plain_time};
use crate::values;
use qrcode_contents::card::Card;
use qrcode_contents::contact::Contact;
use qrcode_contents::fields::errors::{Cause, ContentError, ContentResult, Field};
use qrcode_contents::geo::Place;
use qrcode_contents::one_time::OneTime;
use qrcode_contents::phone::Phone;
use qrcode_contents::times::Day;
use qrcode_contents::{bill, event, mail, merchant, payment, upi, wifi};
use std::alloc::Global;

fn wifi_text<G: FieldSource>(alloc: Global, given: &G) -> ContentResult<String>
    ensures { HasText Wifi (G.fields given.now) result }
{
    let security = values::security(given)?;
    let hidden = values::hidden(given.text(Field::Hidden))?;
    let network = wifi::Wifi {
        security,
        ssid: given.text(Field::Ssid),
        password: given.text(Field::Password),
        hidden,
    };
    network.text(alloc)
}

fn payment_text<G: FieldSource>(alloc: Global, given: &G) -> ContentResult<String>
    ensures { HasText Payment (G.fields given.now) result }
{
    let amount = plain_amount(alloc, given.text(Field::Amount))?;
    let iban = plain(alloc, given.text(Field::Iban), Cleaning::Spaces)?;
    let bic = plain(alloc, given.text(Field::Bic), Cleaning::Spaces)?;
    let purpose = plain(alloc, given.text(Field::Purpose), Cleaning::Spaces)?;
    let reference = plain(alloc, given.text(Field::Reference), Cleaning::Spaces)?;
    let cents = values::amount(amount.as_str())?;
    let payment = payment::Payment {
        version: payment::PaymentVersion::for_bic(bic.as_str()),
        bic: bic.as_str(),
        name: given.text(Field::Name),
        iban: iban.as_str(),
        cents,
        purpose: purpose.as_str(),
        reference: reference.as_str(),
        message: given.text(Field::Message),
        information: given.text(Field::Information),
    };
    payment.text(alloc)
}

fn geo_text<G: FieldSource>(alloc: Global, given: &G) -> ContentResult<String>
    ensures { HasText Geo (G.fields given.now) result }
{
    let north = plain(alloc, given.text(Field::Latitude).trim(), Cleaning::Degrees)?;
    let east = plain(
        alloc,
        given.text(Field::Longitude).trim(),
        Cleaning::Degrees,
    )?;
    let latitude = values::coordinate(north.as_str(), Field::Latitude)?;
    let longitude = values::coordinate(east.as_str(), Field::Longitude)?;
    let place = Place {
        latitude,
        longitude,
    };
    place.text(alloc)
}

// The contact of the fields, with this telephone number and birthday.
fn contact<'a, G: FieldSource>(given: &'a G, phone: &'a str, birthday: Option<Day>) -> Contact<'a>
    ensures { contact_of result ≡ contact_said (G.fields given.now) phone.now birthday }
{
    Contact {
        family: given.text(Field::Family),
        given: given.text(Field::Given),
        phone,
        email: given.text(Field::Email),
        url: given.text(Field::Url),
        birthday,
        note: given.text(Field::Note),
        street: given.text(Field::Street),
        city: given.text(Field::City),
        region: given.text(Field::Region),
        code: given.text(Field::PostalCode),
        country: given.text(Field::Country),
    }
}

fn mecard_text<G: FieldSource>(alloc: Global, given: &G) -> ContentResult<String>
    ensures { HasText Mecard (G.fields given.now) result }
{
    let day = plain_day(alloc, given.text(Field::Birthday))?;
    let phone = phone_digits(alloc, given.text(Field::Phone))?;
    let birthday = values::birthday(day.as_str())?;
    contact(given, phone.as_str(), birthday).mecard(alloc)
}

fn vcard_text<G: FieldSource>(alloc: Global, given: &G) -> ContentResult<String>
    ensures { HasText Vcard (G.fields given.now) result }
{
    let day = plain_day(alloc, given.text(Field::Birthday))?;
    let phone = phone_number(alloc, given.text(Field::Phone))?;
    let mobile = phone_number(alloc, given.text(Field::Mobile))?;
    let work_phone = phone_number(alloc, given.text(Field::WorkPhone))?;
    let home_phone = phone_number(alloc, given.text(Field::HomePhone))?;
    let fax = phone_number(alloc, given.text(Field::Fax))?;
    let birthday = values::birthday(day.as_str())?;
    let card = Card {
        contact: contact(given, phone.as_str(), birthday),
        name: given.text(Field::Name),
        organisation: given.text(Field::Organisation),
        title: given.text(Field::Title),
        mobile: mobile.as_str(),
        work_phone: work_phone.as_str(),
        home_phone: home_phone.as_str(),
        nickname: given.text(Field::Nickname),
        fax: fax.as_str(),
    };
    card.text(alloc)
}

// The creditor of a bill, with this country code.
fn creditor<'a, G: FieldSource>(given: &'a G, country: &'a str) -> bill::Party<'a>
    ensures { country.now ≡ plain cleaning.Spaces (G.fields given.now Country)
        → addressee_of result ≡ creditor_in (G.fields given.now) }
{
    bill::Party {
        name: given.text(Field::Name),
        street: given.text(Field::Street),
        number: given.text(Field::Number),
        code: given.text(Field::PostalCode),
        city: given.text(Field::City),
        country,
    }
}

// The debtor of a bill, with this country code.
fn debtor<'a, G: FieldSource>(given: &'a G, country: &'a str) -> bill::Party<'a>
    ensures { country.now ≡ plain cleaning.Spaces (G.fields given.now DebtorCountry)
        → addressee_of result ≡ debtor_in (G.fields given.now) }
{
    bill::Party {
        name: given.text(Field::DebtorName),
        street: given.text(Field::DebtorStreet),
        number: given.text(Field::DebtorNumber),
        code: given.text(Field::DebtorPostalCode),
        city: given.text(Field::DebtorCity),
        country,
    }
}

fn bill_text<G: FieldSource>(alloc: Global, given: &G) -> ContentResult<String>
    ensures { HasText Bill (G.fields given.now) result }
{
    let amount = plain_amount(alloc, given.text(Field::Amount))?;
    let iban = plain(alloc, given.text(Field::Iban), Cleaning::Spaces)?;
    let country = plain(alloc, given.text(Field::Country), Cleaning::Spaces)?;
    let other = plain(alloc, given.text(Field::DebtorCountry), Cleaning::Spaces)?;
    let reference = plain(alloc, given.text(Field::Reference), Cleaning::Spaces)?;
    let cents = values::open_amount(amount.as_str())?;
    let currency = values::currency(given.text(Field::Currency))?;
    let bill = bill::Bill {
        iban: iban.as_str(),
        creditor: creditor(given, country.as_str()),
        cents,
        currency,
        debtor: debtor(given, other.as_str()),
        reference: reference.as_str(),
        message: given.text(Field::Message),
    };
    bill.text(alloc)
}

fn mail_text<G: FieldSource>(alloc: Global, given: &G) -> ContentResult<String>
    ensures { HasText Mail (G.fields given.now) result }
{
    let mail = mail::Mail {
        address: given.text(Field::Email),
        cc: given.text(Field::Cc),
        bcc: given.text(Field::Bcc),
        subject: given.text(Field::Subject),
        body: given.text(Field::Message),
    };
    mail.text(alloc)
}

fn tel_text<G: FieldSource>(alloc: Global, given: &G) -> ContentResult<String>
    ensures { HasText Tel (G.fields given.now) result }
{
    let number = phone_number(alloc, given.text(Field::Phone))?;
    let phone = Phone {
        number: number.as_str(),
    };
    phone.tel(alloc)
}

// The link that writes a text message to `number`, with `body` if it is not empty.
fn message_text(alloc: Global, number: &str, body: &str) -> ContentResult<String>
    ensures reads { Answers (phone_refusal number.now) result (IsReadAsSms number.now body.now) }
    ensures value { IfOk result (λ text. string_bytes text ≡ sms_text number.now body.now) }
{
    let phone = Phone { number };
    if body.is_empty() {
        return phone.sms(alloc);
    }
    phone.message(alloc, body)
}

// The link that writes a text message.
fn sms_text<G: FieldSource>(alloc: Global, given: &G) -> ContentResult<String>
    ensures { HasText Sms (G.fields given.now) result }
{
    let number = phone_number(alloc, given.text(Field::Phone))?;
    message_text(alloc, number.as_str(), given.text(Field::Message))
}

fn otp_text<G: FieldSource>(alloc: Global, given: &G) -> ContentResult<String>
    ensures { HasText Otp (G.fields given.now) result }
{
    let secret = plain(alloc, given.text(Field::Secret), Cleaning::Person)?;
    let factor = values::factor(given.text(Field::Counter), given.text(Field::Period))?;
    let algorithm = values::algorithm(given.text(Field::Algorithm))?;
    let digits = values::digits(given.text(Field::Digits))?;
    let passwords = OneTime {
        factor,
        issuer: given.text(Field::Issuer),
        account: given.text(Field::Account),
        secret: without_padding(secret.as_str()),
        algorithm,
        digits,
    };
    passwords.text(alloc)
}

fn event_text<G: FieldSource>(alloc: Global, given: &G) -> ContentResult<String>
    ensures { HasText Event (G.fields given.now) result }
{
    let begin = plain_time(alloc, given.text(Field::Begin))?;
    let end = plain_time(alloc, given.text(Field::End))?;
    let written = plain_time(alloc, given.text(Field::Stamp))?;
    let span = values::span(begin.as_str(), end.as_str())?;
    let stamp = values::stamp(written.as_str())?;
    let event = event::Event {
        uid: given.text(Field::Uid),
        stamp,
        span,
        summary: given.text(Field::Summary),
        location: given.text(Field::Location),
        description: given.text(Field::Description),
    };
    event.text(alloc)
}

fn upi_text<G: FieldSource>(alloc: Global, given: &G) -> ContentResult<String>
    ensures { HasText Upi (G.fields given.now) result }
{
    let amount = plain_amount(alloc, given.text(Field::Amount))?;
    let cents = values::open_amount(amount.as_str())?;
    let payment = upi::Upi {
        payee: given.text(Field::Payee),
        name: given.text(Field::Name),
        category: given.text(Field::Category),
        reference: given.text(Field::Reference),
        note: given.text(Field::Note),
        cents,
    };
    payment.text(alloc)
}

fn pix_text<G: FieldSource>(alloc: Global, given: &G) -> ContentResult<String>
    ensures { HasText Pix (G.fields given.now) result }
{
    let key = pix_key(alloc, given.text(Field::Payee))?;
    let amount = plain_amount(alloc, given.text(Field::Amount))?;
    let cents = values::open_amount(amount.as_str())?;
    let payment = merchant::Pix {
        key: key.as_str(),
        name: given.text(Field::Name),
        city: given.text(Field::City),
        cents,
        reference: given.text(Field::Reference),
        description: given.text(Field::Description),
    };
    payment.text(alloc)
}

fn promptpay_text<G: FieldSource>(alloc: Global, given: &G) -> ContentResult<String>
    ensures { HasText Promptpay (G.fields given.now) result }
{
    let payee = plain(alloc, given.text(Field::Payee), Cleaning::Person)?;
    let amount = plain_amount(alloc, given.text(Field::Amount))?;
    let cents = values::open_amount(amount.as_str())?;
    let payment = merchant::PromptPay {
        payee: payee.as_str(),
        cents,
    };
    payment.text(alloc)
}

// Whether a text has more than 113,424 bytes, as many as 16 symbols (the most of a split) hold
// digits.
fn is_long(text: &str) -> bool
    ensures { result ≡ is_long text.now }
{
    text.len() > 113_424
}

// Rejects the first field that is too long, before memory is taken for it.
fn refuse_long<G: FieldSource>(fields: &[Field], given: &G) -> ContentResult<()>
    ensures { result ≡ checked (long_refusal fields.now (G.fields given.now)) }
{
    let mut rest = fields;
    while let [field, more @ ..] = rest {
        if is_long(given.text(*field)) {
            return Err(ContentError::Refused(*field, Cause::TooLong));
        }
        rest = more;
    }
    Ok(())
}

// Writes the text, without checking whether fields have more than 113,424 bytes.
fn payload_text<G: FieldSource>(alloc: Global, kind: Kind, given: &G) -> ContentResult<String>
    ensures { HasText kind (G.fields given.now) result }
{
    match kind {
        Kind::Wifi => wifi_text(alloc, given),
        Kind::Mecard => mecard_text(alloc, given),
        Kind::Vcard => vcard_text(alloc, given),
        Kind::Payment => payment_text(alloc, given),
        Kind::Bill => bill_text(alloc, given),
        Kind::Mail => mail_text(alloc, given),
        Kind::Geo => geo_text(alloc, given),
        Kind::Tel => tel_text(alloc, given),
        Kind::Sms => sms_text(alloc, given),
        Kind::Otp => otp_text(alloc, given),
        Kind::Event => event_text(alloc, given),
        Kind::Upi => upi_text(alloc, given),
        Kind::Pix => pix_text(alloc, given),
        Kind::Promptpay => promptpay_text(alloc, given),
    }
}

/// Returns the text of a payload of this `kind`, with the fields of `given`.
///
/// Errors: `Refused` with the first field of more than 113,424 bytes, or else the first wrong
/// field, and its cause; `OutOfMemory` if memory runs out.
pub fn text_of<G: FieldSource>(alloc: Global, kind: Kind, given: &G) -> ContentResult<String>
    ensures reads { Answers (content_refusal kind (G.fields given.now)) result
        (IsReadAsFields kind (G.fields given.now)) }
    ensures value { IfOk result
        (λ text. string_bytes text ≡ payload_text kind (G.fields given.now)) }
{
    refuse_long(fields_of(kind), given)?;
    payload_text(alloc, kind, given)
}
