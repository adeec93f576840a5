//! The options of payloads: which are required, and help that a kind has for itself.

use super::Entry;
use super::Takes::{Text, Wanted};
use super::fields::option_of;
use qrcode_contents::fields::errors::Field;
use qrcode_payloads::kinds::Kind;

/// Returns the option of `field` in payloads of `kind`: with the help that this kind has for it, and
/// required if payloads of this kind need the field.
pub fn entry_of(kind: Kind, field: Field) -> Entry {
    let entry = option_of(field);
    let (takes, help) = match own_help(kind, field) {
        Some((name, help)) => (Text(name), help),
        None => (entry.takes, entry.help),
    };
    let takes = match takes {
        Text(name) if is_needed(kind, field) => Wanted(name),
        takes => takes,
    };
    Entry {
        takes,
        help,
        ..entry
    }
}

// Whether payloads of a kind need a field.
fn is_needed(kind: Kind, field: Field) -> bool {
    match kind {
        Kind::Wifi => field == Field::Ssid,
        Kind::Mecard => field == Field::Family,
        Kind::Vcard => matches!(field, Field::Name | Field::Family),
        Kind::Payment => matches!(field, Field::Name | Field::Iban | Field::Amount),
        Kind::Bill => matches!(
            field,
            Field::Iban | Field::Name | Field::PostalCode | Field::City | Field::Country
        ),
        Kind::Mail => field == Field::Email,
        Kind::Geo => matches!(field, Field::Latitude | Field::Longitude),
        Kind::Tel | Kind::Sms => field == Field::Phone,
        Kind::Otp => matches!(field, Field::Account | Field::Secret),
        Kind::Event => matches!(field, Field::Begin | Field::End),
        Kind::Upi | Kind::Promptpay => field == Field::Payee,
        Kind::Pix => matches!(field, Field::Payee | Field::Name | Field::City),
    }
}

// Returns the name of the value of a field and its help, if a kind has its own.
#[rattlefmt::skip]
fn own_help(kind: Kind, field: Field) -> Option<(&'static str, &'static str)> {
    Some(match (kind, field) {
        (Kind::Vcard, Field::Name) => ("NAME", "Full name, as displayed"),
        (Kind::Payment, Field::Amount) => ("EUROS", "Amount in euros, 0.01 to 999999999.99, e.g. 12.30"),
        (Kind::Payment, Field::Reference) => ("TEXT", "Reference (ISO 11649), e.g. RF18 5390 0754 7034"),
        (Kind::Payment, Field::Message) => ("TEXT", "Message instead of a reference, up to 140 characters"),
        (Kind::Bill, Field::Iban) => ("IBAN", "Payee's account in Switzerland or Liechtenstein, e.g. CH58 0079 1123 0008 8901 2"),
        (Kind::Bill, Field::Street) => ("TEXT", "Payee's street"),
        (Kind::Bill, Field::PostalCode) => ("TEXT", "Payee's postal code"),
        (Kind::Bill, Field::City) => ("TEXT", "Payee's city"),
        (Kind::Bill, Field::Country) => ("CODE", "Payee's country, two letters, e.g. CH"),
        (Kind::Bill, Field::Reference) => ("TEXT", "Reference: 27 digits with a QR-IBAN, otherwise RF.. or none"),
        (Kind::Bill, Field::Message) => ("TEXT", "Message, up to 140 characters"),
        (Kind::Mail, Field::Email) => ("ADDRESSES", "Recipient's address, or several with commas between"),
        (Kind::Upi, Field::Payee) => ("ADDRESS", "Payee's UPI address (VPA), e.g. name@bank"),
        (Kind::Upi, Field::Name) => ("NAME", "Payee's name"),
        (Kind::Pix, Field::Payee) => ("KEY", "Payee's Pix key: CPF or CNPJ, phone as +55 61 91234-5678, e-mail, random key"),
        (Kind::Pix, Field::Name) => ("NAME", "Payee's name, up to 25 ASCII characters"),
        (Kind::Pix, Field::City) => ("TEXT", "Payee's city, up to 15 ASCII characters"),
        (Kind::Pix, Field::Reference) => ("TEXT", "Reference (txid), up to 25 letters and digits"),
        (Kind::Pix, Field::Description) => ("TEXT", "ASCII description; up to 73 characters, key included"),
        (Kind::Promptpay, Field::Payee) => ("NUMBER", "Payee's phone number (081 234 5678), national or tax ID (13 digits), or e-wallet (15)"),
        _ => return None,
    })
}
