//! The option of each payload field.

ghost use Rattle.std.specs.Prelude.{◌≡◌};
ghost use Rattle.goqlanis_options.specs.Fields.{name_of};

use super::Takes::{Nothing, Text, Word};
use super::{Entry, Takes};
use qrcode_contents::fields::errors::Field;

// The name, value and help of each option, in the order of `Field`. The whole text has none.
#[rattlefmt::skip]
static FIELDS: &[(&str, Takes, &str)] = &[
    ("ssid", Text("NAME"), "Network name, 1 to 32 bytes"),
    ("password", Text("TEXT"), "Password, for a network that is not open"),
    ("security", Word("SECURITY", &["open", "nopass", "none", "WEP", "WPA", "WPA2", "WPA3", "SAE"]), "Encryption [default: WPA if there is a password]"),
    ("hidden", Nothing, "The network does not broadcast its name"),
    ("bic", Text("BIC"), "Payee's bank, 8 or 11 letters and digits; selects EPC version 001 instead of 002"),
    ("name", Text("NAME"), "Payee, up to 70 characters"),
    ("family", Text("NAME"), "Family name"),
    ("given", Text("NAME"), "Given names"),
    ("organisation", Text("NAME"), "Organisation"),
    ("title", Text("TEXT"), "Job title"),
    ("phone", Text("NUMBER"), "Phone number, e.g. +41 44 123 45 67"),
    ("mobile", Text("NUMBER"), "Mobile phone number"),
    ("work-phone", Text("NUMBER"), "Phone number at work"),
    ("home-phone", Text("NUMBER"), "Phone number at home"),
    ("email", Text("ADDRESS"), "E-mail address"),
    ("url", Text("URL"), "Web address"),
    ("birthday", Text("DATE"), "Birthday, e.g. 1970-01-31"),
    ("note", Text("TEXT"), "Note"),
    ("street", Text("TEXT"), "Street and house number"),
    ("number", Text("TEXT"), "Payee's house number"),
    ("city", Text("TEXT"), "City"),
    ("region", Text("TEXT"), "Region"),
    ("code", Text("TEXT"), "Postal code"),
    ("country", Text("TEXT"), "Country"),
    ("debtor-name", Text("NAME"), "Payer; omit all --debtor options if not known"),
    ("debtor-street", Text("TEXT"), "Payer's street"),
    ("debtor-number", Text("TEXT"), "Payer's house number"),
    ("debtor-code", Text("TEXT"), "Payer's postal code"),
    ("debtor-city", Text("TEXT"), "Payer's city"),
    ("debtor-country", Text("CODE"), "Payer's country, two letters"),
    ("iban", Text("IBAN"), "Payee's account, e.g. DE89 3704 0044 0532 0130 00"),
    ("amount", Text("NUMBER"), "Amount, 0.01 to 999999999.99, e.g. 12.30 [default: the payer's choice]"),
    ("currency", Word("CURRENCY", &["CHF", "EUR"]), "Currency [default: CHF]"),
    ("purpose", Text("CODE"), "Purpose code, up to four letters and digits"),
    ("reference", Text("TEXT"), "Reference, e.g. an order number"),
    ("message", Text("TEXT"), "Text"),
    ("information", Text("TEXT"), "Note to the payer, up to 70 characters"),
    ("subject", Text("TEXT"), "Subject"),
    ("latitude", Text("DEGREES"), "Degrees north, -90 to 90, with up to 6 decimals, e.g. -33.8568"),
    ("longitude", Text("DEGREES"), "Degrees east, -180 to 180, with up to 6 decimals, e.g. 151.2153"),
    ("secret", Text("SECRET"), "Secret in base 32: A to Z and 2 to 7"),
    ("issuer", Text("NAME"), "Name of the service, without a colon"),
    ("account", Text("NAME"), "Account without a colon, e.g. an e-mail address"),
    ("algorithm", Word("HASH", &["SHA1", "SHA256", "SHA512", "SHA-1", "SHA-256", "SHA-512"]), "Hash function [default: SHA1]"),
    ("digits", Word("N", &["6", "8"]), "Digits of a password [default: 6]"),
    ("period", Text("SECONDS"), "Seconds that a password is valid, 1 to 4,294,967,295 [default: 30]"),
    ("counter", Text("NUMBER"), "Count from this number (HOTP) instead of using time"),
    ("uid", Text("TEXT"), "Unique identifier of the event, which RFC 5545 requires"),
    ("stamp", Text("TIME"), "When the event was created, e.g. 2026-11-28T13:00Z, which RFC 5545 requires"),
    ("begin", Text("TIME"), "Start, e.g. 2026-11-28T14:00+01:00 (an hour ahead of UTC), 2026-11-28T13:00Z (UTC) or 2026-11-28 (all day)"),
    ("end", Text("TIME"), "End, later than --begin, in the same form; for whole days, the day after the last"),
    ("summary", Text("TEXT"), "Title of the event"),
    ("location", Text("TEXT"), "Location"),
    ("description", Text("TEXT"), "Description"),
    ("payee", Text("ADDRESS"), "Payee"),
    ("category", Text("CODE"), "Merchant category code, four digits, e.g. 5411"),
    ("cc", Text("ADDRESSES"), "Addresses that get a copy"),
    ("bcc", Text("ADDRESSES"), "Addresses that get a copy, unseen by the others"),
    ("nickname", Text("NAME"), "Nickname"),
    ("fax", Text("NUMBER"), "Fax number"),
    ("", Nothing, ""),
];

/// Returns the option of `field`; its name is empty for `Whole`.
pub fn option_of(field: Field) -> Entry
    ensures name { result.long.now ≡ name_of field }
{
    let (long, takes, help) = FIELDS[field as usize];
    Entry {
        long,
        short: None,
        takes,
        help,
    }
}
