//! The kinds of payload, and the fields of each, in order.

ghost use Rattle.std.specs.Prelude.{◌≡◌, position};
ghost use Rattle.qrcode_payloads.specs.Kinds.{kind_named, fields_of, field_index, is_same_field};

use qrcode_contents::fields::errors::Field;

/// A kind of payload.
#[derive(Clone, Copy, PartialEq, Eq)]
pub enum Kind {
    /// A Wi-Fi network.
    Wifi,
    /// A contact, as MECARD.
    Mecard,
    /// A contact, as vCard 3.0.
    Vcard,
    /// A SEPA credit transfer.
    Payment,
    /// A Swiss QR-bill.
    Bill,
    /// An e-mail.
    Mail,
    /// A location.
    Geo,
    /// A phone call.
    Tel,
    /// A text message.
    Sms,
    /// One-time passwords.
    Otp,
    /// A calendar event.
    Event,
    /// A payment by UPI.
    Upi,
    /// A payment by Pix.
    Pix,
    /// A payment by PromptPay.
    Promptpay,
}

/// Returns the kind with this number: they count from 0 in the order of [`Kind`]. Returns `None`
/// for any other number.
pub fn kind_named(number: u32) -> Option<Kind>
    ensures value { result ≡ kind_named number }
{
    match number {
        0 => Some(Kind::Wifi),
        1 => Some(Kind::Mecard),
        2 => Some(Kind::Vcard),
        3 => Some(Kind::Payment),
        4 => Some(Kind::Bill),
        5 => Some(Kind::Mail),
        6 => Some(Kind::Geo),
        7 => Some(Kind::Tel),
        8 => Some(Kind::Sms),
        9 => Some(Kind::Otp),
        10 => Some(Kind::Event),
        11 => Some(Kind::Upi),
        12 => Some(Kind::Pix),
        13 => Some(Kind::Promptpay),
        _ => None,
    }
}

/// The fields of [`Kind::Wifi`].
pub static WIFI: [Field; 4] = [Field::Ssid, Field::Password, Field::Security, Field::Hidden];

/// The fields of [`Kind::Mecard`].
pub static MECARD: [Field; 12] = [
    Field::Family,
    Field::Given,
    Field::Phone,
    Field::Email,
    Field::Url,
    Field::Birthday,
    Field::Note,
    Field::Street,
    Field::City,
    Field::Region,
    Field::PostalCode,
    Field::Country,
];

/// The fields of [`Kind::Vcard`].
pub static VCARD: [Field; 20] = [
    Field::Name,
    Field::Family,
    Field::Given,
    Field::Organisation,
    Field::Phone,
    Field::Email,
    Field::Url,
    Field::Street,
    Field::City,
    Field::Region,
    Field::PostalCode,
    Field::Country,
    Field::Note,
    Field::Title,
    Field::Birthday,
    Field::Mobile,
    Field::WorkPhone,
    Field::HomePhone,
    Field::Nickname,
    Field::Fax,
];

/// The fields of [`Kind::Payment`].
pub static PAYMENT: [Field; 8] = [
    Field::Name,
    Field::Iban,
    Field::Amount,
    Field::Bic,
    Field::Purpose,
    Field::Reference,
    Field::Message,
    Field::Information,
];

/// The fields of [`Kind::Bill`].
pub static BILL: [Field; 17] = [
    Field::Iban,
    Field::Name,
    Field::Street,
    Field::Number,
    Field::PostalCode,
    Field::City,
    Field::Country,
    Field::Amount,
    Field::Currency,
    Field::Reference,
    Field::Message,
    Field::DebtorName,
    Field::DebtorStreet,
    Field::DebtorNumber,
    Field::DebtorPostalCode,
    Field::DebtorCity,
    Field::DebtorCountry,
];

/// The fields of [`Kind::Mail`].
pub static MAIL: [Field; 5] = [
    Field::Email,
    Field::Subject,
    Field::Message,
    Field::Cc,
    Field::Bcc,
];

/// The fields of [`Kind::Geo`].
pub static GEO: [Field; 2] = [Field::Latitude, Field::Longitude];

/// The fields of [`Kind::Tel`].
pub static TEL: [Field; 1] = [Field::Phone];

/// The fields of [`Kind::Sms`].
pub static SMS: [Field; 2] = [Field::Phone, Field::Message];

/// The fields of [`Kind::Otp`].
pub static OTP: [Field; 7] = [
    Field::Account,
    Field::Secret,
    Field::Issuer,
    Field::Algorithm,
    Field::Digits,
    Field::Period,
    Field::Counter,
];

/// The fields of [`Kind::Event`].
pub static EVENT: [Field; 7] = [
    Field::Begin,
    Field::End,
    Field::Summary,
    Field::Location,
    Field::Description,
    Field::Uid,
    Field::Stamp,
];

/// The fields of [`Kind::Upi`].
pub static UPI: [Field; 6] = [
    Field::Payee,
    Field::Name,
    Field::Amount,
    Field::Note,
    Field::Reference,
    Field::Category,
];

/// The fields of [`Kind::Pix`].
pub static PIX: [Field; 6] = [
    Field::Payee,
    Field::Name,
    Field::City,
    Field::Amount,
    Field::Reference,
    Field::Description,
];

/// The fields of [`Kind::Promptpay`].
pub static PROMPTPAY: [Field; 2] = [Field::Payee, Field::Amount];

/// Returns the fields of `kind`, in order.
pub fn fields_of(kind: Kind) -> &'static [Field]
    ensures value { result.now ≡ fields_of kind }
{
    match kind {
        Kind::Wifi => &WIFI,
        Kind::Mecard => &MECARD,
        Kind::Vcard => &VCARD,
        Kind::Payment => &PAYMENT,
        Kind::Bill => &BILL,
        Kind::Mail => &MAIL,
        Kind::Geo => &GEO,
        Kind::Tel => &TEL,
        Kind::Sms => &SMS,
        Kind::Otp => &OTP,
        Kind::Event => &EVENT,
        Kind::Upi => &UPI,
        Kind::Pix => &PIX,
        Kind::Promptpay => &PROMPTPAY,
    }
}

#[tactic(auto, unfolding(crate::specs::Kinds::is_same_field))]
fn is_same(a: Field, b: Field) -> bool
    ensures { result ≡ is_same_field a b }
{
    a == b
}

// The index of a field, if it is one of these.
fn found_place(fields: &[Field], field: Field) -> Option<usize>
    ensures { result ≡ position (λ one. is_same_field one field) fields.now }
{
    fields.iter().position(|one| is_same(*one, field))
}

/// Returns the index of `field` in `fields`; their number if it is none of them.
pub fn place_of(fields: &[Field], field: Field) -> usize
    ensures value { result ≡ field_index fields.now field }
{
    found_place(fields, field).unwrap_or(fields.len())
}
