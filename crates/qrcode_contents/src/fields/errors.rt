//! Errors: which field a format rejects, and why.

ghost use Rattle.std.specs.Prelude.{◌≡◌};
ghost use Rattle.qrcode_contents.specs.declared.fields.errors.ContentError.TheVariants.{OutOfMemory};

use std::alloc::{AllocError, AllocFailed};
use std::error::Error;
use std::fmt;

/// A field of one of the formats.
#[derive(Debug, PartialEq, Eq, Copy, Clone)]
pub enum Field {
    /// The name of a network.
    Ssid,
    /// The password of a network.
    Password,
    /// The security of a network.
    Security,
    /// Whether a network hides its name.
    Hidden,
    /// The bank's identifier (BIC).
    Bic,
    /// The name of the payee, or the displayed name of a contact.
    Name,
    /// The family name of a contact.
    Family,
    /// The given names of a contact.
    Given,
    /// An organisation.
    Organisation,
    /// The job title of a contact.
    Title,
    /// A telephone number.
    Phone,
    /// The number of a mobile phone.
    Mobile,
    /// The telephone number at work.
    WorkPhone,
    /// The telephone number at home.
    HomePhone,
    /// An e-mail address.
    Email,
    /// A web address.
    Url,
    /// A birthday.
    Birthday,
    /// A note.
    Note,
    /// A street; for a contact with the house number.
    Street,
    /// A house number.
    Number,
    /// A town.
    City,
    /// A region of a country.
    Region,
    /// A postal code.
    PostalCode,
    /// A country.
    Country,
    /// The debtor's name.
    DebtorName,
    /// The debtor's street.
    DebtorStreet,
    /// The debtor's house number.
    DebtorNumber,
    /// The debtor's postal code.
    DebtorPostalCode,
    /// The debtor's town.
    DebtorCity,
    /// The debtor's country.
    DebtorCountry,
    /// The account (IBAN).
    Iban,
    /// The amount of money.
    Amount,
    /// The currency of the amount.
    Currency,
    /// The purpose code of a payment.
    Purpose,
    /// The reference of a payment.
    Reference,
    /// The message of a payment, an e-mail or a text message.
    Message,
    /// Information for the payer of a payment.
    Information,
    /// The subject of an e-mail.
    Subject,
    /// Degrees north of the equator.
    Latitude,
    /// Degrees east of Greenwich.
    Longitude,
    /// The secret of one-time passwords.
    Secret,
    /// The issuer of one-time passwords.
    Issuer,
    /// The account of one-time passwords.
    Account,
    /// The hash function of one-time passwords.
    Algorithm,
    /// The number of digits of a one-time password.
    Digits,
    /// How many seconds a one-time password is valid.
    Period,
    /// The first value of the counter of one-time passwords.
    Counter,
    /// The identifier of an event.
    Uid,
    /// The time when an event was written.
    Stamp,
    /// The beginning of an event.
    Begin,
    /// The end of an event.
    End,
    /// The title of an event.
    Summary,
    /// The place of an event.
    Location,
    /// The description of an event or of a payment.
    Description,
    /// The payee: a UPI address, a Pix key, or a PromptPay number.
    Payee,
    /// The category of a merchant.
    Category,
    /// Addresses that get a copy of an e-mail.
    Cc,
    /// Addresses that get a copy of an e-mail, unseen by the others.
    Bcc,
    /// The nickname of a contact.
    Nickname,
    /// A fax number.
    Fax,
    /// The whole text.
    Whole,
}

/// Why a format rejects a field.
#[derive(Debug, PartialEq, Eq, Copy, Clone)]
pub enum Cause {
    /// The field must not be empty.
    Empty,
    /// The field is longer than the format allows.
    TooLong,
    /// The field is shorter than the format allows.
    TooShort,
    /// The field has a line break or another control character.
    ControlCharacter,
    /// The field has a character that the format does not allow there.
    Character,
    /// The check digits are wrong.
    CheckDigits,
    /// The number is outside the format's range.
    Range,
    /// The field does not go with the other fields.
    Unused,
    /// The number has more digits after the decimal point than the format allows.
    Decimals,
    /// The field is none of the allowed words.
    Word,
}

/// Why a value has no text.
#[derive(Debug, PartialEq, Eq, Copy, Clone)]
pub enum ContentError {
    /// The format rejects this field, for this cause.
    Refused(Field, Cause),
    /// Memory ran out.
    OutOfMemory,
}

/// The result of a call that may reject a field.
pub type ContentResult<T> = Result<T, ContentError>;

impl fmt::Display for ContentError {
    fn fmt<W: fmt::Write>(&self, f: &mut fmt::Formatter<W>) -> fmt::Result {
        match self {
            ContentError::Refused(field, cause) => {
                let field = *field;
                let cause = *cause;
                write!(f, "{field:?}: {cause:?}")
            }
            ContentError::OutOfMemory => f.write_str("out of memory"),
        }
    }
}

impl Error for ContentError {}

impl From<AllocError> for ContentError {
    ghost from_gives = { λ _ e. e ≡ OutOfMemory };

    fn from(_error: AllocError) -> ContentError {
        ContentError::OutOfMemory
    }
}

impl<T: Drop> From<AllocFailed<T>> for ContentError {
    ghost from_gives = { λ _ e. e ≡ OutOfMemory };

    fn from(_error: AllocFailed<T>) -> ContentError {
        ContentError::OutOfMemory
    }
}
