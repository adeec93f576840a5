//! Turns the texts of fields into values: amounts, days, words and so on.

ghost use Rattle.std.specs.Prelude.{◌≡◌, ◌≤◌, IfOk};
ghost use Rattle.qrcode_contents.specs.declared.fields.errors.ContentError.TheVariants.{Refused};
ghost use Rattle.qrcode_payloads.specs.Values.{number_cause, amount_in, open_amount_in, day_cause, birthday_in, security_in, hidden_in, currency_in, algorithm_in, digits_in, degrees_in, whole_in, factor_in, time_cause, day_span_in, time_span_in, span_in, stamp_in};

use crate::given::FieldSource;
use crate::numbers::{decimal, degrees, unsigned};
use crate::times::{day_said, is_local, moment_said};
use crate::words::word;
use qrcode_contents::bill::Currency;
use qrcode_contents::event::Span;
use qrcode_contents::fields::characters::are_digits;
use qrcode_contents::fields::errors::{Cause, ContentError, ContentResult, Field};
use qrcode_contents::one_time::{Algorithm, Digits, Factor};
use qrcode_contents::times::{Day, Moment};
use qrcode_contents::wifi::Security;

// Why a text is no number: `Empty`, `Decimals` (too many digits after its point) or `Character`.
fn number_cause(text: &str) -> Cause
    ensures { result ≡ number_cause text.now }
{
    if text.is_empty() {
        Cause::Empty
    } else if decimal(text, text.len()).is_some() {
        Cause::Decimals
    } else {
        Cause::Character
    }
}

/// Reads an amount, in hundredths; a point at its end is an error.
pub(crate) fn amount(text: &str) -> ContentResult<u64>
    ensures value { result ≡ amount_in text.now }
{
    if text.ends_with('.') {
        return Err(ContentError::Refused(Field::Amount, Cause::Character));
    }
    decimal(text, 2).ok_or(ContentError::Refused(Field::Amount, number_cause(text)))
}

/// Reads an amount, in hundredths; `None` if `text` is empty.
pub(crate) fn open_amount(text: &str) -> ContentResult<Option<u64>>
    ensures value { result ≡ open_amount_in text.now }
{
    if text.is_empty() {
        return Ok(None);
    }
    Ok(Some(amount(text)?))
}

// Why a text is no day of eight digits: `Character`, `TooShort` or `TooLong`.
fn day_cause(text: &str) -> Cause
    ensures { result ≡ day_cause text.now }
{
    if !are_digits(text.as_bytes()) {
        Cause::Character
    } else if text.len() < 8 {
        Cause::TooShort
    } else {
        Cause::TooLong
    }
}

/// Reads a birthday; `None` if `text` is empty.
pub(crate) fn birthday(text: &str) -> ContentResult<Option<Day>>
    ensures value { result ≡ birthday_in text.now }
{
    if text.is_empty() {
        return Ok(None);
    }
    match day_said(text) {
        Some(day) => Ok(Some(day)),
        None => Err(ContentError::Refused(Field::Birthday, day_cause(text))),
    }
}

/// Returns the security of a network: the given one, else WPA if there is a password, and open if
/// not.
pub(crate) fn security<G: FieldSource>(given: &G) -> ContentResult<Security>
    ensures value { result ≡ security_in (G.fields given.now) }
{
    let words = [
        ("open", Security::Open),
        ("nopass", Security::Open),
        ("none", Security::Open),
        ("WEP", Security::Wep),
        ("WPA", Security::Wpa),
        ("WPA2", Security::Wpa),
        ("WPA3", Security::Wpa3),
        ("SAE", Security::Wpa3),
    ];
    let is_open = given.text(Field::Password).is_empty();
    let other = if is_open {
        Security::Open
    } else {
        Security::Wpa
    };
    word(given.text(Field::Security), &words, other, Field::Security)
}

/// Reads whether a network hides its name; `false` if `text` is empty.
pub(crate) fn hidden(text: &str) -> ContentResult<bool>
    ensures value { result ≡ hidden_in text.now }
{
    let words = [("true", true), ("false", false)];
    word(text, &words, false, Field::Hidden)
}

/// Reads the currency of a bill; Swiss francs if `text` is empty.
pub(crate) fn currency(text: &str) -> ContentResult<Currency>
    ensures value { result ≡ currency_in text.now }
{
    let words = [("CHF", Currency::Franc), ("EUR", Currency::Euro)];
    word(text, &words, Currency::Franc, Field::Currency)
}

/// Reads the hash function of one-time passwords; SHA1 if `text` is empty.
pub(crate) fn algorithm(text: &str) -> ContentResult<Algorithm>
    ensures value { result ≡ algorithm_in text.now }
{
    let words = [
        ("SHA1", Algorithm::Sha1),
        ("SHA256", Algorithm::Sha256),
        ("SHA512", Algorithm::Sha512),
        ("SHA-1", Algorithm::Sha1),
        ("SHA-256", Algorithm::Sha256),
        ("SHA-512", Algorithm::Sha512),
    ];
    word(text, &words, Algorithm::Sha1, Field::Algorithm)
}

/// Reads the number of digits of one-time passwords, six or eight; six if `text` is empty.
pub(crate) fn digits(text: &str) -> ContentResult<Digits>
    ensures value { result ≡ digits_in text.now }
{
    let words = [("6", Digits::Six), ("8", Digits::Eight)];
    word(text, &words, Digits::Six, Field::Digits)
}

/// Reads degrees, in millionths. An error names `field`.
pub(crate) fn coordinate(text: &str, field: Field) -> ContentResult<i32>
    ensures value { result ≡ degrees_in text.now field }
{
    let cause = number_cause(unsigned(text).1);
    degrees(text).ok_or(ContentError::Refused(field, cause))
}

// Reads a whole number; `Range` if it is more than `most`.
fn whole(text: &str, most: u64, field: Field) -> ContentResult<u64>
    ensures value { result ≡ whole_in text.now most field }
    ensures at_most { IfOk result (λ number. number ≤ most) }
{
    match decimal(text, 0) {
        Some(number) if number > most => Err(ContentError::Refused(field, Cause::Range)),
        Some(number) => Ok(number),
        None => Err(ContentError::Refused(field, number_cause(text))),
    }
}

/// Returns what makes passwords change: the counter if one is given, else the time, with the given
/// period or 30 seconds. A period next to a counter is `Unused`.
pub(crate) fn factor(counter: &str, period: &str) -> ContentResult<Factor>
    ensures value { result ≡ factor_in counter.now period.now }
{
    if !counter.is_empty() {
        if !period.is_empty() {
            return Err(ContentError::Refused(Field::Period, Cause::Unused));
        }
        let most = 18_446_744_073_709_551_614;
        return Ok(Factor::Counter(whole(counter, most, Field::Counter)?));
    }
    if period.is_empty() {
        return Ok(Factor::Time(30));
    }
    Ok(Factor::Time(whole(period, 4_294_967_295, Field::Period)? as u32))
}

// The error of a field that is no time: `Empty`, `TooShort` (without a zone) or `Character`.
fn no_time(text: &str, field: Field) -> ContentError
    ensures { result ≡ Refused field (time_cause text.now) }
{
    let cause = if text.is_empty() {
        Cause::Empty
    } else if is_local(text) {
        Cause::TooShort
    } else {
        Cause::Character
    };
    ContentError::Refused(field, cause)
}

/// Reads the time when an event was written; `None` if `text` is empty.
pub(crate) fn stamp(text: &str) -> ContentResult<Option<Moment>>
    ensures value { result ≡ stamp_in text.now }
{
    if text.is_empty() {
        return Ok(None);
    }
    match moment_said(text) {
        Some(moment) => Ok(Some(moment)),
        None => Err(no_time(text, Field::Stamp)),
    }
}

// The whole days from `first` until the day before `end`.
fn days(first: Day, end: &str) -> ContentResult<Span>
    ensures value { result ≡ day_span_in first end.now }
{
    match day_said(end) {
        Some(last) => Ok(Span::Days(first, last)),
        None => Err(no_time(end, Field::End)),
    }
}

// The time from `begin` to `end`.
fn times(begin: &str, end: &str) -> ContentResult<Span>
    ensures value { result ≡ time_span_in begin.now end.now }
{
    match (moment_said(begin), moment_said(end)) {
        (Some(first), Some(last)) => Ok(Span::Times(first, last)),
        (Some(_), None) => Err(no_time(end, Field::End)),
        (None, _) => Err(no_time(begin, Field::Begin)),
    }
}

/// Reads the beginning and end of an event: both are days, or both are times.
pub(crate) fn span(begin: &str, end: &str) -> ContentResult<Span>
    ensures value { result ≡ span_in begin.now end.now }
{
    match day_said(begin) {
        Some(first) => days(first, end),
        None => times(begin, end),
    }
}
