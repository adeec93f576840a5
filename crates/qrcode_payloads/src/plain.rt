//! Removes spaces, hyphens and the like, which people write between the characters of a value.

ghost use Rattle.std.specs.Prelude.{◌≡◌, IfOk, string_bytes};
ghost use Rattle.std.specs.List.{list_all, list_any};
ghost use Rattle.qrcode_payloads.specs.Plain.{is_removed, as_written, kept, plain, is_code, is_country, dials_zero, with_zero, without_zero, phone_number, phone_digits, is_key_number, is_local, pix_key, is_byte, without_padding};

use qrcode_contents::fields::characters::{
    are_capitals_or_digits, are_digits, matches_form, parts,
};
use qrcode_contents::phone::is_number;
use std::alloc::{AllocError, Global};

/// Which characters to remove from a value.
#[derive(Clone, Copy)]
pub(crate) enum Cleaning {
    /// Spaces, in account numbers, references, codes and telephone numbers.
    Spaces,
    /// Hyphens, points and brackets, in telephone numbers and days that formats write in digits
    /// alone.
    Digits,
    /// Nothing, in amounts whose groups are not yet checked.
    Amount,
    /// Spaces and apostrophes, between the groups of an amount.
    Groups,
    /// Nothing, in degrees: the 30 of `1 30` may be minutes.
    Degrees,
    /// Spaces and hyphens, in secrets and numbers for PromptPay.
    Person,
    /// Nothing, in days and times.
    Time,
    /// Colons, in times of day.
    Clock,
    /// Hyphens, points, brackets and slashes, in Pix keys that are numbers.
    Key,
    /// Nothing, in other Pix keys.
    Address,
}

impl Cleaning {
    // Whether to remove a character. `Spaces` and `Person` also remove no-break spaces.
    fn is_removed(self, character: char) -> bool
        ensures { result ≡ is_removed self character }
    {
        match (self, character) {
            (Cleaning::Amount | Cleaning::Degrees | Cleaning::Time | Cleaning::Address, _) => false,
            (Cleaning::Key, _) => matches!(character, '-' | '.' | '(' | ')' | '/'),
            (Cleaning::Groups, _) => matches!(character, ' ' | '\''),
            (Cleaning::Digits, _) => matches!(character, '-' | '.' | '(' | ')'),
            (Cleaning::Clock, _) => character == ':',
            (_, ' ' | '\u{a0}' | '\u{202f}') => true,
            (Cleaning::Person, '-') => true,
            _ => false,
        }
    }

    // A character as formats write it: a capital; in numbers a point for a comma; in amounts a
    // plain space or apostrophe; between day and time a T for a space; in addresses a small letter.
    fn as_written(self, character: char) -> char
        ensures { result ≡ as_written self character }
    {
        match (self, character) {
            (Cleaning::Amount | Cleaning::Degrees, ',') => '.',
            (Cleaning::Amount, '\u{a0}' | '\u{202f}') => ' ',
            (Cleaning::Amount, '\u{2019}') => '\'',
            (Cleaning::Time, ' ') => 'T',
            (Cleaning::Address, _) => character.to_ascii_lowercase(),
            _ => character.to_ascii_uppercase(),
        }
    }

    // A character as formats write it; `None` if it is removed.
    fn kept(self, character: char) -> Option<char>
        ensures { result ≡ kept self character }
    {
        if self.is_removed(character) {
            return None;
        }
        Some(self.as_written(character))
    }
}

/// Returns `text` without the characters that `cleaning` removes, the others as formats write them:
/// capitals, a decimal point.
pub(crate) fn plain(alloc: Global, text: &str, cleaning: Cleaning) -> Result<String, AllocError>
    ensures { IfOk result (λ value. string_bytes value ≡ plain cleaning text.now) }
{
    text.chars()
        .filter_map(|character| cleaning.kept(character))
        .collect(alloc)
}

// Whether bytes are a country code: one to three digits after `+` or `00`.
#[tactic(auto, unfolding(crate::specs::Plain::is_code))]
fn is_code(bytes: &[u8]) -> bool
    ensures { result ≡ is_code bytes.now }
{
    matches_form(b"+d", bytes)
        || matches_form(b"+dd", bytes)
        || matches_form(b"+ddd", bytes)
        || matches_form(b"00d", bytes)
        || matches_form(b"00dd", bytes)
        || matches_form(b"00ddd", bytes)
}

// Whether a text is such a country code, perhaps with a hyphen after it.
#[tactic(auto, unfolding(crate::specs::Plain::is_country))]
fn is_country(text: &str) -> bool
    ensures { result ≡ is_country text.now }
{
    let (code, rest) = parts(text, '-');
    is_code(code.as_bytes()) && rest.is_empty()
}

// Whether bytes are the country code of Italy, San Marino or the Vatican, where a 0 at the start of
// a number is dialled from abroad too.
#[tactic(auto, unfolding(crate::specs::Plain::dials_zero))]
fn dials_zero(bytes: &[u8]) -> bool
    ensures { result ≡ dials_zero bytes.now }
{
    matches_form(b"+39", bytes)
        || matches_form(b"+378", bytes)
        || matches_form(b"+379", bytes)
        || matches_form(b"0039", bytes)
        || matches_form(b"00378", bytes)
        || matches_form(b"00379", bytes)
}

// The country code, and the 0 of a `(0)` after it if that is dialled.
#[tactic(auto, unfolding(crate::specs::Plain::with_zero))]
fn with_zero(alloc: Global, country: &str) -> Result<String, AllocError>
    ensures { IfOk result (λ value. string_bytes value ≡ with_zero country.now) }
{
    let mut dialled = String::from_str(alloc, country)?;
    if dials_zero(parts(country, '-').0.as_bytes()) {
        dialled.push_str("0")?;
    }
    Ok(dialled)
}

// Removes a `(0)` right after the country code, or only its brackets where the 0 is dialled.
#[tactic(auto, unfolding(crate::specs::Plain::without_zero))]
fn without_zero(alloc: Global, number: String) -> Result<String, AllocError>
    ensures { IfOk result (λ value. string_bytes value ≡ without_zero (string_bytes number)) }
{
    let (country, inside) = parts(number.as_str(), '(');
    if !is_country(country) || !inside.as_bytes().starts_with(b"0)") {
        return Ok(number);
    }
    let mut dialled = with_zero(alloc, country)?;
    dialled.push_str(parts(inside, ')').1)?;
    Ok(dialled)
}

/// Returns a telephone number without spaces, and with what is dialled of a `(0)` after the country
/// code.
pub(crate) fn phone_number(alloc: Global, text: &str) -> Result<String, AllocError>
    ensures { IfOk result (λ value. string_bytes value ≡ phone_number text.now) }
{
    without_zero(alloc, plain(alloc, text, Cleaning::Spaces)?)
}

/// Returns a telephone number as MECARD writes it: digits, perhaps after a plus sign. What is no
/// number keeps its other characters, so that it is rejected.
pub(crate) fn phone_digits(alloc: Global, text: &str) -> Result<String, AllocError>
    ensures { IfOk result (λ value. string_bytes value ≡ phone_digits text.now) }
{
    let number = phone_number(alloc, text)?;
    if !is_number(number.as_str()) {
        return Ok(number);
    }
    plain(alloc, number.as_str(), Cleaning::Digits)
}

// Whether a text is a CPF, a CNPJ, or a telephone number with its country code, by its characters.
fn is_key_number(text: &str) -> bool
    ensures { result ≡ is_key_number text.now }
{
    let bytes = text.as_bytes();
    if bytes.starts_with(b"+") {
        return are_digits(&bytes[1..]);
    }
    matches!(bytes.len(), 11 | 14) && are_capitals_or_digits(text)
}

fn has_byte(bytes: &[u8], wanted: u8) -> bool
    ensures { result ≡ list_any (is_byte wanted) bytes.now }
{
    bytes.iter().any(|byte| *byte == wanted)
}

// Whether a text is a telephone number without its country code: with a bracket, or a hyphen before
// its last three characters. (A CPF may have the same digits.)
fn is_local(text: &str) -> bool
    ensures { result ≡ is_local text.now }
{
    let bytes = text.as_bytes();
    let start = &bytes[..bytes.len().saturating_sub(3)];
    !bytes.starts_with(b"+") && (has_byte(bytes, b'(') || has_byte(start, b'-'))
}

/// Returns a Pix key: a number without the characters between its digits, any other key in small
/// letters, without white space around it.
pub(crate) fn pix_key(alloc: Global, text: &str) -> Result<String, AllocError>
    ensures { IfOk result (λ value. string_bytes value ≡ pix_key text.now) }
{
    let spaceless = phone_number(alloc, text)?;
    let number = plain(alloc, spaceless.as_str(), Cleaning::Key)?;
    let text = text.trim();
    if is_key_number(number.as_str()) && !is_local(text) {
        return Ok(number);
    }
    plain(alloc, text, Cleaning::Address)
}

fn are_equals(bytes: &[u8]) -> bool
    ensures { result ≡ list_all (is_byte 61) bytes.now }
{
    bytes.iter().all(|byte| *byte == b'=')
}

/// Returns a secret without the equals signs at its end; unchanged if any other byte follows one.
pub(crate) fn without_padding(secret: &str) -> &str
    ensures { result.now ≡ without_padding secret.now }
{
    let (value, padding) = parts(secret, '=');
    if are_equals(padding.as_bytes()) {
        value
    } else {
        secret
    }
}
