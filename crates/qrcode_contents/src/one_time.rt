//! Links that set up one-time passwords, `otpauth://..`.

ghost use Rattle.std.specs.Prelude.{◌≡◌, ◌++◌, ◌∷◌, [], codes, Some, IfOk, OnOk, IsOkUnless, string_bytes};
ghost use Rattle.std.specs.List.{list_any};
ghost use Rattle.qrcode_contents.specs.declared.fields.errors.ContentError.TheVariants.{OutOfMemory};
ghost use Rattle.qrcode_contents.specs.OneTime.{key_of, is_colon, has_no_period, key_refusal, factor_name, factor_parameter, algorithm_value, digits_text, label_text, key_text, read_key, is_a_word};
ghost use Rattle.qrcode_contents.specs.fields.Links.{query_text};
ghost use Rattle.qrcode_contents.specs.fields.Refusals.{Answers, checked};

use crate::fields::characters::is_in_base32;
use crate::fields::errors::{Cause, ContentResult, Field};
use crate::fields::links::{self, LinkPart, push_part};
use crate::fields::refusals::{controls, refuse_first};
use std::alloc::Global;

/// What makes the passwords change: the time, or a counter.
#[derive(Copy, Clone, PartialEq, Eq, Debug)]
pub enum Factor {
    /// The time (TOTP, RFC 6238); each password is valid for this many seconds, at least one.
    Time(u32),
    /// A counter (HOTP, RFC 4226), with its first value.
    Counter(u64),
}

impl Factor {
    // The link up to its label.
    fn start(self) -> &'static str
        ensures { result.now ≡ codes "otpauth://" ++ (factor_name self ++ codes "/") }
    {
        match self {
            Factor::Time(_) => "otpauth://totp/",
            Factor::Counter(_) => "otpauth://hotp/",
        }
    }

    // Whether the period is 0 seconds.
    fn has_no_period(self) -> bool
        ensures { result ≡ has_no_period self }
    {
        matches!(self, Factor::Time(0))
    }

    // The key of the parameter for it.
    fn key(self) -> &'static str
        ensures { result.now ≡ (factor_parameter self).0 }
    {
        match self {
            Factor::Time(_) => "period",
            Factor::Counter(_) => "counter",
        }
    }

    // The value of that parameter; empty for 30 seconds, the default.
    fn value(self, alloc: Global) -> ContentResult<String>
        ensures value { IfOk result (λ text. string_bytes text ≡ (factor_parameter self).1) }
        ensures fits { OnOk result (is_a_word self) }
        ensures memory { IsOkUnless result OutOfMemory }
    {
        match self {
            Factor::Time(30) => Ok(String::new(alloc)),
            Factor::Time(period) => Ok(format!(in alloc; "{period}")?),
            Factor::Counter(count) => Ok(format!(in alloc; "{count}")?),
        }
    }
}

/// The hash function of the passwords.
#[derive(Copy, Clone, PartialEq, Eq, Debug)]
pub enum Algorithm {
    /// SHA1, which most apps take for granted.
    Sha1,
    /// SHA256.
    Sha256,
    /// SHA512.
    Sha512,
}

impl Algorithm {
    // The value in the link; empty for SHA1, the default.
    fn value(self) -> &'static str
        ensures { result.now ≡ algorithm_value self }
    {
        match self {
            Algorithm::Sha1 => "",
            Algorithm::Sha256 => "SHA256",
            Algorithm::Sha512 => "SHA512",
        }
    }
}

/// The number of digits of a password.
#[derive(Copy, Clone, PartialEq, Eq, Debug)]
pub enum Digits {
    /// Six.
    Six,
    /// Eight.
    Eight,
}

impl Digits {
    // The value in the link; empty for six, the default.
    fn value(self) -> &'static str
        ensures { result.now ≡ digits_text self }
    {
        match self {
            Digits::Six => "",
            Digits::Eight => "8",
        }
    }
}

/// One-time passwords of an account.
#[derive(Copy, Clone, PartialEq, Eq, Debug)]
pub struct OneTime<'a> {
    /// What makes the passwords change.
    pub factor: Factor,
    /// The issuer, without a colon; may be empty.
    pub issuer: &'a str,
    /// The account, without a colon, and without a space at the start.
    pub account: &'a str,
    /// The secret in base 32, without `=` at the end.
    pub secret: &'a str,
    /// The hash function.
    pub algorithm: Algorithm,
    /// The number of digits of a password.
    pub digits: Digits,
}

fn has_colon(text: &str) -> bool
    ensures { result ≡ list_any is_colon text.now }
{
    let bytes = text.as_bytes();
    bytes.iter().any(|byte| *byte == b':')
}

// Appends the parameters, without those whose value is empty.
fn push_parameters<'a>(
    text: &mut String,
    secret: &'a str,
    issuer: &'a str,
    algorithm: Algorithm,
    digits: Digits,
    factor: Factor,
    number: &'a str,
) -> ContentResult<()>
    ensures appends { OnOk result (string_bytes text.new ≡ string_bytes text.old
        ++ query_text (codes "?") ((codes "secret", secret.now) ∷ (codes "issuer", issuer.now)
        ∷ (codes "algorithm", algorithm_value algorithm) ∷ (codes "digits", digits_text digits)
        ∷ ((factor_parameter factor).0, number.now) ∷ [])) }
    ensures memory { IsOkUnless result OutOfMemory }
{
    let parameters = [
        ("secret", secret),
        ("issuer", issuer),
        ("algorithm", algorithm.value()),
        ("digits", digits.value()),
        (factor.key(), number),
    ];
    links::push_parameters(text, false, &parameters)
}

impl OneTime<'_> {
    // Fails on the first wrong field.
    #[tactic(auto, unfolding(crate::specs::OneTime::key_refusal))]
    fn check(&self) -> ContentResult<()>
        ensures { result ≡ checked (key_refusal (key_of self.now)) }
    {
        let wrong = has_colon(self.account) || self.account.as_bytes().starts_with(b" ");
        let wrong_secret = !is_in_base32(self.secret);
        refuse_first(&[
            controls(Field::Issuer, self.issuer),
            (has_colon(self.issuer), Field::Issuer, Cause::Character),
            (self.account.is_empty(), Field::Account, Cause::Empty),
            controls(Field::Account, self.account),
            (wrong, Field::Account, Cause::Character),
            (self.secret.is_empty(), Field::Secret, Cause::Empty),
            (wrong_secret, Field::Secret, Cause::Character),
            (self.factor.has_no_period(), Field::Period, Cause::Range),
        ])
    }

    // Appends the label: the issuer and a colon, if there is one, and the account.
    fn push_label(&self, text: &mut String) -> ContentResult<()>
        ensures appends { OnOk result (string_bytes text.new
            ≡ string_bytes text.old ++ label_text (key_of self.now)) }
        ensures memory { IsOkUnless result OutOfMemory }
    {
        if !self.issuer.is_empty() {
            push_part(text, LinkPart::Path, self.issuer)?;
            text.push_str(":")?;
        }
        push_part(text, LinkPart::Path, self.account)
    }

    // Writes the link without checking the fields.
    fn written(&self, alloc: Global) -> ContentResult<String>
        ensures value { IfOk result (λ text. string_bytes text ≡ key_text (key_of self.now)) }
        ensures fits { OnOk result (is_a_word self.now.factor) }
        ensures memory { IsOkUnless result OutOfMemory }
    {
        let number = self.factor.value(alloc)?;
        let mut text = String::from_str(alloc, self.factor.start())?;
        self.push_label(&mut text)?;
        push_parameters(
            &mut text,
            self.secret,
            self.issuer,
            self.algorithm,
            self.digits,
            self.factor,
            number.as_str(),
        )?;
        Ok(text)
    }

    /// Returns the link that sets up the passwords.
    ///
    /// Errors: `Refused` names the first wrong field and why; `OutOfMemory` if memory runs out.
    pub fn text(&self, alloc: Global) -> ContentResult<String>
        ensures reads { Answers (key_refusal (key_of self.now)) result
            (λ text. read_key text ≡ Some (key_of self.now)) }
        ensures value { IfOk result (λ text. string_bytes text ≡ key_text (key_of self.now)) }
    {
        self.check()?;
        self.written(alloc)
    }
}
