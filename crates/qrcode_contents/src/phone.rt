//! Links that call a telephone number, or write a text message to it.

ghost use Rattle.std.specs.Prelude.{◌≡◌, ◌++◌, ◌==◌, drop, Some, IfOk, OnOk, IsOkUnless, string_bytes, codes};
ghost use Rattle.std.specs.List.{list_any};
ghost use Rattle.qrcode_types.specs.Characters.{is_digit};
ghost use Rattle.qrcode_contents.specs.declared.fields.errors.Cause.TheVariants.{Character};
ghost use Rattle.qrcode_contents.specs.declared.fields.errors.ContentError.TheVariants.{OutOfMemory};
ghost use Rattle.qrcode_contents.specs.fields.Entries.{after_start};
ghost use Rattle.qrcode_contents.specs.fields.Percents.{encoded, decoded};
ghost use Rattle.qrcode_contents.specs.Phone.{is_phone_number, is_no_number, phone_refusal, message_text, read_message};
ghost use Rattle.qrcode_contents.specs.fields.Refusals.{Answers, checked};

use crate::fields::characters::are_dialled;
use crate::fields::errors::{Cause, ContentResult, Field};
use crate::fields::percents::push_encoded;
use crate::fields::refusals::{Check, refuse_first};
use std::alloc::Global;

/// A telephone number: at least one digit, perhaps with `-`, `.`, `(` and `)`. A global number
/// starts with `+`.
#[derive(Copy, Clone, PartialEq, Eq, Debug)]
pub struct Phone<'a> {
    /// The number.
    pub number: &'a str,
}

// Writes `scheme` and `number`.
fn written(alloc: Global, scheme: &str, number: &str) -> ContentResult<String>
    ensures value { IfOk result (λ text. string_bytes text ≡ scheme.now ++ number.now) }
    ensures memory { IsOkUnless result OutOfMemory }
{
    let mut text = String::from_str(alloc, scheme)?;
    text.push_str(number)?;
    Ok(text)
}

// Writes `sms:`, `number`, `?body=` and `body`, which is percent-encoded.
fn written_message(alloc: Global, number: &str, body: &str) -> ContentResult<String>
    ensures value { IfOk result (λ text. string_bytes text ≡ message_text number.now body.now) }
    ensures reads { OnOk result (decoded (encoded body.now) ≡ body.now) }
    ensures memory { IsOkUnless result OutOfMemory }
{
    let mut text = String::from_str(alloc, "sms:")?;
    text.push_str(number)?;
    text.push_str("?body=")?;
    push_encoded(&mut text, body)?;
    Ok(text)
}

// Whether there is a plus sign after the first byte.
fn has_later_plus(number: &str) -> bool
    ensures { result ≡ list_any (λ b. b == 43) (drop 1 number.now) }
{
    number.as_bytes().iter().skip(1).any(|byte| *byte == b'+')
}

fn has_digit(number: &str) -> bool
    ensures { result ≡ list_any is_digit number.now }
{
    let bytes = number.as_bytes();
    bytes.iter().any(|byte| byte.is_ascii_digit())
}

/// Returns whether `text` is a telephone number: at least one digit, `-`, `.`, `(` and `)`, and `+`
/// only at the start.
pub fn is_number(text: &str) -> bool
    ensures value { result ≡ is_phone_number text.now }
{
    are_dialled(text) && !has_later_plus(text) && has_digit(text)
}

/// Returns the check that rejects a `text` that is neither empty nor a telephone number.
pub(crate) fn no_number(field: Field, text: &str) -> Check
    ensures { result ≡ (is_no_number text.now, field, Character) }
{
    (
        !text.is_empty() && !is_number(text),
        field,
        Cause::Character,
    )
}

impl Phone<'_> {
    // Rejects an empty or wrong number.
    #[tactic(auto, unfolding(crate::specs::Phone::phone_refusal))]
    fn check(&self) -> ContentResult<()>
        ensures { result ≡ checked (phone_refusal self.now.number.now) }
    {
        refuse_first(&[
            (self.number.is_empty(), Field::Phone, Cause::Empty),
            no_number(Field::Phone, self.number),
        ])
    }

    /// Returns the link that calls the number, `tel:..`.
    ///
    /// Errors: `Refused` names the first wrong field and why; `OutOfMemory` if memory runs out.
    pub fn tel(&self, alloc: Global) -> ContentResult<String>
        ensures reads { Answers (phone_refusal self.now.number.now) result
            (λ text. after_start (codes "tel:") text ≡ Some self.now.number.now) }
        ensures value { IfOk result (λ text. string_bytes text
            ≡ codes "tel:" ++ self.now.number.now) }
    {
        self.check()?;
        written(alloc, "tel:", self.number)
    }

    /// Returns the link that writes a text message to the number, `sms:..`.
    ///
    /// Errors: `Refused` names the first wrong field and why; `OutOfMemory` if memory runs out.
    pub fn sms(&self, alloc: Global) -> ContentResult<String>
        ensures reads { Answers (phone_refusal self.now.number.now) result
            (λ text. after_start (codes "sms:") text ≡ Some self.now.number.now) }
        ensures value { IfOk result (λ text. string_bytes text
            ≡ codes "sms:" ++ self.now.number.now) }
    {
        self.check()?;
        written(alloc, "sms:", self.number)
    }

    /// Returns the link that writes a text message to the number, and fills in `body`.
    ///
    /// Errors: `Refused` names the first wrong field and why; `OutOfMemory` if memory runs out.
    pub fn message(&self, alloc: Global, body: &str) -> ContentResult<String>
        ensures reads { Answers (phone_refusal self.now.number.now) result
            (λ text. read_message text ≡ Some (self.now.number.now, body.now)) }
        ensures value { IfOk result (λ text. string_bytes text
            ≡ message_text self.now.number.now body.now) }
    {
        self.check()?;
        written_message(alloc, self.number, body)
    }
}
