//! Links that open a new e-mail.

ghost use Rattle.std.specs.Prelude.{◌≡◌, Some, IfOk, IsOkUnless, string_bytes};
ghost use Rattle.qrcode_contents.specs.declared.fields.errors.ContentError.TheVariants.{OutOfMemory};
ghost use Rattle.qrcode_contents.specs.Mail.{are_none, mail_fields, mail_refusal, mail_text, read_mail};
ghost use Rattle.qrcode_contents.specs.fields.Refusals.{Answers, checked};

use crate::fields::characters::are_addresses;
use crate::fields::errors::{Cause, ContentResult, Field};
use crate::fields::links::{LinkPart, push_parameters, push_part};
use crate::fields::refusals::{controls, other_controls, refuse_first};
use std::alloc::Global;

/// An e-mail to be written. Only `address` must be given. Commas separate several addresses.
#[derive(Copy, Clone, PartialEq, Eq, Debug)]
pub struct Mail<'a> {
    /// The recipients' addresses, each with one `@`.
    pub address: &'a str,
    /// The addresses that get a copy.
    pub cc: &'a str,
    /// The addresses that get a copy, unseen by the others.
    pub bcc: &'a str,
    /// The subject.
    pub subject: &'a str,
    /// The text; a line feed separates lines.
    pub body: &'a str,
}

// Whether a text is given, but is no addresses.
fn are_none(text: &str) -> bool
    ensures { result ≡ are_none text.now }
{
    !text.is_empty() && !are_addresses(text)
}

impl Mail<'_> {
    // Fails on the first wrong field.
    #[tactic(auto, unfolding(crate::specs::Mail::mail_refusal))]
    fn check(&self) -> ContentResult<()>
        ensures { result ≡ checked (mail_refusal (mail_fields self.now)) }
    {
        refuse_first(&[
            (self.address.is_empty(), Field::Email, Cause::Empty),
            controls(Field::Email, self.address),
            (!are_addresses(self.address), Field::Email, Cause::Character),
            controls(Field::Cc, self.cc),
            (are_none(self.cc), Field::Cc, Cause::Character),
            controls(Field::Bcc, self.bcc),
            (are_none(self.bcc), Field::Bcc, Cause::Character),
            controls(Field::Subject, self.subject),
            other_controls(Field::Message, self.body),
        ])
    }

    // Writes the link without checking the fields.
    fn written(&self, alloc: Global) -> ContentResult<String>
        ensures value { IfOk result (λ text. string_bytes text ≡ mail_text (mail_fields self.now)) }
        ensures memory { IsOkUnless result OutOfMemory }
    {
        let mut text = String::from_str(alloc, "mailto:")?;
        push_part(&mut text, LinkPart::Addresses, self.address)?;
        let query = [
            ("cc", self.cc),
            ("bcc", self.bcc),
            ("subject", self.subject),
            ("body", self.body),
        ];
        push_parameters(&mut text, false, &query)?;
        Ok(text)
    }

    /// Returns the link that opens the e-mail, `mailto:..`.
    ///
    /// Errors: `Refused` names the first wrong field and why; `OutOfMemory` if memory runs out.
    pub fn text(&self, alloc: Global) -> ContentResult<String>
        ensures reads { Answers (mail_refusal (mail_fields self.now)) result
            (λ text. read_mail text ≡ Some (mail_fields self.now)) }
        ensures value { IfOk result (λ text. string_bytes text ≡ mail_text (mail_fields self.now)) }
    {
        self.check()?;
        self.written(alloc)
    }
}
