//! Contacts as MECARD.

ghost use Rattle.std.specs.Prelude.{◌≡◌, Some, IfOk, IsOkUnless, string_bytes};
ghost use Rattle.qrcode_contents.specs.declared.fields.errors.ContentError.TheVariants.{OutOfMemory};
ghost use Rattle.qrcode_contents.specs.Contact.{contact_of, contact_controls, contact_checks, contact_refusal, mecard_text, read_mecard};
ghost use Rattle.qrcode_contents.specs.fields.Refusals.{Answers, checked};

use crate::fields::entries::{push_entry, push_texts};
use crate::fields::errors::{Cause, ContentResult, Field};
use crate::fields::refusals::{controls, refuse_first};
use crate::phone::no_number;
use crate::times::{Day, day_or_none, is_wrong_day};
use std::alloc::Global;

/// A contact. `family` is required; other empty fields are left out.
#[derive(Copy, Clone, PartialEq, Eq, Debug)]
pub struct Contact<'a> {
    /// The family name, or the only name.
    pub family: &'a str,
    /// The given names.
    pub given: &'a str,
    /// A telephone number.
    pub phone: &'a str,
    /// An e-mail address.
    pub email: &'a str,
    /// A web address.
    pub url: &'a str,
    /// The birthday.
    pub birthday: Option<Day>,
    /// A note.
    pub note: &'a str,
    /// The street with the house number.
    pub street: &'a str,
    /// The town.
    pub city: &'a str,
    /// The region.
    pub region: &'a str,
    /// The postal code.
    pub code: &'a str,
    /// The country.
    pub country: &'a str,
}

impl Contact<'_> {
    // Rejects line breaks and other control characters.
    #[tactic(auto, unfolding(crate::specs::Contact::contact_controls))]
    fn check_controls(&self) -> ContentResult<()>
        ensures { result ≡ checked (contact_controls (contact_of self.now)) }
    {
        refuse_first(&[
            controls(Field::Family, self.family),
            controls(Field::Given, self.given),
            controls(Field::Email, self.email),
            controls(Field::Url, self.url),
            controls(Field::Note, self.note),
            controls(Field::Street, self.street),
            controls(Field::City, self.city),
            controls(Field::Region, self.region),
            controls(Field::PostalCode, self.code),
            controls(Field::Country, self.country),
        ])
    }

    // Rejects an empty family name, a birthday that does not exist, and a wrong telephone number.
    #[tactic(auto, unfolding(crate::specs::Contact::contact_checks))]
    fn check_forms(&self) -> ContentResult<()>
        ensures { result ≡ checked (contact_checks (contact_of self.now)) }
    {
        refuse_first(&[
            (self.family.is_empty(), Field::Family, Cause::Empty),
            (is_wrong_day(self.birthday), Field::Birthday, Cause::Range),
            no_number(Field::Phone, self.phone),
        ])
    }

    // Fails on the first wrong field.
    fn check(&self) -> ContentResult<()>
        ensures { result ≡ checked (contact_refusal (contact_of self.now)) }
    {
        self.check_controls()?;
        self.check_forms()
    }

    // Writes the text without checking the fields.
    fn written(&self, alloc: Global) -> ContentResult<String>
        ensures value { IfOk result (λ text. string_bytes text ≡ mecard_text (contact_of self.now)) }
        ensures memory { IsOkUnless result OutOfMemory }
    {
        let birthday = day_or_none(alloc, self.birthday)?;
        let mut text = String::from_str(alloc, "MECARD:")?;
        let name = [self.family, self.given];
        push_entry(&mut text, "N", &name)?;
        let texts = [
            ("TEL", self.phone),
            ("EMAIL", self.email),
            ("URL", self.url),
        ];
        push_texts(&mut text, &texts)?;
        push_entry(&mut text, "BDAY", &[birthday.as_str()])?;
        push_entry(&mut text, "NOTE", &[self.note])?;
        let address = [
            "",
            "",
            self.street,
            self.city,
            self.region,
            self.code,
            self.country,
        ];
        push_entry(&mut text, "ADR", &address)?;
        text.push_str(";")?;
        Ok(text)
    }

    /// Returns the contact as MECARD.
    ///
    /// Errors: `Refused` names the first wrong field and why; `OutOfMemory` if memory runs out.
    pub fn mecard(&self, alloc: Global) -> ContentResult<String>
        ensures reads { Answers (contact_refusal (contact_of self.now)) result
            (λ text. read_mecard text ≡ Some (contact_of self.now)) }
        ensures value { IfOk result (λ text. string_bytes text ≡ mecard_text (contact_of self.now)) }
    {
        self.check()?;
        self.written(alloc)
    }
}
