//! Contacts as vCard 3.0.

ghost use Rattle.std.specs.Prelude.{◌≡◌, ◌++◌, Some, IfOk, OnOk, IsOkUnless, string_bytes};
ghost use Rattle.qrcode_contents.specs.declared.fields.errors.ContentError.TheVariants.{OutOfMemory};
ghost use Rattle.qrcode_contents.specs.Card.{card_of, first_refused, numbers_refused, last_refused, card_refusal, name_lines, card_text, read_card};
ghost use Rattle.qrcode_contents.specs.fields.ContentLines.{content_text};
ghost use Rattle.qrcode_contents.specs.fields.Refusals.{Answers, checked};

use crate::contact::Contact;
use crate::fields::content_lines::{push_content, push_texts, push_value};
use crate::fields::errors::{Cause, ContentResult, Field};
use crate::fields::refusals::{controls, other_controls, refuse_first};
use crate::phone::no_number;
use crate::times::{date_or_none, is_wrong_day};
use std::alloc::Global;

/// A contact with more fields than a MECARD has. `name` and `contact.family` are required; other
/// empty fields are left out. Texts may have tabs and line feeds, the web address may not.
#[derive(Copy, Clone, PartialEq, Eq, Debug)]
pub struct Card<'a> {
    /// The fields that a MECARD has too.
    pub contact: Contact<'a>,
    /// The displayed name.
    pub name: &'a str,
    /// The organisation.
    pub organisation: &'a str,
    /// The job title.
    pub title: &'a str,
    /// The number of a mobile phone.
    pub mobile: &'a str,
    /// The telephone number at work.
    pub work_phone: &'a str,
    /// The telephone number at home.
    pub home_phone: &'a str,
    /// The nickname.
    pub nickname: &'a str,
    /// The fax number.
    pub fax: &'a str,
}

impl Card<'_> {
    // Rejects missing names, and control characters in the first texts.
    #[tactic(auto, unfolding(crate::specs::Card::first_refused))]
    fn check_first(&self) -> ContentResult<()>
        ensures { result ≡ checked (first_refused (card_of self.now)) }
    {
        refuse_first(&[
            (self.name.is_empty(), Field::Name, Cause::Empty),
            (self.contact.family.is_empty(), Field::Family, Cause::Empty),
            other_controls(Field::Name, self.name),
            other_controls(Field::Family, self.contact.family),
            other_controls(Field::Given, self.contact.given),
            other_controls(Field::Organisation, self.organisation),
            other_controls(Field::Title, self.title),
            other_controls(Field::Nickname, self.nickname),
        ])
    }

    // Rejects a wrong telephone number.
    #[tactic(auto, unfolding(crate::specs::Card::numbers_refused))]
    fn check_numbers(&self) -> ContentResult<()>
        ensures { result ≡ checked (numbers_refused (card_of self.now)) }
    {
        refuse_first(&[
            no_number(Field::Phone, self.contact.phone),
            no_number(Field::Mobile, self.mobile),
            no_number(Field::WorkPhone, self.work_phone),
            no_number(Field::HomePhone, self.home_phone),
            no_number(Field::Fax, self.fax),
        ])
    }

    // Rejects control characters in the other texts, and a birthday that does not exist.
    #[tactic(auto, unfolding(crate::specs::Card::last_refused))]
    fn check_last(&self) -> ContentResult<()>
        ensures { result ≡ checked (last_refused (card_of self.now)) }
    {
        refuse_first(&[
            controls(Field::Url, self.contact.url),
            (
                is_wrong_day(self.contact.birthday),
                Field::Birthday,
                Cause::Range,
            ),
            other_controls(Field::Email, self.contact.email),
            other_controls(Field::Note, self.contact.note),
            other_controls(Field::Street, self.contact.street),
            other_controls(Field::City, self.contact.city),
            other_controls(Field::Region, self.contact.region),
            other_controls(Field::PostalCode, self.contact.code),
            other_controls(Field::Country, self.contact.country),
        ])
    }

    // Fails on the first wrong field.
    fn check(&self) -> ContentResult<()>
        ensures { result ≡ checked (card_refusal (card_of self.now)) }
    {
        self.check_first()?;
        self.check_numbers()?;
        self.check_last()
    }

    // Appends the lines from `N` to `EMAIL`.
    fn push_names(&self, alloc: Global, text: &mut String) -> ContentResult<()>
        ensures appends { OnOk result (string_bytes text.new
            ≡ string_bytes text.old ++ content_text (name_lines (card_of self.now))) }
        ensures memory { IsOkUnless result OutOfMemory }
    {
        let name = [self.contact.family, self.contact.given, "", "", ""];
        push_content(alloc, text, "N", &name)?;
        let texts = [
            ("FN", self.name),
            ("NICKNAME", self.nickname),
            ("ORG", self.organisation),
            ("TITLE", self.title),
            ("TEL", self.contact.phone),
            ("TEL;TYPE=CELL", self.mobile),
            ("TEL;TYPE=WORK", self.work_phone),
            ("TEL;TYPE=HOME", self.home_phone),
            ("TEL;TYPE=FAX", self.fax),
            ("EMAIL", self.contact.email),
        ];
        push_texts(alloc, text, &texts)
    }

    // Writes the text without checking the fields.
    fn written(&self, alloc: Global) -> ContentResult<String>
        ensures value { IfOk result (λ text. string_bytes text ≡ card_text (card_of self.now)) }
        ensures memory { IsOkUnless result OutOfMemory }
    {
        let birthday = date_or_none(alloc, self.contact.birthday)?;
        let mut text = String::from_str(alloc, "BEGIN:VCARD\r\nVERSION:3.0\r\n")?;
        self.push_names(alloc, &mut text)?;
        push_value(alloc, &mut text, "URL", self.contact.url)?;
        let address = [
            "",
            "",
            self.contact.street,
            self.contact.city,
            self.contact.region,
            self.contact.code,
            self.contact.country,
        ];
        push_content(alloc, &mut text, "ADR", &address)?;
        push_content(alloc, &mut text, "BDAY", &[birthday.as_str()])?;
        push_content(alloc, &mut text, "NOTE", &[self.contact.note])?;
        text.push_str("END:VCARD\r\n")?;
        Ok(text)
    }

    /// Returns the contact as a vCard of version 3.0.
    ///
    /// Errors: `Refused` names the first wrong field and why; `OutOfMemory` if memory runs out.
    pub fn text(&self, alloc: Global) -> ContentResult<String>
        ensures reads { Answers (card_refusal (card_of self.now)) result
            (λ text. read_card text ≡ Some (card_of self.now)) }
        ensures value { IfOk result (λ text. string_bytes text ≡ card_text (card_of self.now)) }
    {
        self.check()?;
        self.written(alloc)
    }
}
