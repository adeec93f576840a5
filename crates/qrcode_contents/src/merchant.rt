//! Merchant-presented EMVCo codes: payments by Pix (Brazil) and PromptPay (Thailand).

ghost use Rattle.std.specs.Prelude.{◌≡◌, Some, IfOk, IsOkUnless, string_bytes};
ghost use Rattle.std.specs.List.{list_all};
ghost use Rattle.qrcode_contents.specs.declared.fields.errors.ContentError.TheVariants.{OutOfMemory};
ghost use Rattle.qrcode_contents.specs.Merchant.{key_objects, account_refusal, pix_of, is_key_byte, is_printed, is_reference_byte, pix_refusal, pix_text, read_pix, receiver_refusal, reference_text, payee_objects, promptpay_of, initiation, payee_tag, payee_text, promptpay_refusal, promptpay_text, read_promptpay};
ghost use Rattle.qrcode_contents.specs.fields.Objects.{objects_text};
ghost use Rattle.qrcode_contents.specs.fields.Refusals.{Answers, checked};

use crate::bill::is_out_of_range;
use crate::fields::amounts::open_amount;
use crate::fields::characters::{are_digits, parts};
use crate::fields::errors::{Cause, ContentResult, Field};
use crate::fields::objects::{push_check, push_object};
use crate::fields::refusals::refuse_first;
use crate::pix_keys::{has_wrong_digits, is_key};
use std::alloc::Global;

/// A payment by Pix, in ASCII. `reference` and `description` may be empty.
#[derive(Copy, Clone, PartialEq, Eq, Debug)]
pub struct Pix<'a> {
    /// The payee's key, up to 77 characters: a CPF or CNPJ with its check digits, a telephone
    /// number with its country code such as +5561912345678, an e-mail address, or a random key.
    pub key: &'a str,
    /// The payee's name, up to 25 characters.
    pub name: &'a str,
    /// The payee's town, up to 15 characters.
    pub city: &'a str,
    /// The amount in centavos, 1 to 99,999,999,999; with `None` the payer enters it.
    pub cents: Option<u64>,
    /// The reference (txid), up to 25 letters and digits.
    pub reference: &'a str,
    /// A description; together with the key up to 73 characters.
    pub description: &'a str,
}

// Whether all bytes are ASCII and no control characters.
fn are_printed(text: &str) -> bool
    ensures { result ≡ list_all is_printed text.now }
{
    let bytes = text.as_bytes();
    bytes.iter().all(|byte| matches!(*byte, 32..=126))
}

// Whether all bytes may be in a key: ASCII, no space and no control character.
fn are_of_key(text: &str) -> bool
    ensures { result ≡ list_all is_key_byte text.now }
{
    let bytes = text.as_bytes();
    bytes.iter().all(|byte| matches!(*byte, 33..=126))
}

// Whether all bytes are letters and digits.
fn are_of_reference(text: &str) -> bool
    ensures { result ≡ list_all is_reference_byte text.now }
{
    let bytes = text.as_bytes();
    bytes.iter().all(|byte| matches!(*byte, b'0'..=b'9' | b'A'..=b'Z' | b'a'..=b'z'))
}

// The reference, or `***` if there is none.
fn reference_text(reference: &str) -> &str
    ensures { result.now ≡ reference_text reference.now }
{
    if reference.is_empty() {
        "***"
    } else {
        reference
    }
}

impl Pix<'_> {
    // Rejects a wrong key or description.
    #[tactic(auto, unfolding(crate::specs::Merchant::account_refusal))]
    fn check_account(&self) -> ContentResult<()>
        ensures { result ≡ checked (account_refusal (pix_of self.now)) }
    {
        let described = !self.description.is_empty();
        let long = self.description.len() > 73usize.saturating_sub(self.key.len());
        let wrong_key = !are_of_key(self.key);
        let wrong_digits = has_wrong_digits(self.key);
        let other = !is_key(self.key);
        let wrong_description = !are_printed(self.description);
        refuse_first(&[
            (self.key.is_empty(), Field::Payee, Cause::Empty),
            (wrong_key, Field::Payee, Cause::Character),
            (self.key.len() > 77, Field::Payee, Cause::TooLong),
            (wrong_digits, Field::Payee, Cause::CheckDigits),
            (other, Field::Payee, Cause::Character),
            (wrong_description, Field::Description, Cause::Character),
            (described & long, Field::Description, Cause::TooLong),
        ])
    }

    // Rejects other wrong fields.
    #[tactic(auto, unfolding(crate::specs::Merchant::receiver_refusal))]
    fn check_receiver(&self) -> ContentResult<()>
        ensures { result ≡ checked (receiver_refusal (pix_of self.now)) }
    {
        let wrong_name = !are_printed(self.name);
        let wrong_city = !are_printed(self.city);
        let wrong_reference = !are_of_reference(self.reference);
        let outside = is_out_of_range(self.cents);
        refuse_first(&[
            (self.name.is_empty(), Field::Name, Cause::Empty),
            (wrong_name, Field::Name, Cause::Character),
            (self.name.len() > 25, Field::Name, Cause::TooLong),
            (self.city.is_empty(), Field::City, Cause::Empty),
            (wrong_city, Field::City, Cause::Character),
            (self.city.len() > 15, Field::City, Cause::TooLong),
            (wrong_reference, Field::Reference, Cause::Character),
            (self.reference.len() > 25, Field::Reference, Cause::TooLong),
            (outside, Field::Amount, Cause::Range),
        ])
    }

    // Fails on the first wrong field.
    #[tactic(auto, unfolding(crate::specs::Merchant::pix_refusal))]
    fn check(&self) -> ContentResult<()>
        ensures { result ≡ checked (pix_refusal (pix_of self.now)) }
    {
        self.check_account()?;
        self.check_receiver()
    }

    // The objects inside the account object (26).
    #[tactic(auto, unfolding(crate::specs::fields::Objects::objects_text))]
    fn key_objects(&self, alloc: Global) -> ContentResult<String>
        ensures value { IfOk result (λ text. string_bytes text
            ≡ objects_text (key_objects (pix_of self.now))) }
        ensures memory { IsOkUnless result OutOfMemory }
    {
        let mut text = String::new(alloc);
        push_object(&mut text, "00", "br.gov.bcb.pix")?;
        push_object(&mut text, "01", self.key)?;
        push_object(&mut text, "02", self.description)?;
        Ok(text)
    }

    // Writes the text without checking the fields.
    #[tactic(auto, unfolding(crate::specs::fields::Objects::objects_text))]
    fn written(&self, alloc: Global) -> ContentResult<String>
        ensures value { IfOk result (λ text. string_bytes text ≡ pix_text (pix_of self.now)) }
        ensures memory { IsOkUnless result OutOfMemory }
    {
        let account = self.key_objects(alloc)?;
        let amount = open_amount(alloc, self.cents)?;
        let mut more = String::new(alloc);
        push_object(&mut more, "05", reference_text(self.reference))?;
        let mut text = String::new(alloc);
        push_object(&mut text, "00", "01")?;
        push_object(&mut text, "26", account.as_str())?;
        push_object(&mut text, "52", "0000")?;
        push_object(&mut text, "53", "986")?;
        push_object(&mut text, "54", amount.as_str())?;
        push_object(&mut text, "58", "BR")?;
        push_object(&mut text, "59", self.name)?;
        push_object(&mut text, "60", self.city)?;
        push_object(&mut text, "62", more.as_str())?;
        push_check(&mut text)?;
        Ok(text)
    }

    /// Returns the text that asks for the payment.
    ///
    /// Errors: `Refused` names the first wrong field and why; `OutOfMemory` if memory runs out.
    pub fn text(&self, alloc: Global) -> ContentResult<String>
        ensures reads { Answers (pix_refusal (pix_of self.now)) result
            (λ text. read_pix text ≡ Some (pix_of self.now)) }
        ensures value { IfOk result (λ text. string_bytes text ≡ pix_text (pix_of self.now)) }
    {
        self.check()?;
        self.written(alloc)
    }
}

/// A payment by PromptPay.
#[derive(Copy, Clone, PartialEq, Eq, Debug)]
pub struct PromptPay<'a> {
    /// The payee: a telephone number of ten digits, which starts with 0, a national or tax ID of
    /// thirteen, or an e-wallet of fifteen.
    pub payee: &'a str,
    /// The amount in satang, 1 to 99,999,999,999; with `None` the payer enters it.
    pub cents: Option<u64>,
}

// The tag of the payee's object.
fn payee_tag(payee: &str) -> &'static str
    ensures { result.now ≡ payee_tag payee.now }
{
    match payee.len() {
        10 => "01",
        13 => "02",
        _ => "03",
    }
}

// The value of the payee's object: in a telephone number `0066` replaces the first 0.
fn payee_text(alloc: Global, payee: &str) -> ContentResult<String>
    ensures value { IfOk result (λ text. string_bytes text ≡ payee_text payee.now) }
    ensures memory { IsOkUnless result OutOfMemory }
{
    if payee.len() != 10 {
        return Ok(String::from_str(alloc, payee)?);
    }
    let mut text = String::from_str(alloc, "0066")?;
    text.push_str(parts(payee, '0').1)?;
    Ok(text)
}

// The point of initiation: static (`11`) if the amount is open, else dynamic (`12`).
fn initiation(cents: Option<u64>) -> &'static str
    ensures { result.now ≡ initiation cents }
{
    match cents {
        None => "11",
        Some(_) => "12",
    }
}

// The objects inside the account object (29).
#[tactic(auto, unfolding(crate::specs::fields::Objects::objects_text))]
fn payee_objects(alloc: Global, payee: &str) -> ContentResult<String>
    ensures value { IfOk result (λ text. string_bytes text
        ≡ objects_text (payee_objects payee.now)) }
    ensures memory { IsOkUnless result OutOfMemory }
{
    let value = payee_text(alloc, payee)?;
    let mut text = String::new(alloc);
    push_object(&mut text, "00", "A000000677010111")?;
    push_object(&mut text, payee_tag(payee), value.as_str())?;
    Ok(text)
}

impl PromptPay<'_> {
    // Fails on the first wrong field.
    #[tactic(auto, unfolding(crate::specs::Merchant::promptpay_refusal))]
    fn check(&self) -> ContentResult<()>
        ensures { result ≡ checked (promptpay_refusal (promptpay_of self.now)) }
    {
        let payee = self.payee;
        let phone = payee.len() == 10;
        let other = !matches!(payee.len(), 10 | 13 | 15);
        let odd = phone & !payee.as_bytes().starts_with(b"0");
        let outside = is_out_of_range(self.cents);
        let foreign = (payee.len() == 13) & payee.as_bytes().starts_with(b"0066");
        refuse_first(&[
            (payee.is_empty(), Field::Payee, Cause::Empty),
            (
                !are_digits(payee.as_bytes()),
                Field::Payee,
                Cause::Character,
            ),
            (payee.len() > 15, Field::Payee, Cause::TooLong),
            (other, Field::Payee, Cause::TooShort),
            (odd, Field::Payee, Cause::Character),
            (outside, Field::Amount, Cause::Range),
            (foreign, Field::Payee, Cause::Character),
        ])
    }

    // Writes the text without checking the fields.
    #[tactic(auto, unfolding(crate::specs::fields::Objects::objects_text))]
    fn written(&self, alloc: Global) -> ContentResult<String>
        ensures value { IfOk result (λ text. string_bytes text
            ≡ promptpay_text (promptpay_of self.now)) }
        ensures memory { IsOkUnless result OutOfMemory }
    {
        let account = payee_objects(alloc, self.payee)?;
        let amount = open_amount(alloc, self.cents)?;
        let mut text = String::new(alloc);
        push_object(&mut text, "00", "01")?;
        push_object(&mut text, "01", initiation(self.cents))?;
        push_object(&mut text, "29", account.as_str())?;
        push_object(&mut text, "58", "TH")?;
        push_object(&mut text, "53", "764")?;
        push_object(&mut text, "54", amount.as_str())?;
        push_check(&mut text)?;
        Ok(text)
    }

    /// Returns the text that asks for the payment.
    ///
    /// Errors: `Refused` names the first wrong field and why; `OutOfMemory` if memory runs out.
    pub fn text(&self, alloc: Global) -> ContentResult<String>
        ensures reads { Answers (promptpay_refusal (promptpay_of self.now)) result
            (λ text. read_promptpay text ≡ Some (promptpay_of self.now)) }
        ensures value { IfOk result (λ text. string_bytes text
            ≡ promptpay_text (promptpay_of self.now)) }
    {
        self.check()?;
        self.written(alloc)
    }
}
