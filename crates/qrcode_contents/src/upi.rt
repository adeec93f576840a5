//! Links that ask for a payment by UPI (India).

ghost use Rattle.std.specs.Prelude.{◌≡◌, ◌++◌, ◌∷◌, [], Some, IfOk, OnOk, IsOkUnless, string_bytes, codes};
ghost use Rattle.std.specs.List.{list_all};
ghost use Rattle.qrcode_contents.specs.Bill.{amount_line};
ghost use Rattle.qrcode_contents.specs.declared.fields.errors.ContentError.TheVariants.{OutOfMemory};
ghost use Rattle.qrcode_contents.specs.Upi.{is_address, is_address_byte, is_category, read_upi, upi_of, upi_parameters, upi_refusal, upi_text};
ghost use Rattle.qrcode_contents.specs.fields.Links.{query_text};
ghost use Rattle.qrcode_contents.specs.fields.Refusals.{Answers, checked};

use crate::bill::is_out_of_range;
use crate::fields::amounts::open_amount;
use crate::fields::characters::{are_digits, has_one_at, parts};
use crate::fields::errors::{Cause, ContentResult, Field};
use crate::fields::links::push_parameters;
use crate::fields::refusals::{controls, refuse_first};
use std::alloc::Global;

/// A payment by UPI. `payee` is required; other empty fields are left out.
#[derive(Copy, Clone, PartialEq, Eq, Debug)]
pub struct Upi<'a> {
    /// The payee's address, `name@bank`: letters, digits, `-`, `.` and `_` around one `@`.
    pub payee: &'a str,
    /// The payee's name.
    pub name: &'a str,
    /// The merchant's category, four digits (ISO 18245).
    pub category: &'a str,
    /// The reference, e.g. an order number.
    pub reference: &'a str,
    /// A note.
    pub note: &'a str,
    /// The amount in paise, 1 to 99,999,999,999; with `None` the payer enters it.
    pub cents: Option<u64>,
}

// Whether a text has exactly one `@`, with something before and after it.
pub(crate) fn is_address(text: &str) -> bool
    ensures { result ≡ is_address text.now }
{
    let (name, bank) = parts(text, '@');
    has_one_at(text) && !name.is_empty() && !bank.is_empty()
}

// Whether all bytes may be in an address: letters, digits and `-._@`.
fn are_of_address(text: &str) -> bool
    ensures { result ≡ list_all is_address_byte text.now }
{
    let bytes = text.as_bytes();
    bytes.iter().all(
        |byte| matches!(*byte, b'0'..=b'9' | b'A'..=b'Z' | b'a'..=b'z' | b'-' | b'.' | b'_' | b'@'),
    )
}

// Whether a text is four digits.
fn is_category(text: &str) -> bool
    ensures { result ≡ is_category text.now }
{
    text.len() == 4 && are_digits(text.as_bytes())
}

// Appends the amount, if it is not empty, and the currency.
fn push_money(text: &mut String, amount: &str) -> ContentResult<()>
    ensures appends { OnOk result (string_bytes text.new ≡ string_bytes text.old
        ++ query_text (codes "&") ((codes "am", amount.now) ∷ (codes "cu", codes "INR") ∷ [])) }
    ensures memory { IsOkUnless result OutOfMemory }
{
    push_parameters(text, true, &[("am", amount), ("cu", "INR")])
}

impl Upi<'_> {
    // Fails on the first wrong field.
    #[tactic(auto, unfolding(crate::specs::Upi::upi_refusal))]
    fn check(&self) -> ContentResult<()>
        ensures { result ≡ checked (upi_refusal (upi_of self.now)) }
    {
        let wrong_byte = !are_of_address(self.payee);
        let wrong_form = !is_address(self.payee);
        let categorised = !self.category.is_empty();
        let wrong_category = categorised & !is_category(self.category);
        let outside = is_out_of_range(self.cents);
        refuse_first(&[
            (self.payee.is_empty(), Field::Payee, Cause::Empty),
            (wrong_byte, Field::Payee, Cause::Character),
            (wrong_form, Field::Payee, Cause::Character),
            controls(Field::Name, self.name),
            controls(Field::Reference, self.reference),
            controls(Field::Note, self.note),
            (wrong_category, Field::Category, Cause::Character),
            (outside, Field::Amount, Cause::Range),
        ])
    }

    // Writes the link without checking the fields.
    fn written(&self, alloc: Global) -> ContentResult<String>
        ensures value { IfOk result (λ text. string_bytes text ≡ upi_text (upi_of self.now)) }
        ensures memory { IsOkUnless result OutOfMemory }
    {
        let amount = open_amount(alloc, self.cents)?;
        let mut text = String::from_str(alloc, "upi://pay?pa=")?;
        text.push_str(self.payee)?;
        let texts = [
            ("pn", self.name),
            ("mc", self.category),
            ("tr", self.reference),
            ("tn", self.note),
        ];
        push_parameters(&mut text, true, &texts)?;
        push_money(&mut text, amount.as_str())?;
        Ok(text)
    }

    /// Returns the link that asks for the payment.
    ///
    /// Errors: `Refused` names the first wrong field and why; `OutOfMemory` if memory runs out.
    pub fn text(&self, alloc: Global) -> ContentResult<String>
        ensures reads { Answers (upi_refusal (upi_of self.now)) result
            (λ text. read_upi text ≡ Some (upi_of self.now)) }
        ensures value { IfOk result (λ text. string_bytes text ≡ upi_text (upi_of self.now)) }
    {
        self.check()?;
        self.written(alloc)
    }
}
