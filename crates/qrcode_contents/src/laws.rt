//! Theorems about `==` on the formats and their types.

ghost use Rattle.std.specs.Prelude.{◌≡◌, ◌↔◌, IsTrue};
ghost use Rattle.qrcode_contents.specs.Bill.{addressee_of, invoice_of};
ghost use Rattle.qrcode_contents.specs.Card.{card_of};
ghost use Rattle.qrcode_contents.specs.Contact.{contact_of};
ghost use Rattle.qrcode_contents.specs.Mail.{mail_fields};
ghost use Rattle.qrcode_contents.specs.OneTime.{key_of};
ghost use Rattle.qrcode_contents.specs.Payment.{payment_fields};
ghost use Rattle.qrcode_contents.specs.Merchant.{pix_of, promptpay_of};
ghost use Rattle.qrcode_contents.specs.Upi.{upi_of};
ghost use Rattle.qrcode_contents.specs.Wifi.{wifi_fields};
ghost use Rattle.qrcode_contents.specs.declared.bill.Bill.{Bill};
ghost use Rattle.qrcode_contents.specs.declared.bill.Currency.{Currency};
ghost use Rattle.qrcode_contents.specs.declared.bill.Party.{Party};
ghost use Rattle.qrcode_contents.specs.declared.card.Card.{Card};
ghost use Rattle.qrcode_contents.specs.declared.contact.Contact.{Contact};
ghost use Rattle.qrcode_contents.specs.declared.geo.Place.{Place};
ghost use Rattle.qrcode_contents.specs.declared.mail.Mail.{Mail};
ghost use Rattle.qrcode_contents.specs.declared.one_time.Algorithm.{Algorithm};
ghost use Rattle.qrcode_contents.specs.declared.one_time.Digits.{Digits};
ghost use Rattle.qrcode_contents.specs.declared.one_time.Factor.{Factor};
ghost use Rattle.qrcode_contents.specs.declared.one_time.OneTime.{OneTime};
ghost use Rattle.qrcode_contents.specs.declared.payment.Payment.{Payment};
ghost use Rattle.qrcode_contents.specs.declared.payment.PaymentVersion.{PaymentVersion};
ghost use Rattle.qrcode_contents.specs.declared.phone.Phone.{Phone};
ghost use Rattle.qrcode_contents.specs.declared.merchant.Pix.{Pix};
ghost use Rattle.qrcode_contents.specs.declared.merchant.PromptPay.{PromptPay};
ghost use Rattle.qrcode_contents.specs.declared.upi.Upi.{Upi};
ghost use Rattle.qrcode_contents.specs.declared.wifi.Security.{Security};
ghost use Rattle.qrcode_contents.specs.declared.wifi.Wifi.{Wifi};
ghost use Rattle.qrcode_contents.specs.Event.{happening_of};
ghost use Rattle.qrcode_contents.specs.declared.event.Event.{Event};
ghost use Rattle.qrcode_contents.specs.declared.event.Span.{Span};
ghost use Rattle.qrcode_contents.specs.declared.times.Day.{Day};
ghost use Rattle.qrcode_contents.specs.declared.times.Moment.{Moment};

use crate::bill::{Bill, Currency, Party};
use crate::card::Card;
use crate::contact::Contact;
use crate::event::{Event, Span};
use crate::geo::Place;
use crate::mail::Mail;
use crate::merchant::{Pix, PromptPay};
use crate::one_time::{Algorithm, Digits, Factor, OneTime};
use crate::payment::{Payment, PaymentVersion};
use crate::phone::Phone;
use crate::times::{Day, Moment};
use crate::upi::Upi;
use crate::wifi::{Security, Wifi};

/// Theorem: two values of these types are equal by `==` exactly if they are the same; structs with
/// texts, exactly if their fields are.
pub fn equality<'a>()
    ensures days { (a b : Day) → IsTrue (⟦<Day as PartialEq>⟧.eq a b) ↔ (a ≡ b) }
    ensures moments { (a b : Moment) → IsTrue (⟦<Moment as PartialEq>⟧.eq a b) ↔ (a ≡ b) }
    ensures spans { (a b : Span) → IsTrue (⟦<Span as PartialEq>⟧.eq a b) ↔ (a ≡ b) }
    ensures currencies { (a b : Currency) → IsTrue (⟦<Currency as PartialEq>⟧.eq a b) ↔ (a ≡ b) }
    ensures securities { (a b : Security) → IsTrue (⟦<Security as PartialEq>⟧.eq a b) ↔ (a ≡ b) }
    ensures factors { (a b : Factor) → IsTrue (⟦<Factor as PartialEq>⟧.eq a b) ↔ (a ≡ b) }
    ensures algorithms { (a b : Algorithm)
        → IsTrue (⟦<Algorithm as PartialEq>⟧.eq a b) ↔ (a ≡ b) }
    ensures digits { (a b : Digits) → IsTrue (⟦<Digits as PartialEq>⟧.eq a b) ↔ (a ≡ b) }
    ensures versions { (a b : PaymentVersion)
        → IsTrue (⟦<PaymentVersion as PartialEq>⟧.eq a b) ↔ (a ≡ b) }
    ensures places { (a b : Place) → IsTrue (⟦<Place as PartialEq>⟧.eq a b) ↔ (a ≡ b) }
    ensures parties { (a b : Party)
        → IsTrue (⟦<Party<'a> as PartialEq>⟧.eq a b) ↔ (addressee_of a ≡ addressee_of b) }
    ensures mails { (a b : Mail)
        → IsTrue (⟦<Mail<'a> as PartialEq>⟧.eq a b) ↔ (mail_fields a ≡ mail_fields b) }
    ensures payments { (a b : Payment)
        → IsTrue (⟦<Payment<'a> as PartialEq>⟧.eq a b) ↔ (payment_fields a ≡ payment_fields b) }
    ensures phones { (a b : Phone)
        → IsTrue (⟦<Phone<'a> as PartialEq>⟧.eq a b) ↔ (a.number.now ≡ b.number.now) }
    ensures networks { (a b : Wifi)
        → IsTrue (⟦<Wifi<'a> as PartialEq>⟧.eq a b) ↔ (wifi_fields a ≡ wifi_fields b) }
{}

/// Theorem: two cards are equal by `==` exactly if their fields are.
pub fn card_equality<'a>()
    ensures { (a b : Card)
        → IsTrue (⟦<Card<'a> as PartialEq>⟧.eq a b) ↔ (card_of a ≡ card_of b) }
{
    contact_equality();
}

/// Theorem: two contacts are equal by `==` exactly if their fields are.
pub fn contact_equality<'a>()
    ensures { (a b : Contact)
        → IsTrue (⟦<Contact<'a> as PartialEq>⟧.eq a b) ↔ (contact_of a ≡ contact_of b) }
{
    equality();
}

/// Theorem: two `OneTime`s are equal by `==` exactly if their fields are.
pub fn one_time_equality<'a>()
    ensures { (a b : OneTime)
        → IsTrue (⟦<OneTime<'a> as PartialEq>⟧.eq a b) ↔ (key_of a ≡ key_of b) }
{
    equality();
}

/// Theorem: two bills are equal by `==` exactly if their fields are.
pub fn bill_equality<'a>()
    ensures { (a b : Bill)
        → IsTrue (⟦<Bill<'a> as PartialEq>⟧.eq a b) ↔ (invoice_of a ≡ invoice_of b) }
{
    equality();
}

/// Theorem: two events are equal by `==` exactly if their fields are.
pub fn event_equality<'a>()
    ensures { (a b : Event)
        → IsTrue (⟦<Event<'a> as PartialEq>⟧.eq a b) ↔ (happening_of a ≡ happening_of b) }
{
    equality();
}

/// Theorem: two payments by UPI, by Pix or by PromptPay are equal by `==` exactly if their fields
/// are.
#[tactic(auto, using(crate::proofs::OpenAmounts::amounts_equal))]
pub fn request_equality<'a>()
    ensures requests { (a b : Upi)
        → IsTrue (⟦<Upi<'a> as PartialEq>⟧.eq a b) ↔ (upi_of a ≡ upi_of b) }
    ensures charges { (a b : Pix)
        → IsTrue (⟦<Pix<'a> as PartialEq>⟧.eq a b) ↔ (pix_of a ≡ pix_of b) }
    ensures claims { (a b : PromptPay)
        → IsTrue (⟦<PromptPay<'a> as PartialEq>⟧.eq a b) ↔ (promptpay_of a ≡ promptpay_of b) }
{}
