//! Payloads of QR codes: Wi-Fi networks, contacts, payments, events and links. Each format is a
//! struct with named fields, and a call such as `text` writes it.
#![tactic(auto)]

mod accounts;
pub mod bill;
pub mod card;
pub mod contact;
pub mod event;
pub mod fields;
pub mod geo;
pub mod laws;
pub mod mail;
pub mod merchant;
pub mod one_time;
pub mod payment;
pub mod phone;
mod pix_keys;
pub mod times;
pub mod upi;
pub mod wifi;

pub use fields::{
    amounts, characters, content_lines, entries, errors, escapes, lines, links, numbers, objects,
    percents, refusals,
};
