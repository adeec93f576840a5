//! Payloads of QR codes, from fields as people write them: which fields each kind has, and its
//! text.
#![tactic(auto)]

mod amounts;
pub mod given;
pub mod kinds;
pub mod numbers;
mod plain;
pub mod texts;
mod times;
mod values;
mod words;
