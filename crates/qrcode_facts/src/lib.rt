//! Examples: calls of `qrcode` to copy from, and printed ones that the prover computes from the
//! definitions. A function of `data`, `files`, `symbols`, `tables` and `words` does nothing; its
//! contract is the example.
#![tactic(auto)]

pub mod data;
pub mod drawings;
pub mod files;
pub mod label;
pub mod payments;
pub mod plain;
pub mod several;
pub mod symbols;
pub mod tables;
pub mod texts;
pub mod ticket;
pub mod words;
