//! Symbols: draws patterns, data and masks on a canvas of modules. Re-exports error correction and
//! the basic types as `ec` and `types`.
#![tactic(auto)]

pub mod canvas;
pub mod laws;

pub use qrcode_ec as ec;
pub use qrcode_types::types;
