//! The types that all layers of the encoder share: errors, colours, error correction levels,
//! versions and modes.
#![tactic(auto)]

pub mod characters;
pub mod laws;
pub mod modes;
pub mod tables;
pub mod types;
pub mod versions;
