//! The layout of a symbol: functional patterns, format and version words, masks, and the order of
//! the free places.
#![tactic(auto)]

pub mod centres;
pub mod figures;
pub mod laws;
pub mod mask_functions;
pub mod masks;
pub mod patterns;
pub mod walk;
pub mod words;
