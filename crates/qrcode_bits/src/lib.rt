//! Turns data into bits: `optimize` divides it into segments, `bits` writes them.
#![tactic(auto)]

pub mod bits;
mod digits;
pub mod laws;
pub mod optimize;
