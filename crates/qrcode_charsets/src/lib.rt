//! Texts in character sets other than UTF-8: ISO/IEC 8859 and Windows sets, and Shift JIS, and which
//! takes the fewest bits.
#![tactic(auto)]

pub mod eci;
pub mod laws;
mod pairs_high;
mod pairs_low;
pub mod sets;
mod shift_jis;
pub mod shortest;
mod table;
pub mod texts;
