//! Says which areas of a symbol may be covered, e.g. by a logo, so that it still decodes; and draws
//! symbols with exactly so much damage, to test readers.
#![tactic(auto)]

pub mod areas;
pub mod covered;
pub mod damage;
mod drawn;
mod errors;
pub mod excess;
mod flips;
pub mod laid;
pub mod laws;
pub mod marks;
mod patterns;
pub mod random;
pub mod rectangles;
pub mod reserve;
mod words;
