//! GS1 element strings (application identifiers with their values), and symbols with FNC1.
#![tactic(auto)]

pub mod checks;
pub mod elements;
pub mod errors;
pub mod laws;
pub mod symbol;
pub mod table;
