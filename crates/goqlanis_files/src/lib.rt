//! Input and output of `goqlanis`: files, standard input and output, and failures.
#![tactic(auto)]

pub mod failure;
pub mod files;
pub mod streams;
