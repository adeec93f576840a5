//! The commands and options of `goqlanis`, their help, and advice on wrong command lines.
#![tactic(auto)]

pub mod advice;
pub mod command;
pub mod conflicts;
mod habits;
mod tables;
pub mod tasks;
