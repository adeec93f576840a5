//! The lines of an input with a code in each (`--lines`): their fields, the columns that name these,
//! and the names of files that are made of them.
#![tactic(auto)]

pub mod checks;
pub mod columns;
pub mod fields;
pub mod inputs;
pub mod names;
pub mod pages;
pub mod rows;
pub mod tables;

use goqlanis_files::failure::Failure;

/// What was done, or why the program fails.
type Done<T> = Result<T, Failure>;
