//! `goqlanis read`, `check` and `join`: decodes pictures, and reports on the codes in them.
#![tactic(auto)]

mod checking;
mod joining;
mod pictures;
mod reading;
mod reports;

use goqlanis_files::failure::Failure;
pub use joining::join_pictures;
pub use reading::{check, read};

/// What was done, or why the program fails.
type Done<T> = Result<T, Failure>;
