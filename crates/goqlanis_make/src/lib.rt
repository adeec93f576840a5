//! Makes and draws codes, with what stands in their middle, and writes them to files.
#![tactic(auto)]

mod areas;
mod charsets;
mod damaging;
mod drawing;
mod elements;
mod lines;
mod logos;
mod making;
mod middle;
mod payloads;
mod segments;
mod splitting;

use goqlanis_files::failure::Failure;
pub use making::make;

/// What was done, or why the program fails.
type Done<T> = Result<T, Failure>;

/// The bytes of a drawing; none if the code is only reported.
type FileBytes = Option<Vec<u8>>;
