//! The penalty of a symbol, which decides its mask, counted on rows of modules packed into words.
#![tactic(auto)]

mod columns;
pub mod pair;
pub mod penalty;
pub mod row;
mod rows;
pub mod square;
