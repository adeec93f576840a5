//! Reports where a square of modules departs from the standard.
#![tactic(auto)]

mod checking;
pub mod correction;
pub mod ending;
pub mod forms;
pub mod guesses;
pub mod masks;
pub mod modules;
pub mod segments;

pub use checking::{Check, Content, check_seen, check_square};
