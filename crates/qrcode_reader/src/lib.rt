//! Decodes squares of modules: version, level and mask, data bits, bytes or text, and which
//! codewords were wrong.
#![tactic(auto)]

mod bits;
pub mod blocks;
pub mod correct;
mod correction;
pub mod figures;
pub mod formats;
pub mod laws;
mod parts;
mod positions;
mod reading;
mod refusals;
mod sizes;
pub mod spell;
mod texts;
mod turned;
pub mod walk;
pub mod words;

pub use correction::WrongCodeword;
pub use formats::read_format;
pub use parts::{PartsReading, read_parts};
pub use positions::{AnyPartsReading, AnyReading, Position, read_any, read_any_parts, seen};
pub use reading::{BitReading, Reading, read, read_bits};
pub use refusals::{Unread, UnreadText};
pub use sizes::version_of;
pub use texts::{TextReading, read_text};
