//! What the formats share: escapes, entries, lines, links, check digits, and errors.

pub mod amounts;
pub mod characters;
pub mod content_lines;
pub mod entries;
pub mod errors;
pub mod escapes;
pub mod laws;
pub mod lines;
pub mod links;
pub mod numbers;
pub mod objects;
pub mod percents;
pub mod refusals;
