//! Encodes, draws, reads and checks symbols in buffers of a caller who names versions, levels and
//! formats by numbers, as C programs do. After an error all outputs are unchanged.
#![tactic(auto)]

pub mod answers;
pub mod areas;
pub mod charsets;
pub mod checking;
pub mod contents;
pub mod damaging;
pub mod elements;
pub mod joining;
pub mod laws;
pub mod logos;
pub mod names;
pub mod options;
pub mod pictures;
pub mod reading;
pub mod scanning;
pub mod segments;
pub mod several;
pub mod symbols;
pub mod texts;
pub mod tints;
