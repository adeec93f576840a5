//! What the program `goqlanis` and the C library share: symbols and their pictures as requested,
//! and why they fail.
#![tactic(auto)]

pub mod areas;
mod charsets;
mod drawing;
mod elements;
pub mod masking;
pub mod overlays;
pub mod places;
mod refusal;
mod request;
mod segments;
pub mod shrinking;

pub use charsets::symbol_among;
pub use drawing::{dots, drawing_of, drawn, quiet_zone, scale, symbol_in};
pub use elements::{symbol_for_application, symbol_of_elements};
pub use refusal::{Data, Grouped, VersionName, mask_refusal_text, refusal_text};
pub use request::{Choice, Extent, Length, Request, manner_of};
pub use segments::{Segment, push_data, symbol_of, unwritable};
