//! Draws a sheet: modules in the colours, the size and the format that are asked for, with what lies
//! over them.
#![tactic(auto)]

pub mod colours;
pub mod eps;
pub mod escpos;
pub mod formats;
pub mod laws;
mod layers;
pub mod packed;
mod parts;
mod pasting;
mod paths;
pub mod pbm;
pub mod pdf;
pub mod pgm;
mod places;
pub mod ppm;
mod render;
mod runs;
mod shades;
pub mod sheet;
pub mod svg_path;
mod terminal;
pub mod tspl;
pub mod xbm;
pub mod zpl;

pub use layers::{PartInk, units};
pub use parts::CodePart;
pub use pasting::{Inset, Window};
pub use places::Region;
pub use render::{DrawError, draw, takes_overlay, takes_parts};
pub use shades::GREATEST_PAINTED;
