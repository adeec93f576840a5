//! Finds, decodes and checks the codes in pictures: PNG, PBM and PGM files, half blocks, colours.
#![tactic(auto)]

mod checking;
mod codes;
mod files;
mod finders;
mod grids;
mod halves;
mod heads;
pub mod laws;
mod lone;
mod micro;
mod pixels;
mod samples;
mod scanning;
mod several;
mod shades;
mod squares;
mod texts;
mod turned;
mod wholes;

pub use checking::{Checks, check_codes};
pub use codes::{Codes, Missed, read_codes};
pub use files::pixels_of;
pub use grids::Grid;
pub use pixels::{Pixels, Unscanned};
pub use samples::sampled_at;
pub use scanning::{Scan, ScanError};
pub use several::behind_picture;
pub use shades::pixels_of_colours;
pub use squares::{Square, square_of};
pub use texts::shown_text;
pub use wholes::grids_of;
