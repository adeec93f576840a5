//! What the options of `goqlanis` mean, and warnings and reports.
#![tactic(auto)]

pub mod asked;
pub mod charsets;
pub mod colours;
pub mod damage;
pub mod fields;
pub mod formats;
pub mod frames;
pub mod json;
pub mod logos;
pub mod modes;
pub mod nearest;
pub mod options;
pub mod pictures;
pub mod report;
pub mod sizes;
pub mod targets;
pub mod warnings;
