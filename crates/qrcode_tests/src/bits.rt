//! Tests of bit lists and of segments.

mod optimizer;
mod pushes;
