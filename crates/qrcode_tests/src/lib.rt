//! Tests of public calls that neither the C library nor a program makes. Expected values come from
//! other encoders, the standard's examples, or by hand.
#![tactic(auto)]

#[cfg(test)]
mod bits;
#[cfg(test)]
mod common;
#[cfg(test)]
mod contents;
#[cfg(test)]
mod render;
#[cfg(test)]
mod symbol;
#[cfg(test)]
mod uses;
